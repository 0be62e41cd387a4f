//! The tree of reversed names, and how far lent names follow it.
ghost use Rattle.std.specs.Prelude.{◌≡◌, ◌≢◌, ◌<◌, ◌≤◌, ◌+◌, ◌-◌, ◌*◌, ◌^◌, ℕ, IfSome, IfNone, IfOk, IsTrue};
ghost use Rattle.std.specs.List.{All};
ghost use Rattle.addr_bits.specs.Address.{bits_of};
ghost use Rattle.dns_name.specs.Name.{IsUnder};
ghost use Rattle.zone_answers.specs.Reversed.{label_bits, label_count, label_of};
ghost use Rattle.reverse_names.specs.Tree.{ArePaths, ArePathsTo, IsPath, IsRead, first_digits};

use crate::digit::digit_of;
use addr_bits::{Family, Items};
use dns_name::{Labels, Name};
use std::alloc::{AllocError, Global};
use zone_answers::Zones;

/// How many bits of an address a label has: 8 for an octet, 4 for a hexadecimal digit.
pub(crate) fn label_bits(family: Family) -> u32
    ensures { result ≡ label_bits family }
{
    match family {
        Family::V4 => 8,
        Family::V6 => 4,
    }
}

/// How many labels an address has.
pub(crate) fn label_count(family: Family) -> u32
    ensures { result ≡ label_count family }
{
    match family {
        Family::V4 => 4,
        Family::V6 => 32,
    }
}

/// How many bits of an address stand behind its first labels.
pub(crate) fn bits_behind(family: Family, depth: u32) -> u32
    requires { depth ≤ label_count family }
    ensures { result ≡ bits_of family - depth * label_bits family }
{
    (label_count(family) - depth) * label_bits(family)
}

/// The number that the first labels of an address write.
pub(crate) fn first_digits(family: Family, depth: u32, start: u128) -> u128
    requires some { 0 < depth }
    requires few { depth ≤ label_count family }
    ensures { result ≡ first_digits family depth start }
{
    start >> bits_behind(family, depth)
}

/// What the labels of a name say, from the suffix outward: the number that the first of them write, how many write it,
/// and whether these are all.
#[derive(Drop)]
struct Reading {
    digits: u128,
    depth: u32,
    whole: bool,
}

/// The digit that a label adds to what is read of the labels behind it.
fn next_digit(family: Family, label: &[u8], read: &Reading) -> Option<u8>
    ensures whole { IfSome result (λ digit. IsTrue read.now.whole) }
    ensures room { IfSome result (λ digit. read.now.depth < label_count family) }
    ensures below { IfSome result (λ digit. digit < 2 ^ label_bits family) }
    ensures label { IfSome result (λ digit. label.now ≡ label_of family digit) }
    ensures none { IfNone result (IsTrue read.now.whole → read.now.depth < label_count family
        → (digit : ℕ) → digit < 2 ^ label_bits family → label.now ≢ label_of family digit) }
{
    if !read.whole || read.depth >= label_count(family) {
        return None;
    }
    digit_of(family, label)
}

/// Reads the labels of a name from the suffix outward.
fn read_labels(family: Family, labels: &Labels, suffix: &Name) -> Reading
    requires { IsUnder labels.now suffix.now }
    ensures { IsRead family suffix.now labels.now result }
{
    if labels.are_all_of(suffix) {
        return Reading {
            digits: 0,
            depth: 0,
            whole: true,
        };
    }
    let Some((label, behind)) = labels.split_first() else {
        unreachable!();
    };
    let read = read_labels(family, &behind, suffix);
    match next_digit(family, label, &read) {
        Some(digit) => Reading {
            digits: (read.digits << label_bits(family)) + u128::from(digit),
            depth: read.depth + 1,
            whole: true,
        },
        None => Reading {
            digits: read.digits,
            depth: read.depth,
            whole: false,
        },
    }
}

/// The first addresses below the nodes on the way to a lent name, and how many labels the last of them has.
#[derive(Drop)]
pub(crate) struct Path {
    /// The number of the first address.
    pub(crate) start: u128,

    /// How many labels of the name, from the suffix outward, are those of addresses.
    pub(crate) depth: u32,
}

/// The way to a name.
fn path_of(family: Family, name: &Name, suffix: &Name) -> Path
    requires { IsUnder name.now suffix.now }
    ensures { IsPath family suffix.now name.now result }
{
    let read = read_labels(family, &name.labels(), suffix);
    let start = if read.depth == 0 {
        0
    } else {
        read.digits << bits_behind(family, read.depth)
    };
    Path {
        start,
        depth: read.depth,
    }
}

/// The ways to the names, in their order.
fn paths_to(
    alloc: Global,
    family: Family,
    names: &[Name],
    suffix: &Name,
) -> Result<Items<Path>, AllocError>
    requires { All (λ name. IsUnder name suffix.now) names.now }
    ensures { IfOk result (ArePathsTo family suffix.now names.now) }
{
    let mut paths = Items::new(alloc);
    for name in names {
        paths.push(path_of(family, name, suffix))?;
    }
    Ok(paths)
}

/// The ways to the names at or below the suffix at which something is lent, by the first address and then the number of
/// labels: the ways through a node stand beside one another.
pub(crate) fn paths_under(
    alloc: Global,
    family: Family,
    zones: &Zones,
    suffix: &Name,
) -> Result<Vec<Path>, AllocError>
    ensures { IfOk result (λ paths. ArePaths zones.now family suffix.now paths.items) }
{
    let names = zones.names_under(suffix)?;
    let mut paths = paths_to(alloc, family, names.as_slice(), suffix)?.into_vec();
    paths.sort_unstable_by_key(|path| (path.start, path.depth));
    Ok(paths)
}
