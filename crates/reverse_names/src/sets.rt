//! The classes of the answers at the reversed names of all addresses of a family, as sets.
ghost use Rattle.std.specs.Prelude.{◌≡◌, ◌≢◌, ◌==◌, ◌<◌, ◌≤◌, ◌+◌, ◌^◌, ◌↔◌, ℕ, true, false, length, Some, IfOk, OnOk};
ghost use Rattle.std.specs.Prelude.{IsFalse, if◌then◌else◌};
ghost use Rattle.std.specs.List.{All, list_any};
ghost use Rattle.addr_bits.specs.Address.{address_of, bits_of};
ghost use Rattle.addr_bits.specs.Prefix.{Covers};
ghost use Rattle.addr_bits.specs.declared.address.Address.TheVariants as addresses;
ghost use Rattle.dns_name.specs.Wire.{wire_form};
ghost use Rattle.prefix_trie.specs.Leaves.{value_at};
ghost use Rattle.zone_answers.specs.Reversed.{label_count, reversed_class};
ghost use Rattle.reverse_names.specs.Tree.{ArePaths, class_at, ends, first_digits, level, reach};

use crate::path::{Path, first_digits, label_bits, label_count, paths_under};
use addr_bits::{Address, AddressFamily, Family, Prefix};
use dns_name::Name;
use prefix_trie::TrieMap;
use std::alloc::{AllocError, Global};
use zone_answers::{Class, QKind, Zones, digits_name};

/// The address of the family with this number.
fn with_number<W: AddressFamily>(number: u128) -> W
    requires { number < 2 ^ W.BITS }
    ensures { W.number result ≡ number }
{
    let address = match W::family() {
        Family::V4 => Address::V4(number as u32),
        Family::V6 => Address::V6(number),
    };
    match W::from_address(address) {
        Some(a) => a,
        None => unreachable!(),
    }
}

/// The class of the answers below the suffix, where nothing is lent at or below their names.
fn class_below(zones: &Zones, suffix: &Name, family: Family) -> Result<Class, AllocError>
    requires { length (wire_form suffix.now) ≤ 191 }
    ensures { IfOk result (λ class. (a : ℕ) → class ≡ class_at zones.now suffix.now family 0 a) }
{
    Ok(Class::of(&zones.answer_below(suffix, QKind::A)?))
}

/// The class of the answers below the node with so many labels on the way to an address, where nothing is lent at or
/// below their names; of the answer at the node, where it has all labels of an address.
fn class_at(
    zones: &Zones,
    suffix: &Name,
    family: Family,
    depth: u32,
    start: u128,
) -> Result<Class, AllocError>
    requires room { length (wire_form suffix.now) ≤ 191 }
    requires some { 0 < depth }
    requires few { depth ≤ label_count family }
    ensures { IfOk result (λ class. class ≡ class_at zones.now suffix.now family depth start) }
{
    let digits = first_digits(family, depth, start);
    let node = digits_name(family, depth, digits, suffix);
    let answer = if depth == label_count(family) {
        zones.answer(&node, QKind::A)?
    } else {
        zones.answer_below(&node, QKind::A)?
    };
    Ok(Class::of(&answer))
}

/// The prefix of the addresses that have the same first labels as one.
fn prefix_of<W: AddressFamily>(depth: u32, start: u128) -> Prefix<W>
    requires few { depth ≤ label_count W.family }
    requires start { start < 2 ^ W.BITS }
    ensures { (a : ℕ) → Covers W.BITS result a ↔ (first_digits W.family depth a ≡ first_digits W.family depth start) }
{
    Prefix::new(with_number(start), depth * label_bits(W::family()))
}

/// Sets the class of the path's node with so many labels at each address below it.
fn set_node<W: AddressFamily>(
    zones: &Zones,
    suffix: &Name,
    path: &Path,
    depth: u32,
    classes: &mut TrieMap<W, Class>,
) -> Result<(), AllocError>
    requires room { length (wire_form suffix.now) ≤ 191 }
    requires some { 0 < depth }
    requires few { depth ≤ label_count W.family }
    requires start { path.now.start < 2 ^ W.BITS }
    ensures { OnOk result ((a : ℕ) → a < 2 ^ W.BITS → value_at W.BITS classes.new a
        ≡ (if first_digits W.family depth a == first_digits W.family depth path.now.start
        then Some (class_at zones.now suffix.now W.family depth a) else value_at W.BITS classes.old a)) }
{
    let class = class_at(zones, suffix, W::family(), depth, path.start)?;
    classes.set(prefix_of(depth, path.start), class)
}

/// Adds the addresses below the path's node with so many labels.
fn add_node<W: AddressFamily>(
    path: &Path,
    depth: u32,
    set: &mut TrieMap<W, bool>,
) -> Result<(), AllocError>
    requires few { depth ≤ label_count W.family }
    requires start { path.now.start < 2 ^ W.BITS }
    ensures { OnOk result ((a : ℕ) → a < 2 ^ W.BITS → value_at W.BITS set.new a
        ≡ (if first_digits W.family depth a == first_digits W.family depth path.now.start
        then Some true else value_at W.BITS set.old a)) }
{
    set.set(prefix_of(depth, path.start), true)
}

/// The addresses below the nodes with so many labels at which a path ends.
fn ends_at<W: AddressFamily>(
    alloc: Global,
    paths: &[Path],
    depth: u32,
) -> Result<TrieMap<W, bool>, AllocError>
    requires few { depth ≤ label_count W.family }
    requires starts { All (λ path. path.start < 2 ^ W.BITS) paths.now }
    ensures { IfOk result (λ set. (a : ℕ) → a < 2 ^ W.BITS
        → value_at W.BITS set a ≡ Some (list_any (ends W.family depth a) paths.now)) }
{
    let mut set = TrieMap::whole(alloc, false)?;
    for path in paths {
        if path.depth == depth {
            add_node(path, depth, &mut set)?;
        }
    }
    Ok(set)
}

/// Whether the path's node with so many labels is not on the last path before it.
fn is_new(family: Family, before: &[Path], path: &Path, depth: u32) -> bool
    requires some { 0 < depth }
    requires few { depth ≤ label_count family }
    ensures { IsFalse result → (a : ℕ) → reach family depth a path.now ≡ true
        → list_any (reach family depth a) before.now ≡ true }
{
    let Some(last) = before.last() else {
        return true;
    };
    last.depth < depth
        || first_digits(family, depth, last.start) != first_digits(family, depth, path.start)
}

/// Whether the path's node with so many labels has all labels of an address, or a path ends there or at the node above.
fn is_stop<W: AddressFamily>(
    path: &Path,
    depth: u32,
    ends_above: &TrieMap<W, bool>,
    ends: &TrieMap<W, bool>,
) -> bool
    requires { path.now.start < 2 ^ W.BITS }
    ensures most { IsFalse result → depth ≢ label_count W.family }
    ensures above { IsFalse result → value_at W.BITS ends_above.now path.now.start ≡ Some false }
    ensures here { IsFalse result → value_at W.BITS ends.now path.now.start ≡ Some false }
{
    let start = with_number::<W>(path.start);
    depth == label_count(W::family()) || *ends_above.at(start) || *ends.at(start)
}

/// Sets the classes of the nodes on the paths that have one label more than those whose classes are set. A node at
/// which no path ends has the class of the node above, if none ends there.
fn set_level<W: AddressFamily>(
    alloc: Global,
    zones: &Zones,
    suffix: &Name,
    paths: &[Path],
    above: u32,
    classes: &mut TrieMap<W, Class>,
) -> Result<(), AllocError>
    requires room { length (wire_form suffix.now) ≤ 191 }
    requires few { above < label_count W.family }
    requires paths { ArePaths zones.now W.family suffix.now paths.now }
    requires so_far { (a : ℕ) → a < 2 ^ W.BITS
        → value_at W.BITS classes.old a ≡ Some (level zones.now suffix.now W.family paths.now above a) }
    ensures { OnOk result ((a : ℕ) → a < 2 ^ W.BITS
        → value_at W.BITS classes.new a ≡ Some (level zones.now suffix.now W.family paths.now (above + 1) a)) }
{
    let depth = above + 1;
    let family = W::family();
    let ends_above: TrieMap<W, bool> = ends_at(alloc, paths, above)?;
    let ends: TrieMap<W, bool> = ends_at(alloc, paths, depth)?;
    for (place, path) in paths.iter().enumerate() {
        if path.depth >= depth
            && is_new(family, &paths[..place], path, depth)
            && is_stop(path, depth, &ends_above, &ends)
        {
            set_node(zones, suffix, path, depth, classes)?;
        }
    }
    Ok(())
}

/// The class of the answer for A at the reversed name of each address of the family below the suffix (RFC 7208,
/// sections 5.7 and 7.2). Its work grows with the names lent at or below the suffix, not with the addresses.
/// `AllocError` where there is no memory.
pub fn reverse_sets<W: AddressFamily>(
    alloc: Global,
    zones: &Zones,
    suffix: &Name,
) -> Result<TrieMap<W, Class>, AllocError>
    requires { length (wire_form suffix.now) ≤ 191 }
    ensures { IfOk result (λ classes. (a : ℕ) → a < 2 ^ W.BITS
        → value_at W.BITS classes a ≡ Some (reversed_class zones.now suffix.now (address_of W.family a))) }
{
    let family = W::family();
    let paths = paths_under(alloc, family, zones, suffix)?;
    let mut classes = TrieMap::whole(alloc, class_below(zones, suffix, family)?)?;
    for above in 0..label_count(family) {
        set_level(alloc, zones, suffix, &paths, above, &mut classes)?;
    }
    Ok(classes)
}

/// The class of the answer for A at the reversed name of each IPv4 address below the suffix (RFC 1035, section 3.5, and
/// RFC 7208, section 7.2). `AllocError` where there is no memory.
pub fn reverse_sets4(
    alloc: Global,
    zones: &Zones,
    suffix: &Name,
) -> Result<TrieMap<u32, Class>, AllocError>
    requires { length (wire_form suffix.now) ≤ 191 }
    ensures { IfOk result (λ classes. (a : ℕ) → a < 2 ^ 32
        → value_at 32 classes a ≡ Some (reversed_class zones.now suffix.now (addresses.V4 a))) }
{
    reverse_sets(alloc, zones, suffix)
}

/// The class of the answer for A at the reversed name of each IPv6 address below the suffix (RFC 3596, section 2.5, and
/// RFC 7208, section 7.2). `AllocError` where there is no memory.
pub fn reverse_sets6(
    alloc: Global,
    zones: &Zones,
    suffix: &Name,
) -> Result<TrieMap<u128, Class>, AllocError>
    requires { length (wire_form suffix.now) ≤ 191 }
    ensures { IfOk result (λ classes. (a : ℕ) → a < 2 ^ 128
        → value_at 128 classes a ≡ Some (reversed_class zones.now suffix.now (addresses.V6 a))) }
{
    reverse_sets(alloc, zones, suffix)
}
