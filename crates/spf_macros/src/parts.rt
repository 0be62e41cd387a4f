//! The parts of a macro's value (RFC 7208, section 7.3).
ghost use Rattle.std.specs.Prelude.{◌≡◌, ◌++◌, map, OnOk, IfOk, if◌then◌else◌};
ghost use Rattle.std.specs.List.{slice_split, join_with_byte};
ghost use Rattle.std.specs.Prelude as list;
ghost use Rattle.spf_macros.specs.Expansion as expansion;

use crate::Macro;
use crate::transformers::is_in_set;
use addr_bits::Bytes;
use std::alloc::{AllocError, Global};

/// Whether a macro splits its value at the byte.
fn splits_at(transformers: Macro, byte: u8) -> bool
    ensures { result ≡ expansion.splits_at transformers byte }
{
    if transformers.delims == 0 {
        byte == b'.'
    } else {
        is_in_set(transformers.delims, byte)
    }
}

fn split_value(alloc: Global, transformers: Macro, value: &[u8]) -> Result<Vec<&[u8]>, AllocError>
    ensures { IfOk result (λ parts.
        map (λ x. x.now) parts.items ≡ slice_split (expansion.splits_at transformers) value.now) }
{
    value
        .split(|byte| splits_at(transformers, *byte))
        .collect(alloc)
}

fn turn(parts: &mut [&[u8]], reverse: bool)
    ensures { map (λ x. x.now) parts.new
        ≡ (if reverse then list.reverse (map (λ x. x.now) parts.old) else map (λ x. x.now) parts.old) }
{
    if reverse {
        parts.reverse();
    }
}

/// The right-hand parts, as many as are kept, or all where that is 0.
fn kept<'a, 'b>(parts: &'a [&'b [u8]], keep: u8) -> &'a [&'b [u8]]
    ensures { map (λ x. x.now) result.now ≡ expansion.kept keep (map (λ x. x.now) parts.now) }
{
    if keep == 0 {
        return parts;
    }
    &parts[parts.len().saturating_sub(usize::from(keep))..]
}

/// Appends parts joined by dots.
fn append_joined(out: &mut Bytes, parts: &[&[u8]]) -> Result<(), AllocError>
    ensures { OnOk result (out.new ≡ out.old ++ join_with_byte 46 (map (λ x. x.now) parts.now)) }
{
    let Some((first, rest)) = parts.split_first() else {
        return Ok(());
    };
    out.extend_from_slice(first)?;
    for part in rest {
        out.push(b'.')?;
        out.extend_from_slice(part)?;
    }
    Ok(())
}

/// Appends the value split, reversed, cut to its right-hand parts, and joined by dots.
pub(crate) fn append_transformed(
    alloc: Global,
    out: &mut Bytes,
    transformers: Macro,
    value: &[u8],
) -> Result<(), AllocError>
    ensures { OnOk result (out.new ≡ out.old ++ expansion.transformed transformers value.now) }
{
    let mut parts = split_value(alloc, transformers, value)?;
    turn(&mut parts, transformers.reverse);
    append_joined(out, kept(&parts, transformers.keep))
}
