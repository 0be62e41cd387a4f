//! What macro texts expand to (RFC 7208, section 7.3).
ghost use Rattle.std.specs.Prelude.{◌≡◌, ◌++◌, IsTrue, IfOk, OnOk, MatchResult};
ghost use Rattle.std.specs.List.{list_all, flat_map};
ghost use Rattle.spf_macros.specs.Grammar.{is_for_all};
ghost use Rattle.spf_macros.specs.Expansion.{Expands};
ghost use Rattle.spf_macros.specs.Expansion as expansion;

use crate::domain::without_final_dot;
use crate::parts::append_transformed;
use crate::{Letter, Macro, MacroText, Piece};
use addr_bits::{Bytes, Family};
use percent_encoding::{AsciiSet, NON_ALPHANUMERIC, ascii_set, percent_encode};
use std::alloc::{AllocError, Global};

/// What an expansion needs beyond the family and the domain.
#[derive(Clone, Copy, Debug, PartialEq, Eq)]
pub enum Need {
    /// The sender, for the letters s, l and o.
    Sender,
    /// The HELO name, for the letter h.
    Helo,
    /// The name of the address, for the letter p.
    Reverse,
    /// The address, for the letter i.
    Address,
}

/// The text of an expansion, or its first need.
#[derive(Drop, Debug)]
pub enum Expanded {
    /// The text.
    Out(Bytes),
    /// What the first macro needs that needs more than the family and the domain.
    Needs(Need),
}

/// What URLs escape (RFC 3986, section 2.3).
const RESERVED: AsciiSet = ascii_set!(
    NON_ALPHANUMERIC
        .remove(b'-')
        .remove(b'.')
        .remove(b'_')
        .remove(b'~')
);

/// The value of a letter (RFC 7208, section 7.2).
fn value(letter: Letter, family: Family, domain: &[u8]) -> Result<&[u8], Need>
    ensures { MatchResult result (λ text. expansion.value_of letter family domain.now ≡ Expanded.Out text.now)
        (λ need. expansion.value_of letter family domain.now ≡ Expanded.Needs need) }
{
    match (letter, family) {
        (Letter::D, _) => Ok(without_final_dot(domain)),
        (Letter::V, Family::V4) => Ok(b"in-addr"),
        (Letter::V, Family::V6) => Ok(b"ip6"),
        (Letter::S | Letter::L | Letter::O, _) => Err(Need::Sender),
        (Letter::H, _) => Err(Need::Helo),
        (Letter::P, _) => Err(Need::Reverse),
        (Letter::I, _) => Err(Need::Address),
        (Letter::C | Letter::R | Letter::T, _) => Ok(b""),
    }
}

fn append_escaped(alloc: Global, out: &mut Bytes, text: &[u8]) -> Result<(), AllocError>
    ensures { OnOk result (out.new ≡ out.old ++ flat_map expansion.escaped_byte text.now) }
{
    let mut escaped = String::new(alloc);
    percent_encode(text, RESERVED).append_to(&mut escaped)?;
    out.extend_from_slice(escaped.as_str().as_bytes())
}

/// Appends what a macro makes of its value.
fn append_macro(
    alloc: Global,
    out: &mut Bytes,
    transformers: Macro,
    value: &[u8],
) -> Result<(), AllocError>
    ensures { OnOk result (out.new ≡ out.old
        ++ expansion.in_case transformers.upper (expansion.transformed transformers value.now)) }
{
    if !transformers.upper {
        return append_transformed(alloc, out, transformers, value);
    }
    let mut text = Bytes::new(alloc);
    append_transformed(alloc, &mut text, transformers, value)?;
    append_escaped(alloc, out, text.as_slice())
}

/// Appends what a piece expands to, or answers what it needs.
fn expand_piece(
    alloc: Global,
    out: &mut Bytes,
    piece: Piece,
    family: Family,
    domain: &[u8],
) -> Result<Option<Need>, AllocError>
    ensures { IfOk result (Expands (expansion.expanded_piece family domain.now piece) out.old out.new) }
{
    match piece {
        Piece::Literal(byte) => out.push(byte)?,
        Piece::Percent => out.push(b'%')?,
        Piece::Space => out.push(b' ')?,
        Piece::Percent20 => out.extend_from_slice(b"%20")?,
        Piece::Expand(transformers) => match value(transformers.letter, family, domain) {
            Ok(text) => append_macro(alloc, out, transformers, text)?,
            Err(need) => return Ok(Some(need)),
        },
    }
    Ok(None)
}

/// What pieces expand to, or the first need.
pub(crate) fn expand_pieces(
    alloc: Global,
    pieces: &[Piece],
    family: Family,
    domain: &[u8],
) -> Result<Expanded, AllocError>
    requires { IsTrue (list_all is_for_all pieces.now) }
    ensures { IfOk result (λ expanded. expanded ≡ expansion.expansion family domain.now pieces.now) }
{
    let mut out = Bytes::new(alloc);
    for piece in pieces {
        if let Some(need) = expand_piece(alloc, &mut out, *piece, family, domain)? {
            return Ok(Expanded::Needs(need));
        }
    }
    Ok(Expanded::Out(out))
}

/// What a macro text expands to for a family of addresses and a domain, whose final dot counts for
/// nothing (RFC 7208, section 7.3); or what the first macro needs that needs more than these. The
/// letters c, r and t, which stand in explanations alone, must not be there: `are_for_all` tests it. `AllocError` where
/// there is no memory.
pub fn expand(
    alloc: Global,
    pieces: &MacroText,
    family: Family,
    domain: &[u8],
) -> Result<Expanded, AllocError>
    requires { IsTrue (list_all is_for_all pieces.now) }
    ensures { IfOk result (λ expanded. expanded ≡ expansion.expansion family domain.now pieces.now) }
{
    expand_pieces(alloc, pieces.as_slice(), family, domain)
}
