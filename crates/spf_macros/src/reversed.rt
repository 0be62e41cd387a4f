//! Macro texts that begin with the reversed address and a dot (RFC 7208, section 7.2).
ghost use Rattle.std.specs.Prelude.{◌≡◌, IfOk, IsTrue};
ghost use Rattle.std.specs.List.{list_all};
ghost use Rattle.std.specs.Option.{option_map};
ghost use Rattle.spf_macros.specs.Grammar.{is_for_all};
ghost use Rattle.spf_macros.specs.Expansion as expansion;
ghost use Rattle.spf_macros.specs.Reversed as reversed;

use crate::domain::without_final_dot;
use crate::expansion::{Expanded, expand_pieces};
use crate::{Letter, Macro, MacroText, Piece};
use addr_bits::{Bytes, Family};
use std::alloc::{AllocError, Global};

/// The macro `i` in lower case, turned round, with all its parts, which are those between dots.
fn is_reversed_address(read: Macro) -> bool
    ensures { result ≡ reversed.is_reversed_address read }
{
    read.letter == Letter::I && !read.upper && read.keep == 0 && read.reverse && read.delims == 0
}

/// The pieces behind the reversed address and a dot; `None` exactly where the text does not begin so.
fn behind_reversed(pieces: &[Piece]) -> Option<&[Piece]>
    ensures { option_map (λ rest. rest.now) result ≡ reversed.behind_reversed pieces.now }
{
    match pieces {
        [Piece::Expand(read), Piece::Literal(b'.'), rest @ ..] if is_reversed_address(*read) => {
            Some(rest)
        }
        _ => None,
    }
}

/// The suffix of a macro text that begins with the reversed address and a dot, as `%{ir}.list.example.com` does: what
/// the pieces behind these expand to, without one final dot, or what the first macro among them needs that needs more
/// than the family and the domain. `None` exactly where the text does not begin so: the macro is the letter `i` in
/// lower case with `r`, no number and no delimiter. The letters c, r and t must not be there: `are_for_all` tests it.
/// It is not shortened. `AllocError` where there is no memory.
pub fn reverse_suffix(
    alloc: Global,
    pieces: &MacroText,
    family: Family,
    domain: &[u8],
) -> Result<Option<Expanded>, AllocError>
    requires { IsTrue (list_all is_for_all pieces.now) }
    ensures { IfOk result (λ suffix. suffix ≡ reversed.reverse_suffix family domain.now pieces.now) }
{
    let Some(behind) = behind_reversed(pieces.as_slice()) else {
        return Ok(None);
    };
    let text = match expand_pieces(alloc, behind, family, domain)? {
        Expanded::Out(text) => text,
        Expanded::Needs(need) => return Ok(Some(Expanded::Needs(need))),
    };
    let mut suffix = Bytes::new(alloc);
    suffix.extend_from_slice(without_final_dot(text.as_slice()))?;
    Ok(Some(Expanded::Out(suffix)))
}
