//! The names that domain-specs ask for (RFC 7208, section 7.3).
ghost use Rattle.std.specs.Prelude.{◌≡◌, [], ◌∷◌, ◌<◌, length, IfOk, IsTrue, MatchOption};
ghost use Rattle.std.specs.List.{list_all};
ghost use Rattle.spf_macros.specs.Grammar.{is_for_all};
ghost use Rattle.spf_macros.specs.Expansion as expansion;

use crate::MacroText;
use crate::domain::without_final_dot;
use crate::expansion::{Expanded, expand};
use crate::words::MAX_NAME_TEXT;
use addr_bits::{Bytes, Family};
use std::alloc::{AllocError, Global};

/// What stands behind the first dot; `None` exactly where there is no dot.
fn behind_dot(text: &[u8]) -> Option<&[u8]>
    ensures { MatchOption result (expansion.after_dots text.now ≡ [])
        (λ rest. (expansion.after_dots text.now ≡ rest.now ∷ expansion.after_dots rest.now)
        × (length rest.now < length text.now)) }
{
    let mut rest = text;
    while let [byte, behind @ ..] = rest {
        if *byte == b'.' {
            return Some(behind);
        }
        rest = behind;
    }
    None
}

/// The text without its first labels while it is too long and has a dot.
fn cut_to_fit(text: &[u8]) -> &[u8]
    ensures { result.now ≡ expansion.cut_to_fit text.now }
{
    let mut rest = text;
    while rest.len() > MAX_NAME_TEXT {
        let Some(behind) = behind_dot(rest) else {
            return rest;
        };
        rest = behind;
    }
    rest
}

/// The text that a domain-spec asks for (RFC 7208, section 7.3): its expansion without one final dot, which loses its
/// first label and the dot after it while it has more than 253 characters and a dot; or what the first macro needs
/// that needs more than the family and the domain. The letters c, r and t must not be there: `are_for_all` tests it.
/// `AllocError` where there is no memory.
pub fn target(
    alloc: Global,
    pieces: &MacroText,
    family: Family,
    domain: &[u8],
) -> Result<Expanded, AllocError>
    requires { IsTrue (list_all is_for_all pieces.now) }
    ensures { IfOk result (λ target. target ≡ expansion.target family domain.now pieces.now) }
{
    let text = match expand(alloc, pieces, family, domain)? {
        Expanded::Out(text) => text,
        Expanded::Needs(need) => return Ok(Expanded::Needs(need)),
    };
    let mut out = Bytes::new(alloc);
    out.extend_from_slice(cut_to_fit(without_final_dot(text.as_slice())))?;
    Ok(Expanded::Out(out))
}
