//! Texts that name a domain, as plain text or by macros.
ghost use Rattle.std.specs.Prelude.{◌≡◌, ◌&&◌, ◌||◌, ◌==◌, IfOk, MatchBool, length, nat_le};
ghost use Rattle.std.specs.List.{list_all, slice_split};
ghost use Rattle.spf_macros.specs.Expansion as expansion;
ghost use Rattle.spf_macros.specs.Grammar.{SpellsMacroText, SpellsDomainSpec};
ghost use Rattle.spf_macros.specs.Grammar as grammar;
ghost use Rattle.spf_macros.specs.Reading.{Reads, EndsInExpand};
ghost use Rattle.spf_macros.specs.Words as words;

use crate::read::read_macro_text;
use crate::toplabel::is_toplabel;
use crate::words::{label_count, last_label};
use crate::{Letter, MacroText, Piece};
use std::alloc::{AllocError, Global};

/// The text without one final dot.
pub(crate) fn without_final_dot(text: &[u8]) -> &[u8]
    ensures { result.now ≡ expansion.without_final_dot text.now }
{
    let Some((last, front)) = text.split_last() else {
        return text;
    };
    if *last == b'.' { front } else { text }
}

/// Whether the text ends in a dot and a toplabel, or in these and a dot.
fn ends_in_toplabel(text: &[u8]) -> bool
    ensures { let labels = slice_split (λ b. b == 46) (expansion.without_final_dot text.now)
        in result ≡ (nat_le 2 (length labels) && grammar.is_toplabel (words.last_label labels)) }
{
    let host = without_final_dot(text);
    label_count(host) >= 2 && is_toplabel(last_label(host))
}

/// A piece that begins with `%`.
fn is_expand(piece: Piece) -> bool
    ensures { result ≡ grammar.is_expand piece }
{
    !matches!(piece, Piece::Literal(_))
}

fn ends_in_expand(pieces: &[Piece]) -> bool
    ensures { MatchBool result (EndsInExpand pieces.now) (¬ EndsInExpand pieces.now) }
{
    match pieces.split_last() {
        Some((piece, _)) => is_expand(*piece),
        None => false,
    }
}

/// The letters c, r and t stand in explanations alone (RFC 7208, section 7.2).
fn is_explaining(letter: Letter) -> bool
    ensures { result ≡ grammar.is_explaining letter }
{
    matches!(letter, Letter::C | Letter::R | Letter::T)
}

fn is_for_all(piece: Piece) -> bool
    ensures { result ≡ grammar.is_for_all piece }
{
    match piece {
        Piece::Expand(read) => !is_explaining(read.letter),
        _ => true,
    }
}

/// Whether the pieces may stand in any text: they have no letter c, r or t, which stand in explanations alone
/// (RFC 7208, section 7.2).
pub fn are_for_all(pieces: &[Piece]) -> bool
    ensures { result ≡ list_all grammar.is_for_all pieces.now }
{
    pieces.iter().all(|piece| is_for_all(*piece))
}

fn are_allowed(pieces: &[Piece], explain: bool) -> bool
    ensures { result ≡ (explain || list_all grammar.is_for_all pieces.now) }
{
    explain || are_for_all(pieces)
}

/// Whether the text, which spells the pieces, is a domain-spec.
fn is_domain_spec(text: &[u8], pieces: &[Piece], explain: bool) -> bool
    requires { SpellsMacroText text.now pieces.now }
    ensures { MatchBool result (SpellsDomainSpec explain text.now pieces.now)
        (¬ SpellsDomainSpec explain text.now pieces.now) }
{
    if !are_allowed(pieces, explain) {
        return false;
    }
    if ends_in_expand(pieces) {
        return true;
    }
    ends_in_toplabel(text)
}

/// The macro text of a domain-spec (RFC 7208, section 7.1), which ends in a dot and a toplabel or in
/// a macro; `None` exactly where the text is none, or has the letters c, r or t and is no
/// explanation. `AllocError` where there is no memory.
pub fn read_domain_spec(
    alloc: Global,
    text: &[u8],
    explain: bool,
) -> Result<Option<MacroText>, AllocError>
    ensures { IfOk result (Reads (SpellsDomainSpec explain) text.now) }
{
    let Some(pieces) = read_macro_text(alloc, text)? else {
        return Ok(None);
    };
    if is_domain_spec(text, pieces.as_slice(), explain) {
        Ok(Some(pieces))
    } else {
        Ok(None)
    }
}
