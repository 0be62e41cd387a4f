//! Reading macro texts.
ghost use Rattle.std.specs.Prelude.{◌≡◌, ◌≢◌, ℕ, List, ◌∷◌, MatchOption, IfOk};
ghost use Rattle.spf_macros.specs.Grammar.{SpellsPiece, SpellsMacroText};
ghost use Rattle.spf_macros.specs.Grammar as grammar;
ghost use Rattle.spf_macros.specs.Reading.{Reads, ReadsFirst, SpellsBehind};

use crate::letter::read_letter;
use crate::transformers::{delimiter_set, read_keep, read_reverse, split_delimiters, split_digits};
use crate::{Macro, MacroText, Piece};
use std::alloc::{AllocError, Global};

/// What stands behind the `}` that a text begins with.
fn read_close(text: &[u8]) -> Option<&[u8]>
    ensures { MatchOption result ((rest : List ℕ) → text.now ≢ 125 ∷ rest) (λ rest. text.now ≡ 125 ∷ rest.now) }
{
    match text.split_first() {
        Some((first, rest)) if *first == b'}' => Some(rest),
        _ => None,
    }
}

/// The macro that a text begins with, without the macro's first two bytes, and the rest.
fn read_macro(text: &[u8]) -> Option<(Macro, &[u8])>
    ensures { ReadsFirst SpellsBehind text.now result }
{
    let (first, rest) = text.split_first()?;
    let (letter, upper) = read_letter(*first)?;
    let (digits, rest) = split_digits(rest);
    let keep = read_keep(digits)?;
    let (reverse, rest) = read_reverse(rest);
    let (delimiters, rest) = split_delimiters(rest);
    let rest = read_close(rest)?;
    let delims = delimiter_set(delimiters);
    let read = Macro {
        letter,
        upper,
        keep,
        reverse,
        delims,
    };
    Some((read, rest))
}

/// A visible byte other than `%`.
fn is_literal(byte: u8) -> bool
    ensures { result ≡ grammar.is_literal byte }
{
    33 <= byte && byte <= 126 && byte != b'%'
}

/// The piece that a text begins with, and the rest.
fn read_piece(text: &[u8]) -> Option<(Piece, &[u8])>
    ensures { ReadsFirst SpellsPiece text.now result }
{
    match text {
        [b'%', b'%', rest @ ..] => Some((Piece::Percent, rest)),
        [b'%', b'_', rest @ ..] => Some((Piece::Space, rest)),
        [b'%', b'-', rest @ ..] => Some((Piece::Percent20, rest)),
        [b'%', b'{', rest @ ..] => {
            let (read, rest) = read_macro(rest)?;
            Some((Piece::Expand(read), rest))
        }
        [byte, rest @ ..] if is_literal(*byte) => Some((Piece::Literal(*byte), rest)),
        _ => None,
    }
}

/// The macro text that a text spells (RFC 7208, section 7.1); `None` exactly where it spells none.
/// `AllocError` where there is no memory.
pub fn read_macro_text(alloc: Global, text: &[u8]) -> Result<Option<MacroText>, AllocError>
    ensures { IfOk result (Reads SpellsMacroText text.now) }
{
    let mut pieces = MacroText::new(alloc);
    let mut rest = text;
    while !rest.is_empty() {
        let Some((piece, behind)) = read_piece(rest) else {
            return Ok(None);
        };
        pieces.push(piece)?;
        rest = behind;
    }
    Ok(Some(pieces))
}
