//! Macro letters.
ghost use Rattle.std.specs.Prelude.{◌≡◌, ◌≢◌, Bool, MatchOption};
ghost use Rattle.spf_macros.specs.declared.piece.Letter.{Letter};
ghost use Rattle.spf_macros.specs.Grammar.{letter_code, letter_byte};

use crate::Letter;

/// The letter that a byte in lower case is.
fn letter_in_lower(byte: u8) -> Option<Letter>
    ensures { MatchOption result ((l : Letter) → letter_code l ≢ byte) (λ l. letter_code l ≡ byte) }
{
    match byte {
        b's' => Some(Letter::S),
        b'l' => Some(Letter::L),
        b'o' => Some(Letter::O),
        b'd' => Some(Letter::D),
        b'i' => Some(Letter::I),
        b'p' => Some(Letter::P),
        b'h' => Some(Letter::H),
        b'v' => Some(Letter::V),
        b'c' => Some(Letter::C),
        b'r' => Some(Letter::R),
        b't' => Some(Letter::T),
        _ => None,
    }
}

/// The letter that a byte is, and whether it is in upper case (RFC 7208, section 7.1).
pub(crate) fn read_letter(byte: u8) -> Option<(Letter, bool)>
    ensures { MatchOption result ((l : Letter) (upper : Bool) → letter_byte l upper ≢ byte)
        (λ read. letter_byte read.0 read.1 ≡ byte) }
{
    let letter = letter_in_lower(byte.to_ascii_lowercase())?;
    Some((letter, byte.is_ascii_uppercase()))
}
