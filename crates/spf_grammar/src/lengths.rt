//! The lengths of networks.
ghost use Rattle.std.specs.Prelude.{◌≡◌, ◌↔◌, decimal, IsTrue};
ghost use Rattle.std.specs.List.{list_all};
ghost use Rattle.std.specs.Char.{is_ascii_digit};
ghost use Rattle.spf_macros.specs.Reading.{Reads};
ghost use Rattle.spf_grammar.specs.Grammar.{SpellsLen};
ghost use Rattle.spf_grammar.specs.Reading.{SpellsNumber, SpellsDual, SplitsDual};

use crate::bytes::behind;
use itoa::Buffer;
use spf_macros::{digit_count, held_number};

fn are_digits(text: &[u8]) -> bool
    ensures { result ≡ list_all is_ascii_digit text.now }
{
    text.iter().all(|byte| byte.is_ascii_digit())
}

/// Whether the text is the number in decimal digits.
fn is_written(text: &[u8], number: u8) -> bool
    ensures { IsTrue result ↔ (text.now ≡ decimal number) }
{
    let mut buffer = Buffer::new();
    buffer.format(number).as_bytes() == text
}

/// The number of a text of decimal digits without leading zeros, up to the largest.
fn read_number(text: &[u8], most: u8) -> Option<u8>
    ensures { Reads (SpellsNumber most) text.now result }
{
    if !are_digits(text) {
        return None;
    }
    let number = held_number(text);
    if number <= most && is_written(text, number) {
        Some(number)
    } else {
        None
    }
}

/// A length behind its slashes, or the longest where nothing is written (RFC 7208, section 12).
pub(crate) fn read_len(text: &[u8], slash: &[u8], most: u8) -> Option<u8>
    ensures { Reads (SpellsLen slash.now most) text.now result }
{
    if text.is_empty() {
        return Some(most);
    }
    let digits = text.strip_prefix(slash)?;
    read_number(digits, most)
}

/// The part of two lengths that stands behind one slash, and the rest.
fn split_dual(lens: &[u8]) -> (&[u8], &[u8])
    ensures { SplitsDual lens.now result.0.now result.1.now }
{
    let Some(rest) = behind(lens, b'/') else {
        return lens.split_at(0);
    };
    match behind(rest, b'/') {
        Some(_) => lens.split_at(0),
        None => lens.split_at(1 + digit_count(rest)),
    }
}

/// The lengths for IPv4 and IPv6 of an `a` or `mx` term (RFC 7208, section 5.6).
pub(crate) fn read_dual(lens: &[u8]) -> Option<(u8, u8)>
    ensures { Reads SpellsDual lens.now result }
{
    let (after4, after6) = split_dual(lens);
    let len4 = read_len(after4, b"/", 32)?;
    let len6 = read_len(after6, b"//", 128)?;
    Some((len4, len6))
}
