//! What a token says: its bytes, words and numbers.
ghost use Rattle.std.specs.Prelude.{◌≡◌, ◌^◌, min, IsTrue, IfOk, bytes_eq};
ghost use Rattle.std.specs.List.{list_any, list_all};
ghost use Rattle.std.specs.Char.{is_ascii_digit};
ghost use Rattle.std.specs.Str.{str_to_ascii_lowercase};
ghost use Rattle.std.specs.Str.Parse.{digits_value};
ghost use Rattle.master_lex.specs.declared.entry.Octet.{Octet};
ghost use Rattle.master_reader.specs.Tokens as tokens;

use addr_bits::Bytes;
use master_lex::{Octet, Token};
use std::alloc::{AllocError, Global};

/// A number that is larger than each that a token may say.
pub(crate) const TOO_LARGE: u64 = 4_294_967_296;

/// The bytes of a token.
pub(crate) fn bytes_of(alloc: Global, token: &Token) -> Result<Bytes, AllocError>
    ensures { IfOk result (λ bytes. bytes ≡ tokens.bytes_of token.now) }
{
    let mut bytes = Bytes::new(alloc);
    for octet in token.units.as_slice() {
        bytes.push(octet.byte)?;
    }
    Ok(bytes)
}

fn has_escape(units: &[Octet]) -> bool
    ensures { result ≡ list_any (λ (o : Octet). o.escaped) units.now }
{
    units.iter().any(|octet| octet.escaped)
}

/// Whether a token is plain and without escapes.
pub(crate) fn is_bare(token: &Token) -> bool
    ensures { result ≡ tokens.is_bare token.now }
{
    !token.quoted && !has_escape(token.units.as_slice())
}

/// Whether an octet is this byte without a `\`.
pub(crate) fn is_unescaped(octet: Octet, byte: u8) -> bool
    ensures { result ≡ tokens.is_unescaped byte octet }
{
    !octet.escaped && octet.byte == byte
}

/// Whether octets are one alone, which is this byte without a `\`.
pub(crate) fn is_one_unescaped(units: &[Octet], byte: u8) -> bool
    ensures { result ≡ tokens.is_one (tokens.is_unescaped byte) units.now }
{
    matches!(units, [octet] if is_unescaped(*octet, byte))
}

/// Whether octets are the word, which is in lower case, without regard to case.
fn spells(units: &[Octet], word: &[u8]) -> bool
    ensures { result ≡ bytes_eq (str_to_ascii_lowercase (tokens.bytes_in units.now)) word.now }
{
    if units.len() != word.len() {
        return false;
    }
    for (place, octet) in units.iter().enumerate() {
        if octet.byte.to_ascii_lowercase() != word[place] {
            return false;
        }
    }
    true
}

/// Whether a token is the word, which is in lower case, without regard to case (RFC 1035, section 2.3.3).
pub(crate) fn is_word(token: &Token, word: &[u8]) -> bool
    ensures { result ≡ tokens.is_word token.now word.now }
{
    spells(token.units.as_slice(), word)
}

fn all_digits(units: &[Octet]) -> bool
    ensures { result ≡ list_all (λ (o : Octet). is_ascii_digit o.byte) units.now }
{
    units.iter().all(|octet| octet.byte.is_ascii_digit())
}

/// Whether octets are one or more decimal digits.
pub(crate) fn are_digits(units: &[Octet]) -> bool
    ensures { result ≡ tokens.are_digits (tokens.bytes_in units.now) }
{
    !units.is_empty() && all_digits(units)
}

/// Whether a token is the word, which is in lower case, without regard to case, and then digits (RFC 3597, section 5).
pub(crate) fn is_numbered_word(token: &Token, word: &[u8]) -> bool
    ensures { result ≡ tokens.is_numbered_word token.now word.now }
{
    let units = token.units.as_slice();
    if units.len() < word.len() {
        return false;
    }
    let (front, behind) = units.split_at(word.len());
    spells(front, word) && are_digits(behind)
}

/// The number that decimal digits make, or `TOO_LARGE` where it is larger.
pub(crate) fn number_of(digits: &[Octet]) -> u64
    requires { IsTrue (tokens.are_digits (tokens.bytes_in digits.now)) }
    ensures { result ≡ min (digits_value 10 (tokens.bytes_in digits.now)) (2 ^ 32) }
{
    let mut number: u64 = 0;
    for digit in digits {
        number = TOO_LARGE.min(10 * number + u64::from(digit.byte - b'0'));
    }
    number
}
