//! The bodies of records.
ghost use Rattle.std.specs.Prelude.{◌≡◌, None, Some, Ok, Err, IfOk, false, true, map, MatchResult, MatchOption};
ghost use Rattle.std.specs.Str.Parse.{digits_value};
ghost use Rattle.addr_bits.specs.Address.{address_of};
ghost use Rattle.master_reader.specs.declared.record.Body.TheVariants as bodies;
ghost use Rattle.master_reader.specs.Tokens as tokens;
ghost use Rattle.master_reader.specs.Entry as entries;
ghost use Rattle.master_reader.specs.Data.{only_bare, address_body, IsAddressBody, IsBody, is_preference, is_long_text};
ghost use Rattle.master_reader.specs.Data.{mx_body, txt_body, other_body};
ghost use Rattle.master_reader.specs.Refusals.{RefusalIs};

use crate::fault::{Kind, Refusal};
use crate::names::name_in;
use crate::record::{Body, Text};
use crate::words::{are_digits, bytes_of, is_bare, is_word, number_of};
use addr_bits::AddressFamily;
use dns_name::Name;
use master_lex::Token;
use std::alloc::{AllocError, Global};

/// The most octets of a string (RFC 1035, section 3.3).
pub const MAX_STRING: usize = 255;

/// The most octets of the strings of a TXT record, each with a length octet (RFC 1035, section 3.2.1).
pub const MAX_TEXT: usize = 65_535;

/// The token, where there is one alone.
pub(crate) fn only_token(tokens: &[Token]) -> Result<&Token, Kind>
    ensures { MatchResult result (λ token. entries.only_token tokens.now ≡ Ok token.now)
        (λ kind. entries.only_token tokens.now ≡ Err kind) }
{
    match tokens {
        [token] => Ok(token),
        _ => Err(Kind::BadData),
    }
}

/// The one plain token without escapes.
fn only_bare(tokens: &[Token]) -> Option<&Token>
    ensures { MatchOption result (only_bare tokens.now ≡ None) (λ token. only_bare tokens.now ≡ Some token.now) }
{
    match tokens {
        [token] if is_bare(token) => Some(token),
        _ => None,
    }
}

/// The number of an address (RFC 1035, section 3.4.1, and RFC 3596, section 2.2).
fn number_of_address<W: AddressFamily>(alloc: Global, content: &[Token]) -> Result<W, Refusal>
    ensures { MatchResult result (λ a. IsAddressBody W.family content.now
        (Ok (address_body (address_of W.family (W.number a)))))
        (RefusalIs (λ kind. IsAddressBody W.family content.now (Err kind))) }
{
    let Some(token) = only_bare(content) else {
        return Err(Refusal::Faulty(Kind::BadData));
    };
    let text = bytes_of(alloc, token)?;
    match W::read(text.as_slice()) {
        Ok(number) => Ok(number),
        Err(_) => Err(Refusal::Faulty(Kind::BadData)),
    }
}

/// The name, where there is one token alone.
pub(crate) fn only_name(origin: &Name, content: &[Token]) -> Result<Name, Kind>
    ensures { result ≡ entries.only_name origin.now content.now }
{
    name_in(origin, only_token(content)?)
}

/// A preference: a number of 16 bits.
fn preference_of(token: &Token) -> Option<u16>
    ensures { MatchOption result (is_preference token.now ≡ false)
        (λ number. (is_preference token.now ≡ true) × (number ≡ digits_value 10 (tokens.bytes_of token.now))) }
{
    let units = token.units.as_slice();
    if !is_bare(token) || !are_digits(units) {
        return None;
    }
    u16::try_from(number_of(units)).ok()
}

/// A mail exchange (RFC 1035, section 3.3.9).
fn exchange_of(origin: &Name, content: &[Token]) -> Result<Body, Kind>
    ensures { result ≡ mx_body origin.now content.now }
{
    let [preference, exchange] = content else {
        return Err(Kind::BadData);
    };
    let Some(preference) = preference_of(preference) else {
        return Err(Kind::BadData);
    };
    Ok(Body::Mx(preference, name_in(origin, exchange)?))
}

/// Whether strings are too long, one of them or all.
fn is_long_text(content: &[Token]) -> bool
    ensures { result ≡ is_long_text (map tokens.bytes_of content.now) }
{
    let mut octets: usize = 0;
    for token in content {
        let len = token.units.len();
        if len > MAX_STRING || octets + len + 1 > MAX_TEXT {
            return true;
        }
        octets += len + 1;
    }
    false
}

/// The strings of tokens.
fn strings_of(alloc: Global, content: &[Token]) -> Result<Text, AllocError>
    ensures { IfOk result (λ text. text ≡ map tokens.bytes_of content.now) }
{
    let mut text = Text::new(alloc);
    for token in content {
        text.push(bytes_of(alloc, token)?)?;
    }
    Ok(text)
}

/// A text (RFC 1035, section 3.3.14).
fn text_of(alloc: Global, content: &[Token]) -> Result<Text, Refusal>
    ensures { MatchResult result (λ text. txt_body content.now ≡ Ok (bodies.Txt text))
        (RefusalIs (λ kind. txt_body content.now ≡ Err kind)) }
{
    if content.is_empty() {
        return Err(Refusal::Faulty(Kind::BadData));
    }
    if is_long_text(content) {
        return Err(Refusal::Faulty(Kind::LongText));
    }
    Ok(strings_of(alloc, content)?)
}

/// The body of a record of a type that has no address.
fn other_body_of(
    alloc: Global,
    origin: &Name,
    kind: &Token,
    content: &[Token],
) -> Result<Body, Refusal>
    ensures { MatchResult result (λ body. other_body origin.now kind.now content.now ≡ Ok body)
        (RefusalIs (λ fault. other_body origin.now kind.now content.now ≡ Err fault)) }
{
    if is_word(kind, b"cname") {
        Ok(Body::Cname(only_name(origin, content)?))
    } else if is_word(kind, b"ns") {
        Ok(Body::Ns(only_name(origin, content)?))
    } else if is_word(kind, b"mx") {
        Ok(exchange_of(origin, content)?)
    } else if is_word(kind, b"txt") {
        Ok(Body::Txt(text_of(alloc, content)?))
    } else {
        Ok(Body::Other)
    }
}

/// The body that the content of a record of this type stands for (RFC 1035, section 3.3; RFC 3596, section 2.1), or its
/// fault.
pub(crate) fn body_of(
    alloc: Global,
    origin: &Name,
    kind: &Token,
    content: &[Token],
) -> Result<Body, Refusal>
    ensures { MatchResult result (λ body. IsBody origin.now kind.now content.now (Ok body))
        (RefusalIs (λ fault. IsBody origin.now kind.now content.now (Err fault))) }
{
    if is_word(kind, b"a") {
        Ok(Body::A(number_of_address(alloc, content)?))
    } else if is_word(kind, b"aaaa") {
        Ok(Body::Aaaa(number_of_address(alloc, content)?))
    } else {
        other_body_of(alloc, origin, kind, content)
    }
}
