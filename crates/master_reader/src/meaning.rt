//! What an entry asks for.
ghost use Rattle.std.specs.Prelude.{◌≡◌, ℕ, List, true, false, Ok, Err, MatchResult, option_copied};
ghost use Rattle.std.specs.Char.{is_ascii_alphabetic};
ghost use Rattle.std.specs.List.{list_all};
ghost use Rattle.master_lex.specs.declared.entry.Octet.{Octet};
ghost use Rattle.master_reader.specs.Entry as entries;
ghost use Rattle.master_reader.specs.Asks.{ask_in};

use crate::data::{only_name, only_token};
use crate::fault::Kind;
use crate::names::name_in;
use crate::ttl::is_ttl;
use crate::words::{is_bare, is_numbered_word, is_unescaped, is_word, number_of};
use dns_name::Name;
use master_lex::{Entry, Octet, Token};

/// What an entry asks for: a record of an owner, with the token of its type and those of its data; another origin; or
/// nothing.
#[derive(Drop, Debug)]
pub(crate) enum Ask<'a> {
    Record {
        owner: Name,
        kind: &'a Token,
        content: &'a [Token],
    },
    Origin(Name),
    Nothing,
}

/// Whether a token is plain and begins with a `$` that has no `\`.
fn is_dollar_word(token: &Token) -> bool
    ensures { result ≡ entries.is_dollar_word token.now }
{
    !token.quoted && matches!(token.units.as_slice(), [first, ..] if is_unescaped(*first, b'$'))
}

/// Whether a token is a TTL.
fn says_ttl(token: &Token) -> bool
    ensures { result ≡ entries.says_ttl token.now }
{
    is_bare(token) && is_ttl(token.units.as_slice())
}

/// Refuses what `$TTL` may not have behind it (RFC 2308, section 4).
fn check_ttl(operands: &[Token]) -> Result<(), Kind>
    ensures { MatchResult result (λ _. entries.ttl_ask operands.now ≡ Ok entries.no_record)
        (λ kind. entries.ttl_ask operands.now ≡ Err kind) }
{
    if says_ttl(only_token(operands)?) {
        Ok(())
    } else {
        Err(Kind::BadTtl)
    }
}

/// What a directive asks for.
fn directive_ask<'a>(origin: &Name, word: &Token, operands: &[Token]) -> Result<Ask<'a>, Kind>
    ensures { MatchResult result (λ ask. entries.directive_ask origin.now word.now operands.now ≡ Ok (ask_in ask))
        (λ kind. entries.directive_ask origin.now word.now operands.now ≡ Err kind) }
{
    if is_word(word, b"$origin") {
        Ok(Ask::Origin(only_name(origin, operands)?))
    } else if is_word(word, b"$ttl") {
        check_ttl(operands)?;
        Ok(Ask::Nothing)
    } else if is_word(word, b"$include") {
        Err(Kind::Include)
    } else {
        Err(Kind::UnknownDirective)
    }
}

/// Whether a token stands in the place of a TTL: it begins with a digit.
fn is_ttl_place(token: &Token) -> bool
    ensures { result ≡ entries.is_ttl_place token.now }
{
    is_bare(token) && matches!(token.units.as_slice(), [first, ..] if first.byte.is_ascii_digit())
}

/// Whether a token is the class of the Internet (RFC 1035, section 3.2.4).
fn is_internet(token: &Token) -> bool
    ensures { result ≡ entries.is_internet token.now }
{
    is_bare(token) && is_word(token, b"in")
}

/// Whether a token is another class (RFC 1035, section 3.2.4; RFC 3597, section 5).
fn is_other_class(token: &Token) -> bool
    ensures { result ≡ entries.is_other_class token.now }
{
    is_bare(token)
        && (is_word(token, b"cs")
            || is_word(token, b"ch")
            || is_word(token, b"hs")
            || is_numbered_word(token, b"class"))
}

/// The tokens behind a TTL and a class, each at most once and in either order (RFC 1035, section 5.1).
fn behind_ttl_and_class(tokens: &[Token]) -> Result<&[Token], Kind>
    ensures { MatchResult result (λ behind. entries.behind_ttl_and_class false false tokens.now ≡ Ok behind.now)
        (λ kind. entries.behind_ttl_and_class false false tokens.now ≡ Err kind) }
{
    let mut has_ttl = false;
    let mut has_class = false;
    let mut rest = tokens;
    while let [token, behind @ ..] = rest {
        if is_ttl_place(token) {
            if has_ttl || !is_ttl(token.units.as_slice()) {
                return Err(Kind::BadTtl);
            }
            has_ttl = true;
        } else if is_internet(token) && !has_class {
            has_class = true;
        } else if is_internet(token) || is_other_class(token) {
            return Err(Kind::Class);
        } else {
            return Ok(rest);
        }
        rest = behind;
    }
    Ok(rest)
}

/// Whether all octets are letters, digits and hyphens.
fn are_type_bytes(units: &[Octet]) -> bool
    ensures { result ≡ list_all (λ (o : Octet). entries.is_type_byte o.byte) units.now }
{
    units.iter().all(|octet| octet.byte.is_ascii_alphanumeric() || octet.byte == b'-')
}

/// Whether the first octet is a letter.
fn begins_with_letter(units: &[Octet]) -> bool
    ensures { result ≡ entries.first_passes (λ (o : Octet). is_ascii_alphabetic o.byte) units.now }
{
    matches!(units, [first, ..] if first.byte.is_ascii_alphabetic())
}

/// Whether a token is a type.
fn is_type(token: &Token) -> bool
    ensures { result ≡ entries.is_type token.now }
{
    let units = token.units.as_slice();
    is_bare(token) && begins_with_letter(units) && are_type_bytes(units)
}

/// Whether a token is the number of a type that is read, or of DNAME (RFC 3597, section 5).
fn is_number_of_type(token: &Token) -> bool
    ensures { result ≡ entries.is_number_of_type token.now }
{
    is_numbered_word(token, b"type")
        && [1, 2, 5, 15, 16, 28, 39].contains(&number_of(&token.units.as_slice()[4..]))
}

/// Whether a token is a type that is read.
fn is_read(token: &Token) -> bool
    ensures { result ≡ entries.is_read token.now }
{
    is_word(token, b"a")
        || is_word(token, b"aaaa")
        || is_word(token, b"mx")
        || is_word(token, b"txt")
        || is_word(token, b"cname")
        || is_word(token, b"ns")
}

/// Whether data have the form of RFC 3597, section 5, which begins with an escaped `#`.
fn is_generic(content: &[Token]) -> bool
    ensures { result ≡ entries.is_generic content.now }
{
    let [first, ..] = content else {
        return false;
    };
    !first.quoted
        && matches!(first.units.as_slice(), [octet] if octet.escaped && octet.byte == b'#')
}

/// Splits a type from its data.
fn split_type(tokens: &[Token]) -> Result<(&Token, &[Token]), Kind>
    ensures { (owner : List (List ℕ)) → MatchResult result
        (λ p. entries.typed_ask owner tokens.now ≡ Ok (entries.a_record owner p.0.now p.1.now))
        (λ kind. entries.typed_ask owner tokens.now ≡ Err kind) }
{
    let [kind, content @ ..] = tokens else {
        return Err(Kind::NoType);
    };
    if !is_type(kind) {
        Err(Kind::NoType)
    } else if is_word(kind, b"dname") {
        Err(Kind::Dname)
    } else if is_number_of_type(kind) || (is_read(kind) && is_generic(content)) {
        Err(Kind::TypeNumber)
    } else {
        Ok((kind, content))
    }
}

/// The record of an owner that tokens ask for.
fn record_ask<'a>(owner: Name, tokens: &'a [Token]) -> Result<Ask<'a>, Kind>
    ensures { MatchResult result (λ ask. entries.record_ask owner tokens.now ≡ Ok (ask_in ask))
        (λ kind. entries.record_ask owner tokens.now ≡ Err kind) }
{
    let (kind, content) = split_type(behind_ttl_and_class(tokens)?)?;
    Ok(Ask::Record {
        owner,
        kind,
        content,
    })
}

/// What an entry asks for under an origin and a last owner (RFC 1035, section 5.1), or its fault.
pub(crate) fn ask_of<'a>(
    origin: &Name,
    owner: Option<&Name>,
    entry: &'a Entry,
) -> Result<Ask<'a>, Kind>
    ensures { MatchResult result
        (λ ask. entries.ask_of (record { origin = origin.now; owner = option_copied owner.entry }) entry.now ≡ Ok
        (ask_in ask))
        (λ kind. entries.ask_of (record { origin = origin.now; owner = option_copied owner.entry }) entry.now
        ≡ Err kind) }
{
    let tokens = entry.tokens.as_slice();
    if entry.blank {
        let owner = owner.ok_or(Kind::NoOwner)?;
        return record_ask(owner.clone().unwrap(), tokens);
    }
    let [first, behind @ ..] = tokens else {
        return Ok(Ask::Nothing);
    };
    if is_dollar_word(first) {
        return directive_ask(origin, first, behind);
    }
    record_ask(name_in(origin, first)?, behind)
}
