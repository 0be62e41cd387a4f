//! Reading terms: directives and modifiers.
ghost use Rattle.std.specs.Prelude.{◌≡◌, IsTrue, IfOk, codes};
ghost use Rattle.std.specs.List.{list_all, prefix_len};
ghost use Rattle.std.specs.Str.{str_to_ascii_lowercase};
ghost use Rattle.spf_macros.specs.Reading.{Reads, IsSpan};
ghost use Rattle.spf_grammar.specs.Grammar.{SaysWord, SpellsQualifier, SpellsTerm};
ghost use Rattle.spf_grammar.specs.Grammar as grammar;
ghost use Rattle.spf_grammar.specs.Reading.{IsMark, SplitsMark, SpellsModifier, SpellsDirective};
ghost use Rattle.spf_grammar.specs.Reading as reading;

use crate::bytes::behind;
use crate::keywords::read_keyword;
use crate::mechanisms::read_mechanism;
use crate::{Term, Verdict};
use addr_bits::Bytes;
use spf_macros::{read_domain_spec, read_macro_text};
use std::alloc::{AllocError, Global};

fn is_mark(byte: u8) -> bool
    ensures { result ≡ reading.is_mark byte }
{
    matches!(byte, b'+' | b'-' | b'~' | b'?')
}

/// The qualifier that a term begins with, and the rest.
fn split_mark(text: &[u8]) -> (&[u8], &[u8])
    ensures { SplitsMark text.now result.0.now result.1.now }
{
    match text {
        [first, ..] if is_mark(*first) => text.split_at(1),
        _ => text.split_at(0),
    }
}

/// The verdict of a qualifier (RFC 7208, section 4.6.2).
fn verdict_of(mark: &[u8]) -> Verdict
    requires { IsMark mark.now }
    ensures { SpellsQualifier mark.now result }
{
    match mark {
        [b'-'] => Verdict::Fail,
        [b'~'] => Verdict::SoftFail,
        [b'?'] => Verdict::Neutral,
        _ => Verdict::Pass,
    }
}

fn is_name_byte(byte: u8) -> bool
    ensures { result ≡ grammar.is_name_byte byte }
{
    byte.is_ascii_alphabetic() || byte.is_ascii_digit() || matches!(byte, b'-' | b'_' | b'.')
}

fn name_len(text: &[u8]) -> usize
    ensures { result ≡ prefix_len grammar.is_name_byte text.now }
{
    text.iter().take_while(|byte| is_name_byte(**byte)).count()
}

/// The bytes of a name that the text begins with, and the rest.
fn split_name(text: &[u8]) -> (&[u8], &[u8])
    ensures { IsSpan grammar.is_name_byte text.now result.0.now result.1.now }
{
    text.split_at(name_len(text))
}

/// Whether bytes of a name are one: it begins with a letter.
fn is_name(text: &[u8]) -> bool
    requires { IsTrue (list_all grammar.is_name_byte text.now) }
    ensures { result ≡ grammar.is_name text.now }
{
    text.first().is_some_and(|byte| byte.is_ascii_alphabetic())
}

/// The text in lower case.
fn in_lower_case(alloc: Global, text: &[u8]) -> Result<Bytes, AllocError>
    ensures { IfOk result (λ lower. lower ≡ str_to_ascii_lowercase text.now) }
{
    let mut lower = Bytes::new(alloc);
    lower.extend_from_slice(&text.to_ascii_lowercase(alloc)?)?;
    Ok(lower)
}

/// The value of `redirect` (RFC 7208, section 6.1).
fn read_redirect(alloc: Global, name: &[u8], value: &[u8]) -> Result<Option<Term>, AllocError>
    requires { SaysWord name.now (codes "redirect") }
    ensures { IfOk result (Reads (SpellsModifier name.now) value.now) }
{
    let Some(spec) = read_domain_spec(alloc, value, false)? else {
        return Ok(None);
    };
    Ok(Some(Term::Redirect(spec)))
}

/// The value of `exp` (RFC 7208, section 6.2).
fn read_exp(alloc: Global, name: &[u8], value: &[u8]) -> Result<Option<Term>, AllocError>
    requires { SaysWord name.now (codes "exp") }
    ensures { IfOk result (Reads (SpellsModifier name.now) value.now) }
{
    let Some(spec) = read_domain_spec(alloc, value, true)? else {
        return Ok(None);
    };
    Ok(Some(Term::Exp(spec)))
}

/// The value of another modifier (RFC 7208, section 6).
fn read_unknown(alloc: Global, name: &[u8], value: &[u8]) -> Result<Option<Term>, AllocError>
    requires bytes { IsTrue (list_all grammar.is_name_byte name.now) }
    requires no_redirect { ¬ SaysWord name.now (codes "redirect") }
    requires no_exp { ¬ SaysWord name.now (codes "exp") }
    ensures { IfOk result (Reads (SpellsModifier name.now) value.now) }
{
    if !is_name(name) {
        return Ok(None);
    }
    let Some(pieces) = read_macro_text(alloc, value)? else {
        return Ok(None);
    };
    let name = in_lower_case(alloc, name)?;
    Ok(Some(Term::Unknown(name, pieces)))
}

/// The modifier of a name and a value.
fn read_modifier(alloc: Global, name: &[u8], value: &[u8]) -> Result<Option<Term>, AllocError>
    requires { IsTrue (list_all grammar.is_name_byte name.now) }
    ensures { IfOk result (Reads (SpellsModifier name.now) value.now) }
{
    if name.eq_ignore_ascii_case(b"redirect") {
        read_redirect(alloc, name, value)
    } else if name.eq_ignore_ascii_case(b"exp") {
        read_exp(alloc, name, value)
    } else {
        read_unknown(alloc, name, value)
    }
}

/// The directive of a qualifier and a name, by what stands behind them.
fn read_directive(
    alloc: Global,
    mark: &[u8],
    name: &[u8],
    rest: &[u8],
) -> Result<Option<Term>, AllocError>
    requires { IsMark mark.now }
    ensures { IfOk result (Reads (SpellsDirective mark.now name.now) rest.now) }
{
    let Some(keyword) = read_keyword(name) else {
        return Ok(None);
    };
    let Some(mechanism) = read_mechanism(alloc, keyword, rest)? else {
        return Ok(None);
    };
    Ok(Some(Term::Directive(verdict_of(mark), mechanism)))
}

/// The term that a word spells (RFC 7208, section 12). One that begins with a name and `=` is a modifier.
pub(crate) fn read_term(alloc: Global, word: &[u8]) -> Result<Option<Term>, AllocError>
    ensures { IfOk result (Reads SpellsTerm word.now) }
{
    let (mark, behind_mark) = split_mark(word);
    let (name, rest) = split_name(behind_mark);
    let Some(value) = behind(rest, b'=') else {
        return read_directive(alloc, mark, name, rest);
    };
    if mark.is_empty() {
        read_modifier(alloc, name, value)
    } else {
        Ok(None)
    }
}
