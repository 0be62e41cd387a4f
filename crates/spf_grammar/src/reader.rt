//! Reading records.
ghost use Rattle.std.specs.Prelude.{◌≡◌, ◌≤◌, IsTrue, IfOk, MatchBool, MatchOption, count_by, false};
ghost use Rattle.std.specs.List.{list_all, prefix_len};
ghost use Rattle.spf_text.specs.Version.{is_spf_text};
ghost use Rattle.spf_macros.specs.Reading.{Pauses, Reads, IsSpan};
ghost use Rattle.spf_grammar.specs.Grammar.{SpellsTerms, ReadAs};
ghost use Rattle.spf_grammar.specs.Grammar as grammar;
ghost use Rattle.spf_grammar.specs.Reading.{BehindVersion, SplitsWord};
ghost use Rattle.spf_grammar.specs.Reading as reading;

use crate::terms::read_term;
use crate::{Policy, Term, Terms};
use spf_text::is_spf;
use std::alloc::{AllocError, Global};

fn space_count(text: &[u8]) -> usize
    ensures { result ≡ prefix_len grammar.is_space text.now }
{
    text.iter().take_while(|byte| **byte == b' ').count()
}

/// The spaces that the text begins with, and the rest.
fn split_spaces(text: &[u8]) -> (&[u8], &[u8])
    ensures { IsSpan grammar.is_space text.now result.0.now result.1.now }
{
    text.split_at(space_count(text))
}

fn word_len(text: &[u8]) -> usize
    ensures { result ≡ prefix_len reading.no_space text.now }
{
    text.iter().take_while(|byte| **byte != b' ').count()
}

/// What stands before the first space, and the rest.
fn split_space(text: &[u8]) -> (&[u8], &[u8])
    ensures { IsSpan reading.no_space text.now result.0.now result.1.now }
{
    text.split_at(word_len(text))
}

/// The first word of the text, and the rest; `None` where there are spaces alone.
fn next_word(text: &[u8]) -> Option<(&[u8], &[u8])>
    ensures { MatchOption result (IsTrue (list_all grammar.is_space text.now))
        (λ r. SplitsWord text.now r.0.now r.1.now) }
{
    let (_, rest) = split_spaces(text);
    if rest.is_empty() {
        return None;
    }
    Some(split_space(rest))
}

/// The terms of a record, behind its version section.
fn read_terms(alloc: Global, text: &[u8]) -> Result<Option<Terms>, AllocError>
    requires { Pauses reading.no_space text.now }
    ensures { IfOk result (Reads SpellsTerms text.now) }
{
    let mut terms = Terms::new(alloc);
    let mut rest = text;
    while let Some((word, behind)) = next_word(rest) {
        let Some(term) = read_term(alloc, word)? else {
            return Ok(None);
        };
        terms.push(term)?;
        rest = behind;
    }
    Ok(Some(terms))
}

fn is_redirect(term: &Term) -> bool
    ensures { result ≡ grammar.is_redirect term.now }
{
    matches!(term, Term::Redirect(_))
}

fn is_exp(term: &Term) -> bool
    ensures { result ≡ grammar.is_exp term.now }
{
    matches!(term, Term::Exp(_))
}

/// How many terms are `redirect` modifiers.
fn redirect_count(terms: &[Term]) -> usize
    ensures { result ≡ count_by grammar.is_redirect terms.now }
{
    let mut count = 0;
    for term in terms {
        if is_redirect(term) {
            count += 1;
        }
    }
    count
}

/// How many terms are `exp` modifiers.
fn exp_count(terms: &[Term]) -> usize
    ensures { result ≡ count_by grammar.is_exp terms.now }
{
    let mut count = 0;
    for term in terms {
        if is_exp(term) {
            count += 1;
        }
    }
    count
}

/// Whether `redirect` and `exp` stand at most once each (RFC 7208, section 6).
fn are_single(terms: &[Term]) -> bool
    ensures { MatchBool result ((count_by grammar.is_redirect terms.now ≤ 1) × (count_by grammar.is_exp terms.now ≤ 1))
        (¬ ((count_by grammar.is_redirect terms.now ≤ 1) × (count_by grammar.is_exp terms.now ≤ 1))) }
{
    redirect_count(terms) <= 1 && exp_count(terms) <= 1
}

/// What stands behind the version section; `None` exactly where the text has none.
fn behind_version(text: &[u8]) -> Option<&[u8]>
    ensures { MatchOption result (is_spf_text text.now ≡ false) (λ rest. BehindVersion text.now rest.now) }
{
    if !is_spf(text) {
        return None;
    }
    let (_, rest) = text.split_at(6);
    Some(rest)
}

/// The policy that a text spells (RFC 7208, section 12), with networks cut to their lengths, lengths of 32 and 128
/// bits where none are written, and names of unknown modifiers in lower case; `None` exactly where the text spells
/// none. `redirect` and `exp` stand at most once each (section 6). `AllocError` where there is no memory.
pub fn parse(alloc: Global, text: &[u8]) -> Result<Option<Policy>, AllocError>
    ensures { IfOk result (ReadAs text.now) }
{
    let Some(rest) = behind_version(text) else {
        return Ok(None);
    };
    let Some(terms) = read_terms(alloc, rest)? else {
        return Ok(None);
    };
    if are_single(terms.as_slice()) {
        Ok(Some(Policy { terms }))
    } else {
        Ok(None)
    }
}
