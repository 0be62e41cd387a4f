//! Reading the texts of records that lead from one to the next.
ghost use Rattle.std.specs.Prelude.{◌≡◌, ◌≤◌, ◌∷◌, ◌↔◌, [], List, drop, length, not, IsTrue, IfOk, MatchOption, Some};
ghost use Rattle.std.specs.Prelude.{option_map};
ghost use Rattle.std.specs.List.{list_all};
ghost use Rattle.spf_macros.specs.Grammar.{is_expand};
ghost use Rattle.spf_model.specs.Judging as judging;
ghost use Rattle.spf_macros.specs.declared.piece.Piece.{Piece as AnyPiece};
ghost use Rattle.spf_grammar.specs.declared.policy.Policy.{Policy as AnyPolicy};
ghost use Rattle.spf_grammar.specs.declared.policy.Term.TheVariants.{Redirect};
ghost use Rattle.cert_checker.specs.Forms as forms;
ghost use Rattle.cert_checker.specs.Forms.{HasPolicy, LeadsTo};
ghost use Rattle.cert_checker.specs.Reading.{AreTaken, GoesOn, IsLinkedAnswer, IsOneAnswer, IsPushed, owner_of};

use addr_bits::Family;
use dns_name::Name;
use fewest_terms::FlatList;
use master_reader::{Body, Record};
use spf_grammar::{FlatTerm, Net, Policy, Term, parse};
use spf_macros::{Expanded, MacroText, Piece, target};
use spf_model::{name_of, spf_texts};
use std::alloc::{AllocError, Global};
use std::slice;

/// The policy that the text of a TXT record spells (RFC 7208, sections 4.5 and 4.6), if it spells one.
fn read_policy(alloc: Global, body: &Body) -> Result<Option<Policy>, AllocError>
    ensures { IfOk result (λ policy. MatchOption policy ((any : AnyPolicy) → ¬ HasPolicy body.now any)
        (HasPolicy body.now)) }
{
    let texts = spf_texts(alloc, slice::from_ref(body))?;
    match texts.get(0) {
        Some(text) => parse(alloc, text.as_slice()),
        None => Ok(None),
    }
}

/// Appends the flat term that a directive with a network or `all` is (RFC 7208, sections 5.1 and 5.6); false where the
/// term is another one.
fn push_term(list: &mut FlatList, term: &Term) -> Result<bool, AllocError>
    ensures { IfOk result (IsPushed term.now list.old list.new) }
{
    let Term::Directive(verdict, mechanism) = term else {
        return Ok(false);
    };
    let Some(net) = mechanism.net() else {
        return Ok(false);
    };
    list.push(FlatTerm {
        verdict: *verdict,
        net,
    })?;
    Ok(true)
}

/// Appends the flat terms that the terms begin with. What is left of the terms begins with none.
fn push_flat<'a>(list: &mut FlatList, terms: &'a [Term]) -> Result<&'a [Term], AllocError>
    ensures { IfOk result (λ rest. AreTaken terms.now rest.now list.old list.new) }
{
    let mut rest = terms;
    while let Some((term, behind)) = rest.split_first() {
        if !push_term(list, term)? {
            return Ok(rest);
        }
        rest = behind;
    }
    Ok(rest)
}

/// Whether the term is `all` (RFC 7208, section 5.1).
fn is_all(term: &FlatTerm) -> bool
    ensures { result ≡ forms.is_all term.now.net }
{
    matches!(term.net, Net::All)
}

/// Whether a term is `all`.
fn has_all(terms: &[FlatTerm]) -> bool
    ensures { result ≡ forms.has_all terms.now }
{
    terms.iter().any(|term| is_all(term))
}

/// Whether no term but the last is `all`.
fn has_all_last(terms: &[FlatTerm]) -> bool
    ensures { result ≡ forms.has_all_last terms.now }
{
    match terms.split_last() {
        Some((_, front)) => !has_all(front),
        None => true,
    }
}

/// Whether the pieces are literals alone, of which none stands for something else (RFC 7208, section 7.1).
fn are_literal(pieces: &[Piece]) -> bool
    ensures { result ≡ list_all (λ piece. not (is_expand piece)) pieces.now }
{
    pieces
        .iter()
        .all(|piece| matches!(piece, Piece::Literal(_)))
}

/// Whether the text writes the name (RFC 1034, section 3.1).
fn writes(text: &[u8], name: &Name) -> bool
    ensures { IsTrue result ↔ (judging.name_of text.now ≡ Some name.now) }
{
    match name_of(text) {
        Some(other) => other == *name,
        None => false,
    }
}

/// Whether a domain-spec without macro-expand asks for the name (RFC 7208, section 7.3).
fn leads_to(alloc: Global, spec: &MacroText, name: &Name) -> Result<bool, AllocError>
    ensures { IfOk result (λ leads. IsTrue leads ↔ LeadsTo spec.now name.now) }
{
    if !are_literal(spec.as_slice()) {
        return Ok(false);
    }
    match target(alloc, spec, Family::V4, b"")? {
        Expanded::Out(text) => Ok(writes(text.as_slice(), name)),
        Expanded::Needs(_) => Ok(false),
    }
}

/// The domain-spec of the redirect that the terms are (RFC 7208, section 6.1), if they are one.
fn only_redirect(terms: &[Term]) -> Option<&MacroText>
    ensures { MatchOption result ((spec : List AnyPiece) → ¬ (terms.now ≡ Redirect spec ∷ []))
        (λ spec. terms.now ≡ Redirect spec.now ∷ []) }
{
    match terms {
        [Term::Redirect(spec)] => Some(spec),
        _ => None,
    }
}

/// Whether a record with these flat terms, and others behind them, is one of a chain: before a record with this name,
/// or the last one.
fn goes_on(
    alloc: Global,
    flat: &[FlatTerm],
    rest: &[Term],
    next: Option<&Name>,
) -> Result<bool, AllocError>
    ensures { IfOk result (λ goes. IsTrue goes ↔ GoesOn flat.now rest.now (option_map (λ name. name.now) next.entry)) }
{
    let Some(next) = next else {
        return Ok(rest.is_empty() && has_all_last(flat));
    };
    let Some(spec) = only_redirect(rest) else {
        return Ok(false);
    };
    if has_all(flat) {
        return Ok(false);
    }
    leads_to(alloc, spec, next)
}

/// The terms of a list from a place on.
fn terms_from(list: &FlatList, from: usize) -> &[FlatTerm]
    requires { from ≤ length list.now }
    ensures { result.now ≡ drop from list.now }
{
    &list.as_slice()[from..]
}

/// Whether a record is one of a chain, before a record with this name or as the last. Its flat terms are appended.
fn read_link(
    alloc: Global,
    body: &Body,
    next: Option<&Name>,
    list: &mut FlatList,
) -> Result<bool, AllocError>
    ensures { IfOk result (IsOneAnswer body.now (option_map (λ name. name.now) next.entry) list.old list.new) }
{
    let Some(policy) = read_policy(alloc, body)? else {
        return Ok(false);
    };
    let from = list.len();
    let rest = push_flat(list, policy.terms.as_slice())?;
    goes_on(alloc, terms_from(list, from), rest, next)
}

/// The name of the first record, if there is one.
fn first_owner(records: &[Record]) -> Option<&Name>
    ensures { option_map (λ name. name.now) result ≡ owner_of records.now }
{
    match records.first() {
        Some(first) => Some(&first.owner),
        None => None,
    }
}

/// Whether the records, one or more, lead from each to the next (RFC 7208, section 6.1). Their terms are appended.
pub(crate) fn read_links(
    alloc: Global,
    records: &[Record],
    list: &mut FlatList,
) -> Result<bool, AllocError>
    ensures { IfOk result (IsLinkedAnswer records.now list.old list.new) }
{
    let Some((first, behind)) = records.split_first() else {
        return Ok(false);
    };
    if !read_link(alloc, &first.body, first_owner(behind), list)? {
        return Ok(false);
    }
    if behind.is_empty() {
        return Ok(true);
    }
    read_links(alloc, behind, list)
}
