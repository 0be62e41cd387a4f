//! check_host for every address of a family: records, their terms, and the records that these ask for (RFC 7208,
//! sections 4.6, 5.2 and 6.1).
ghost use Rattle.addr_bits.specs.Address.{address_of};
ghost use Rattle.std.specs.Prelude.{◌≡◌, ◌-◌, ◌≤◌, ℕ, true, List, ◌++◌, length, take, drop, IfOk, Some};
ghost use Rattle.std.specs.List.{list_all};
ghost use Rattle.zone_answers.specs.declared.answer.Question.{Question};
ghost use Rattle.spf_grammar.specs.declared.policy.Term.{Term as GivenTerm};
ghost use Rattle.spf_model.specs.Check.{redirect_from};
ghost use Rattle.spf_model.specs.Leads.{TargetFits, TermFits, TermsFit};
ghost use Rattle.symbolic_check.specs.Networks as networks;
ghost use Rattle.symbolic_check.specs.Walk.{Walks, says_at};
ghost use Rattle.symbolic_check.specs.Stretches.{number_after, term_stretch, terms_stretch, default_stretch};
ghost use Rattle.symbolic_check.specs.Stretches.{record_stretch, target_stretch, reached_stretch};

use crate::hosts::{walk_hosts, walk_ptr};
use crate::networks::first_networks;
use crate::state::Purpose;
use crate::steps;
use crate::steps::States;
use spf_grammar::{Mechanism, NetworkFamily, Term, Verdict};
use spf_macros::MacroText;
use spf_model::{Cause, Halt, Outcome, RecordContext, redirect_of};
use std::alloc::AllocError;
use zone_answers::Questions;

/// Whether a row of networks may have this term: a directive with a network or `all`, or a modifier, which is passed
/// over.
fn is_row_term(term: &Term) -> bool
    ensures { result ≡ networks.is_row_term term.now }
{
    match term {
        Term::Directive(_, Mechanism::All | Mechanism::Ip4(_) | Mechanism::Ip6(_)) => true,
        Term::Directive(_, _) => false,
        _ => true,
    }
}

/// A row of directives with networks or `all` (RFC 7208, sections 5.1 and 5.6), as one step.
fn walk_row<W: NetworkFamily>(
    context: &RecordContext<'_>,
    row: &[Term],
    states: States<W>,
) -> Result<States<W>, AllocError>
    requires { list_all networks.is_row_term row.now ≡ true }
    ensures { IfOk result (λ new. (depth t : ℕ) (asked : List Question)
        → Walks W.BITS (says_at (address_of W.family) context.now.zones.now)
        (terms_stretch (address_of W.family) context.now depth t row.now) states new asked asked) }
{
    if !steps::is_some_live(&states) {
        return Ok(states);
    }
    let found = first_networks(context.alloc, row)?;
    steps::match_networks(context.alloc, &states, &found)
}

/// The row of networks before another term. Mostly there is none.
fn pass_row<W: NetworkFamily>(
    context: &RecordContext<'_>,
    terms: &[Term],
    start: usize,
    end: usize,
    states: States<W>,
) -> Result<States<W>, AllocError>
    requires ordered { start ≤ end }
    requires within { end ≤ length terms.now }
    requires row { list_all networks.is_row_term (take (end - start) (drop start terms.now)) ≡ true }
    ensures { IfOk result (λ mid. (depth t : ℕ) (rest : List GivenTerm) (new : _) (asked more : List Question)
        → Walks W.BITS (says_at (address_of W.family) context.now.zones.now)
        (terms_stretch (address_of W.family) context.now depth
        (number_after t (end - start)) rest) mid new asked more
        → Walks W.BITS (says_at (address_of W.family) context.now.zones.now)
        (terms_stretch (address_of W.family) context.now depth t
        (take (end - start) (drop start terms.now) ++ rest)) states new asked more) }
{
    if start == end {
        return Ok(states);
    }
    walk_row(context, &terms[start..end], states)
}

/// The row of networks that ends a record.
fn end_row<W: NetworkFamily>(
    context: &RecordContext<'_>,
    terms: &[Term],
    start: usize,
    states: States<W>,
) -> Result<States<W>, AllocError>
    requires within { start ≤ length terms.now }
    requires row { list_all networks.is_row_term (drop start terms.now) ≡ true }
    ensures { IfOk result (λ new. (depth t : ℕ) (asked : List Question)
        → Walks W.BITS (says_at (address_of W.family) context.now.zones.now)
        (terms_stretch (address_of W.family) context.now depth t (drop start terms.now)) states new asked asked) }
{
    walk_row(context, &terms[start..], states)
}

/// The record that a term asks for, with the states that enter it once its lookup is counted. Where its target is
/// no name, its evaluation ends with that.
#[cycle(walk)]
fn reach_target<W: NetworkFamily>(
    context: &RecordContext<'_>,
    depth: u32,
    term: u32,
    spec: &MacroText,
    states: States<W>,
    asked: &mut Questions,
) -> Result<States<W>, AllocError>
    requires family { context.now.family ≡ W.family }
    requires target { TargetFits (Some spec.now) }
    ensures { IfOk result (λ new. Walks W.BITS (says_at (address_of W.family) context.now.zones.now)
        (reached_stretch (address_of W.family) context.now depth term spec.now) states new asked.old asked.new) }
{
    if !steps::is_some_live(&states) {
        return Ok(states);
    }
    match context.target(term, spec) {
        Ok((domain, name)) => {
            let inner = RecordContext {
                domain: domain.as_slice(),
                name: &name,
                ..*context
            };
            walk_record(&inner, depth, states, asked)
        }
        Err(Halt::Ended(outcome)) => steps::fail(context.alloc, &states, &outcome),
        Err(Halt::Memory) => Err(AllocError),
    }
}

/// What a term makes of the record that it asks for. Records below it are nested so deep.
#[cycle(walk)]
pub(crate) fn walk_target<W: NetworkFamily>(
    context: &RecordContext<'_>,
    depth: u32,
    term: u32,
    spec: &MacroText,
    purpose: Purpose,
    states: States<W>,
    asked: &mut Questions,
) -> Result<States<W>, AllocError>
    requires family { context.now.family ≡ W.family }
    requires target { TargetFits (Some spec.now) }
    ensures { IfOk result (λ new. Walks W.BITS (says_at (address_of W.family) context.now.zones.now)
        (target_stretch (address_of W.family) context.now depth term spec.now purpose) states new asked.old asked.new) }
{
    let place = context.place(term);
    let entered = steps::enter(context.alloc, &states, context.limits, &place)?;
    let found = reach_target(context, depth, term, spec, entered, asked)?;
    steps::use_target(context.alloc, &states, &found, &place, purpose)
}

/// A term. Records below it are nested so deep.
#[cycle(walk)]
pub(crate) fn walk_term<W: NetworkFamily>(
    context: &RecordContext<'_>,
    depth: u32,
    number: u32,
    term: &Term,
    states: States<W>,
    asked: &mut Questions,
) -> Result<States<W>, AllocError>
    requires family { context.now.family ≡ W.family }
    requires fits { TermFits term.now }
    ensures { IfOk result (λ new. Walks W.BITS (says_at (address_of W.family) context.now.zones.now)
        (term_stretch (address_of W.family) context.now depth number term.now) states new asked.old asked.new) }
{
    let Term::Directive(verdict, mechanism) = term else {
        return walk_row(context, std::slice::from_ref(term), states);
    };
    match mechanism {
        Mechanism::All | Mechanism::Ip4(_) | Mechanism::Ip6(_) => {
            walk_row(context, std::slice::from_ref(term), states)
        }
        Mechanism::Include(spec) => {
            let purpose = Purpose::Include(*verdict);
            walk_target(context, depth, number, spec, purpose, states, asked)
        }
        Mechanism::A(_, _, _) | Mechanism::Mx(_, _, _) | Mechanism::Exists(_) => {
            walk_hosts(context, number, *verdict, mechanism, states, asked)
        }
        Mechanism::Ptr(_) => walk_ptr(context, number, states),
    }
}

/// The terms of the record, up to the one at which no address is live. Records below them are nested so deep.
#[cycle(walk)]
pub(crate) fn walk_terms<W: NetworkFamily>(
    context: &RecordContext<'_>,
    depth: u32,
    terms: &[Term],
    states: States<W>,
    asked: &mut Questions,
) -> Result<States<W>, AllocError>
    requires family { context.now.family ≡ W.family }
    requires fit { TermsFit terms.now }
    ensures { IfOk result (λ new. Walks W.BITS (says_at (address_of W.family) context.now.zones.now)
        (terms_stretch (address_of W.family) context.now depth 1 terms.now) states new asked.old asked.new) }
{
    let mut walked = states;
    let mut start = 0;
    let mut number = 1u32;
    for index in 0..terms.len() {
        if !is_row_term(&terms[index]) {
            let passed = pass_row(context, terms, start, index, walked)?;
            if !steps::is_some_live(&passed) {
                return Ok(passed);
            }
            walked = walk_term(context, depth, number, &terms[index], passed, asked)?;
            start = index + 1;
        }
        number = number.saturating_add(1);
    }
    end_row(context, terms, start, walked)
}

/// What comes where no directive of the record matches (RFC 7208, sections 4.7 and 6.1). Mostly no address is live
/// here.
#[cycle(walk)]
fn walk_default<W: NetworkFamily>(
    context: &RecordContext<'_>,
    depth: u32,
    terms: &[Term],
    states: States<W>,
    asked: &mut Questions,
) -> Result<States<W>, AllocError>
    requires family { context.now.family ≡ W.family }
    requires fit { TermsFit terms.now }
    ensures { IfOk result (λ new. Walks W.BITS (says_at (address_of W.family) context.now.zones.now)
        (default_stretch (address_of W.family) context.now depth
        (redirect_from 1 terms.now)) states new asked.old asked.new) }
{
    if !steps::is_some_live(&states) {
        return Ok(states);
    }
    match redirect_of(terms) {
        Some((term, spec)) => {
            walk_target(context, depth, term, spec, Purpose::Redirect, states, asked)
        }
        None => steps::match_all(&states, Verdict::Neutral, true),
    }
}

/// The record at the domain. Records are nested so deep, this one counted.
#[cycle(walk)]
pub(crate) fn walk_record<W: NetworkFamily>(
    context: &RecordContext<'_>,
    depth: u32,
    states: States<W>,
    asked: &mut Questions,
) -> Result<States<W>, AllocError>
    requires { context.now.family ≡ W.family }
    ensures { IfOk result (λ new. Walks W.BITS (says_at (address_of W.family) context.now.zones.now)
        (record_stretch (address_of W.family) context.now depth) states new asked.old asked.new) }
{
    if depth == 0 {
        let outcome = Outcome::Perm(Cause::Lookups, context.place(0));
        return steps::fail(context.alloc, &states, &outcome);
    }
    if !steps::is_some_live(&states) {
        return Ok(states);
    }
    match context.find_record(asked) {
        Ok(terms) => {
            let tried = walk_terms(context, depth - 1, terms.as_slice(), states, asked)?;
            walk_default(context, depth - 1, terms.as_slice(), tried, asked)
        }
        Err(Halt::Ended(outcome)) => steps::fail(context.alloc, &states, &outcome),
        Err(Halt::Memory) => Err(AllocError),
    }
}
