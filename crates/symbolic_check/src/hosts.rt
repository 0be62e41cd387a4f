//! The mechanisms that ask the DNS for hosts, for every address of a family (RFC 7208, sections 5.3, 5.4, 5.5 and 5.7).
ghost use Rattle.addr_bits.specs.Address.{address_of};
ghost use Rattle.std.specs.Prelude.{◌≡◌, ◌<◌, ◌≤◌, ◌^◌, ℕ, ◌++◌, List, Option, IfOk, OnOk, Some, length};
ghost use Rattle.std.specs.List.{flat_map};
ghost use Rattle.prefix_trie.specs.Leaves.{value_at};
ghost use Rattle.zone_answers.specs.Answers.{answer_bodies};
ghost use Rattle.zone_answers.specs.declared.answer.Question.{Question as Asked};
ghost use Rattle.spf_model.specs.Judging as judging;
ghost use Rattle.spf_model.specs.Check.{unless_matched};
ghost use Rattle.spf_model.specs.Leads.{site_of, MechanismFits};
ghost use Rattle.spf_macros.specs.declared.piece.Piece.{Piece};
ghost use Rattle.spf_grammar.specs.declared.verdict.Verdict.{Verdict as Given};
ghost use Rattle.spf_grammar.specs.declared.policy.Term.TheVariants.{Directive};
ghost use Rattle.spf_grammar.specs.declared.policy.Mechanism.TheVariants as mechanism;
ghost use Rattle.dns_name.specs.Wire.{wire_form};
ghost use Rattle.spf_model.specs.declared.gathered.Hosts.TheVariants.{Reversed};
ghost use Rattle.symbolic_check.specs.Walk.{SomeLive, Walks, says_at};
ghost use Rattle.symbolic_check.specs.Stretches.{hosts_stretch, own_stretch, term_stretch};

use crate::steps;
use crate::steps::States;
use addr_bits::Items;
use dns_name::Name;
use match_sets::match_family;
use prefix_trie::TrieMap;
use reverse_names::reverse_sets;
use spf_grammar::{Mechanism, NetworkFamily, Verdict};
use spf_model::{Cause, Gathered, Halt, Hosts, Lens, Outcome, RecordContext};
use std::alloc::{AllocError, Global};
use zone_answers::{Answer, AskKind, Bodies, Question, Questions};

/// Moves the bodies that were found to the end of a list.
fn move_bodies(answer: Answer, bodies: &mut Bodies) -> Result<(), AllocError>
    ensures { OnOk result (bodies.new ≡ bodies.old ++ answer_bodies answer) }
{
    if let Answer::Found(found) = answer {
        for body in found.into_vec() {
            bodies.push(body)?;
        }
    }
    Ok(())
}

/// All that was found, as one answer.
fn one_answer(alloc: Global, answers: Items<Answer>) -> Result<Answer, AllocError>
    ensures { IfOk result (λ answer. answer_bodies answer ≡ flat_map answer_bodies answers) }
{
    let mut bodies = Bodies::new(alloc);
    for answer in answers.into_vec() {
        move_bodies(answer, &mut bodies)?;
    }
    Ok(Answer::Found(bodies))
}

/// The addresses that agree with one that was found (RFC 7208, sections 5.3 and 5.4).
fn agreeing<W: NetworkFamily>(
    alloc: Global,
    lens: Lens,
    answers: Items<Answer>,
) -> Result<TrieMap<W, bool>, AllocError>
    requires len4 { lens.len4 ≤ 32 }
    requires len6 { lens.len6 ≤ 128 }
    ensures { IfOk result (λ set. (a : ℕ) → a < 2 ^ W.BITS → value_at W.BITS set a ≡ Some
        (judging.some_agrees lens.len4 lens.len6 (address_of W.family a) answers)) }
{
    let found = one_answer(alloc, answers)?;
    match_family(alloc, &found, lens.of(W::family()))
}

/// The addresses that a mechanism matches by the answers of its hosts (RFC 7208, sections 5.3, 5.4 and 5.7).
fn met<W: NetworkFamily>(
    alloc: Global,
    mechanism: &Mechanism,
    gathered: Gathered,
) -> Result<TrieMap<W, bool>, AllocError>
    requires { MechanismFits mechanism.now }
    ensures { IfOk result (λ set. (a : ℕ) → a < 2 ^ W.BITS → value_at W.BITS set a ≡ Some
        (judging.is_met mechanism.now (address_of W.family a) gathered.answers)) }
{
    match mechanism {
        Mechanism::A(_, len4, len6) | Mechanism::Mx(_, len4, len6) => {
            let lens = Lens {
                len4: *len4,
                len6: *len6,
            };
            agreeing(alloc, lens, gathered.answers)
        }
        Mechanism::Exists(_) => TrieMap::whole(alloc, gathered.some_found()),
        _ => TrieMap::whole(alloc, false),
    }
}

/// Counts a term that asks the DNS (RFC 7208, section 4.6.4).
fn count_lookup<W: NetworkFamily>(
    context: &RecordContext<'_>,
    term: u32,
    states: &States<W>,
) -> Result<States<W>, AllocError>
    ensures { IfOk result (λ new. (asked : List Asked)
        → Walks W.BITS (says_at (address_of W.family) context.now.zones.now)
        (λ a. judging.counted (site_of context.now) term) states.now new asked asked) }
{
    steps::count_lookups(context.alloc, states, context.limits, &context.place(term))
}

/// What a mechanism makes of what it gathered: its void is counted, and then it matches or not (RFC 7208, sections
/// 4.6.4, 5.3, 5.4 and 5.7).
fn match_gathered<W: NetworkFamily>(
    context: &RecordContext<'_>,
    term: u32,
    verdict: Verdict,
    mechanism: &Mechanism,
    gathered: Gathered,
    states: &States<W>,
) -> Result<States<W>, AllocError>
    requires { MechanismFits mechanism.now }
    ensures { IfOk result (λ new. (asked : List Asked)
        → Walks W.BITS (says_at (address_of W.family) context.now.zones.now)
        (λ a counts go. judging.judge_gathered (site_of context.now) (address_of W.family a) term
        mechanism.now gathered counts (unless_matched verdict go)) states.now new asked asked) }
{
    let place = context.place(term);
    let void = gathered.some_void();
    let counted = steps::count_voids(context.alloc, states, context.limits, &place, void)?;
    let set = met(context.alloc, mechanism, gathered)?;
    steps::match_set(context.alloc, &counted, verdict, &set)
}

/// An `exists` that asks each address at its reversed name below a suffix: the question is noted once for the family,
/// and each answer counts by its class (RFC 7208, sections 4.6.4 and 5.7).
fn match_reversed<W: NetworkFamily>(
    context: &RecordContext<'_>,
    term: u32,
    verdict: Verdict,
    suffix: Name,
    states: &States<W>,
    asked: &mut Questions,
) -> Result<States<W>, AllocError>
    requires family { context.now.family ≡ W.family }
    requires short { length (wire_form suffix) ≤ 191 }
    requires live { SomeLive W.BITS states.now }
    ensures { IfOk result (λ new. (spec : List Piece)
        → Walks W.BITS (says_at (address_of W.family) context.now.zones.now)
        (own_stretch (address_of W.family) context.now term verdict (mechanism.Exists spec)
        (Reversed suffix)) states.now new asked.old asked.new) }
{
    let classes = reverse_sets(context.alloc, context.zones, &suffix)?;
    let question = Question {
        name: suffix,
        kind: AskKind::reversed(context.family),
    };
    asked.push(question)?;
    let place = context.place(term);
    steps::match_classes(
        context.alloc,
        states,
        context.limits,
        &place,
        verdict,
        &classes,
    )
}

/// A mechanism that asks for hosts, with its verdict: its lookup is counted, what all addresses have in common is
/// gathered once, and then each is judged (RFC 7208, sections 4.6.4, 5.3, 5.4 and 5.7).
pub(crate) fn walk_hosts<W: NetworkFamily>(
    context: &RecordContext<'_>,
    term: u32,
    verdict: Verdict,
    mechanism: &Mechanism,
    states: States<W>,
    asked: &mut Questions,
) -> Result<States<W>, AllocError>
    requires family { context.now.family ≡ W.family }
    requires fits { MechanismFits mechanism.now }
    ensures { IfOk result (λ new. Walks W.BITS (says_at (address_of W.family) context.now.zones.now)
        (hosts_stretch (address_of W.family) context.now term verdict mechanism.now) states new asked.old asked.new) }
{
    let counted = count_lookup(context, term, &states)?;
    if !steps::is_some_live(&counted) {
        return Ok(counted);
    }
    match context.gather(term, mechanism, asked) {
        Ok(Hosts::Common(gathered)) => {
            match_gathered(context, term, verdict, mechanism, gathered, &counted)
        }
        Ok(Hosts::Reversed(suffix)) => {
            match_reversed(context, term, verdict, suffix, &counted, asked)
        }
        Err(Halt::Ended(outcome)) => steps::fail(context.alloc, &counted, &outcome),
        Err(Halt::Memory) => Err(AllocError),
    }
}

/// `ptr`, which is left open wherever its lookup is counted (RFC 7208, section 5.5). It asks nothing.
pub(crate) fn walk_ptr<W: NetworkFamily>(
    context: &RecordContext<'_>,
    term: u32,
    states: States<W>,
) -> Result<States<W>, AllocError>
    ensures { IfOk result (λ new. (asked : List Asked) (depth : ℕ) (verdict : Given) (spec : Option (List Piece))
        → Walks W.BITS (says_at (address_of W.family) context.now.zones.now)
        (term_stretch (address_of W.family) context.now depth term
        (Directive verdict (mechanism.Ptr spec))) states new asked asked) }
{
    let counted = count_lookup(context, term, &states)?;
    let open = Outcome::Unsettled(Cause::Reverse, context.place(term));
    steps::fail(context.alloc, &counted, &open)
}
