//! The steps of a walk, which make something of what stands at each address.
ghost use Rattle.std.specs.Prelude.{◌≡◌, ◌<◌, ◌^◌, ℕ, IfOk, MatchBool, option_map};
ghost use Rattle.prefix_trie.specs.Leaves.{value_at};
ghost use Rattle.symbolic_check.specs.Steps as step;
ghost use Rattle.symbolic_check.specs.Walk.{SomeLive, NoneLive, StepsAt, StepsWith};

use crate::state::{Purpose, State};
use addr_bits::Width;
use prefix_trie::TrieMap;
use spf_grammar::Verdict;
use spf_model::{Ending, Limits, Outcome, Place};
use std::alloc::{AllocError, Global};
use zone_answers::Class;

/// What stands at each address of a family in the midst of a record.
pub(crate) type States<W> = TrieMap<W, State>;

/// Whether some address is live.
pub(crate) fn is_some_live<W: Width>(states: &States<W>) -> bool
    ensures { MatchBool result (SomeLive W.BITS states.now) (NoneLive W.BITS states.now) }
{
    states.least_where(|state| state.is_live()).is_some()
}

/// Counts a term that asks the DNS (RFC 7208, section 4.6.4).
pub(crate) fn count_lookups<W: Width>(
    alloc: Global,
    states: &States<W>,
    limits: Limits,
    place: &Place,
) -> Result<States<W>, AllocError>
    ensures { IfOk result (λ new. StepsAt W.BITS (λ a. step.after_lookup limits place.now) states.now new) }
{
    states.map(|state| state.after_lookup(alloc, limits, place))
}

/// Counts a term that got a void answer, or none (RFC 7208, section 4.6.4).
pub(crate) fn count_voids<W: Width>(
    alloc: Global,
    states: &States<W>,
    limits: Limits,
    place: &Place,
    void: bool,
) -> Result<States<W>, AllocError>
    ensures { IfOk result (λ new. StepsAt W.BITS (λ a. step.after_void limits place.now void) states.now new) }
{
    states.map(|state| state.after_void(alloc, limits, place, void))
}

/// Ends the evaluation of each live address with an outcome that is no verdict.
pub(crate) fn fail<W: Width>(
    alloc: Global,
    states: &States<W>,
    outcome: &Outcome,
) -> Result<States<W>, AllocError>
    ensures { IfOk result (λ new. StepsAt W.BITS (λ a. step.after_failure outcome.now) states.now new) }
{
    states.map(|state| state.after_failure(alloc, outcome))
}

/// A directive that matches every address, or none (RFC 7208, section 4.6.2).
pub(crate) fn match_all<W: Width>(
    states: &States<W>,
    verdict: Verdict,
    matches: bool,
) -> Result<States<W>, AllocError>
    ensures { IfOk result (λ new. StepsAt W.BITS (λ a. step.after_match verdict matches) states.now new) }
{
    states.map(|state| state.after_match(verdict, matches))
}

/// A directive that matches the addresses of a set (RFC 7208, section 4.6.2).
pub(crate) fn match_set<W: Width>(
    alloc: Global,
    states: &States<W>,
    verdict: Verdict,
    set: &TrieMap<W, bool>,
) -> Result<States<W>, AllocError>
    ensures { IfOk result (λ new. StepsWith W.BITS (step.after_match verdict) set.now states.now new) }
{
    TrieMap::combine(
        alloc,
        states,
        set,
        |state, matches| state.after_match(verdict, *matches),
    )
}

/// An `exists` that asks at the reversed name of each address, by the classes of the answers (RFC 7208, sections 4.6.4
/// and 5.7).
pub(crate) fn match_classes<W: Width>(
    alloc: Global,
    states: &States<W>,
    limits: Limits,
    place: &Place,
    verdict: Verdict,
    classes: &TrieMap<W, Class>,
) -> Result<States<W>, AllocError>
    ensures { IfOk result (λ new. StepsWith W.BITS (step.after_class limits place.now verdict)
        classes.now states.now new) }
{
    TrieMap::combine(
        alloc,
        states,
        classes,
        |state, class| state.after_class(alloc, limits, place, verdict, *class),
    )
}

/// A row of networks, of which the first that has an address gives it this verdict (RFC 7208, section 4.6.2).
pub(crate) fn match_networks<W: Width>(
    alloc: Global,
    states: &States<W>,
    found: &TrieMap<W, Option<Verdict>>,
) -> Result<States<W>, AllocError>
    ensures { IfOk result (λ new. StepsWith W.BITS step.after_networks found.now states.now new) }
{
    TrieMap::combine(
        alloc,
        states,
        found,
        |state, first| state.after_networks(*first),
    )
}

/// The states with which a record that is asked for is entered: those of the live addresses, once the lookup of the
/// term that asks for it is counted (RFC 7208, sections 4.6.4 and 5.2).
pub(crate) fn enter<W: Width>(
    alloc: Global,
    states: &States<W>,
    limits: Limits,
    place: &Place,
) -> Result<States<W>, AllocError>
    ensures { IfOk result (λ new. StepsAt W.BITS (λ a state. step.after_lookup limits place.now
        (step.entered state)) states.now new) }
{
    states.map(|state| state.entered().after_lookup(alloc, limits, place))
}

/// What a term makes of the record that it asks for (RFC 7208, sections 5.2 and 6.1). `inner` is what stands after that
/// record is evaluated.
pub(crate) fn use_target<W: Width>(
    alloc: Global,
    states: &States<W>,
    inner: &States<W>,
    place: &Place,
    purpose: Purpose,
) -> Result<States<W>, AllocError>
    ensures { IfOk result (λ new. StepsWith W.BITS (step.after_target place.now purpose) inner.now states.now new) }
{
    TrieMap::combine(
        alloc,
        states,
        inner,
        |state, after| state.after_target(alloc, after, place, purpose),
    )
}

/// The outcome of each address, where the record is evaluated whole.
pub(crate) fn outcomes<W: Width>(states: &States<W>) -> Result<TrieMap<W, Ending>, AllocError>
    ensures { IfOk result (λ ends. (a : ℕ) → a < 2 ^ W.BITS
        → value_at W.BITS ends a ≡ option_map step.outcome_of (value_at W.BITS states.now a)) }
{
    states.map(|state| state.ending())
}
