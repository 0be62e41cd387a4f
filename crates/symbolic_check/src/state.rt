//! What stands at an address in the midst of a record, and what a step makes of it.
ghost use Rattle.std.specs.Prelude.{◌≡◌, IfOk};
ghost use Rattle.symbolic_check.specs.declared.state.State.TheVariants.{Failed};
ghost use Rattle.symbolic_check.specs.Steps as step;

use spf_grammar::Verdict;
use spf_model::{Cause, Counts, Ending, Failure, Limits, Outcome, Place};
use std::alloc::{AllocError, Global};
use zone_answers::Class;

/// What stands at an address in the midst of a record.
#[derive(Clone, Drop, PartialEq, Eq)]
pub(crate) enum State {
    /// No directive has matched so far.
    Live(Counts),
    /// The record has come to a verdict.
    Decided(Verdict, Counts),
    /// The evaluation has ended with an outcome that is no verdict.
    Failed(Failure),
}

/// What a term makes of the verdict of the record that it asks for.
#[derive(Clone, Copy)]
pub(crate) enum Purpose {
    /// It gives its own verdict where that record passes the address (RFC 7208, section 5.2).
    Include(Verdict),
    /// It takes that verdict over (RFC 7208, section 6.1).
    Redirect,
}

impl State {
    /// Whether no directive has matched so far.
    pub(crate) fn is_live(&self) -> bool
        ensures { result ≡ step.is_live self.now }
    {
        matches!(self, State::Live(_))
    }

    /// What stands here after a term that asks the DNS is counted (RFC 7208, section 4.6.4).
    pub(crate) fn after_lookup(
        &self,
        alloc: Global,
        limits: Limits,
        place: &Place,
    ) -> Result<State, AllocError>
        ensures { IfOk result (λ state. state ≡ step.after_lookup limits place.now self.now) }
    {
        let State::Live(counts) = self else {
            return self.clone();
        };
        if counts.lookups >= limits.lookups {
            return failed(alloc, Outcome::Perm(Cause::Lookups, place.clone()?));
        }
        Ok(State::Live(Counts {
            lookups: counts.lookups + 1,
            voids: counts.voids,
        }))
    }

    /// What stands here after a term that got a void answer, or none, is counted (RFC 7208, section 4.6.4).
    pub(crate) fn after_void(
        &self,
        alloc: Global,
        limits: Limits,
        place: &Place,
        void: bool,
    ) -> Result<State, AllocError>
        ensures { IfOk result (λ state. state ≡ step.after_void limits place.now void self.now) }
    {
        let State::Live(counts) = self else {
            return self.clone();
        };
        if !void {
            return Ok(State::Live(*counts));
        }
        if counts.voids >= limits.voids {
            return failed(alloc, Outcome::Perm(Cause::Voids, place.clone()?));
        }
        Ok(State::Live(Counts {
            lookups: counts.lookups,
            voids: counts.voids + 1,
        }))
    }

    /// What stands here after a directive that matches, or doesn't (RFC 7208, section 4.6.2).
    pub(crate) fn after_match(&self, verdict: Verdict, matches: bool) -> Result<State, AllocError>
        ensures { IfOk result (λ state. state ≡ step.after_match verdict matches self.now) }
    {
        match self {
            State::Live(counts) if matches => Ok(State::Decided(verdict, *counts)),
            _ => self.clone(),
        }
    }

    /// What stands here after a term that ends every evaluation that comes to it, with an outcome that is no verdict.
    pub(crate) fn after_failure(
        &self,
        alloc: Global,
        outcome: &Outcome,
    ) -> Result<State, AllocError>
        ensures { IfOk result (λ state. state ≡ step.after_failure outcome.now self.now) }
    {
        match self {
            State::Live(_) => failed(alloc, outcome.clone()?),
            _ => self.clone(),
        }
    }

    /// What stands here after an `exists` that asks at the reversed name of the address, by the class of the answer
    /// (RFC 7208, sections 4.6.4 and 5.7).
    pub(crate) fn after_class(
        &self,
        alloc: Global,
        limits: Limits,
        place: &Place,
        verdict: Verdict,
        class: Class,
    ) -> Result<State, AllocError>
        ensures { IfOk result (λ state. state ≡ step.after_class limits place.now verdict class self.now) }
    {
        match class {
            Class::Hit => self.after_match(verdict, true),
            Class::Void => self.after_void(alloc, limits, place, true),
            Class::Beyond => {
                self.after_failure(alloc, &Outcome::Unsettled(Cause::Outside, place.clone()?))
            }
            Class::Round => {
                self.after_failure(alloc, &Outcome::Temp(Cause::Alias, place.clone()?))
            }
        }
    }

    /// What stands here after a row of networks, of which the first that has the address gives this verdict.
    pub(crate) fn after_networks(&self, found: Option<Verdict>) -> Result<State, AllocError>
        ensures { IfOk result (λ state. state ≡ step.after_networks found self.now) }
    {
        match found {
            Some(verdict) => self.after_match(verdict, true),
            None => self.clone(),
        }
    }

    /// What stands here at the begin of a record that is asked for (RFC 7208, section 5.2).
    pub(crate) fn entered(&self) -> State
        ensures { result ≡ step.entered self.now }
    {
        match self {
            State::Live(counts) => State::Live(*counts),
            _ => State::Decided(
                Verdict::Neutral,
                Counts {
                    lookups: 0,
                    voids: 0,
                },
            ),
        }
    }

    /// What stands here after a record that a term asked for, at the end of which this stands (RFC 7208, sections 5.2
    /// and 6.1).
    pub(crate) fn after_target(
        &self,
        alloc: Global,
        inner: &State,
        place: &Place,
        purpose: Purpose,
    ) -> Result<State, AllocError>
        ensures { IfOk result (λ state. state ≡ step.after_target place.now purpose inner.now self.now) }
    {
        match self {
            State::Live(_) => inner.used(alloc, place, purpose),
            _ => self.clone(),
        }
    }

    /// What a term makes of this at the end of the record that it asked for (RFC 7208, sections 5.2 and 6.1).
    fn used(&self, alloc: Global, place: &Place, purpose: Purpose) -> Result<State, AllocError>
        ensures { IfOk result (λ state. state ≡ step.from_target place.now purpose self.now) }
    {
        match self {
            State::Live(counts) => Ok(State::Live(*counts)),
            State::Decided(found, counts) => Ok(purpose.of_verdict(*found, *counts)),
            State::Failed(failure) => failed(alloc, required(failure.outcome(), place)?),
        }
    }

    /// The outcome, where the record is evaluated whole (RFC 7208, section 2.6).
    pub(crate) fn ending(&self) -> Result<Ending, AllocError>
        ensures { IfOk result (λ ending. ending ≡ step.outcome_of self.now) }
    {
        match self {
            State::Live(_) => Ok(Ending::of_verdict(Verdict::Neutral)),
            State::Decided(verdict, _) => Ok(Ending::of_verdict(*verdict)),
            State::Failed(failure) => Ok(Ending::of_failure(failure.clone()?)),
        }
    }
}

impl Purpose {
    /// What the term makes of a verdict of the record that it asked for (RFC 7208, sections 5.2 and 6.1).
    fn of_verdict(self, found: Verdict, counts: Counts) -> State
        ensures { result ≡ step.used self found counts }
    {
        match self {
            Purpose::Include(verdict) => {
                if matches!(found, Verdict::Pass) {
                    State::Decided(verdict, counts)
                } else {
                    State::Live(counts)
                }
            }
            Purpose::Redirect => State::Decided(found, counts),
        }
    }
}

/// The end with an outcome that is no verdict.
fn failed(alloc: Global, outcome: Outcome) -> Result<State, AllocError>
    ensures { IfOk result (λ state. state ≡ Failed outcome) }
{
    Ok(State::Failed(Failure::new(alloc, outcome)?))
}

/// The outcome of a record that a term asked for. That there is none is an error of the term (RFC 7208, sections 5.2
/// and 6.1).
fn required(outcome: &Outcome, place: &Place) -> Result<Outcome, AllocError>
    ensures { IfOk result (λ required. required ≡ step.required place.now outcome.now) }
{
    match outcome {
        Outcome::Nothing(_) => Ok(Outcome::Perm(Cause::Missing, place.clone()?)),
        _ => outcome.clone(),
    }
}
