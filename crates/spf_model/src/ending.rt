//! The outcome of an evaluation, small.
ghost use Rattle.std.specs.Prelude.{◌≡◌, IfOk};
ghost use Rattle.spf_model.specs.declared.outcome.Outcome.TheVariants.{Is};
ghost use Rattle.spf_model.specs.Endings.{verdict_in};

use crate::{Failure, Outcome};
use spf_grammar::Verdict;
use std::alloc::AllocError;
use std::marker::Model;

/// An outcome, of which one that is no verdict stands in memory of its own: tries hold an outcome for each prefix.
#[derive(Drop)]
pub struct Ending {
    kept: Result<Verdict, Failure>,
}

impl Model for Ending {
    ghost use Rattle.spf_model.specs.declared.outcome.Outcome.{Outcome};

    ghost Value = { Outcome };

    ghost use Rattle.spf_model.specs.Endings.{outcome_in};

    ghost view = { λ ending. outcome_in ending.kept };
}

/// A clone has the same outcome.
impl Clone for Ending {
    ghost use Rattle.std.specs.Prelude.{◌≡◌};

    ghost is_clone = { λ ending copy. copy ≡ ending };

    fn clone(&self) -> Result<Self, AllocError> {
        match &self.kept {
            Ok(verdict) => Ok(Ending { kept: Ok(*verdict) }),
            Err(failure) => Ok(Ending {
                kept: Err(failure.clone()?),
            }),
        }
    }
}

impl PartialEq for Ending {
    ghost use Rattle.spf_model.specs.contracts.outcome.OutcomePartialEq.TheImpl.Laws.{laws-law};

    ghost eq = { ⟦<Outcome as PartialEq>⟧.eq };

    ghost laws = { laws-law };

    fn eq(&self, other: &Self) -> bool {
        match (&self.kept, &other.kept) {
            (Ok(verdict), Ok(other)) => verdict == other,
            (Ok(verdict), Err(other)) => Outcome::Is(*verdict) == *other.outcome(),
            (Err(failure), Ok(verdict)) => *failure.outcome() == Outcome::Is(*verdict),
            (Err(failure), Err(other)) => failure == other,
        }
    }
}

impl Eq for Ending {
    ghost use Rattle.spf_model.specs.contracts.outcome.OutcomeEq.TheImpl.Laws.{laws-law};

    ghost laws = { laws-law };
}

impl Ending {
    /// The end with a verdict.
    pub fn of_verdict(verdict: Verdict) -> Ending
        ensures { result ≡ Is verdict }
    {
        Ending { kept: Ok(verdict) }
    }

    /// The end with an outcome that stands in memory of its own.
    pub fn of_failure(failure: Failure) -> Ending
        ensures { result ≡ failure }
    {
        Ending { kept: Err(failure) }
    }

    /// The verdict, where the outcome is one.
    pub fn verdict(&self) -> Option<Verdict>
        ensures { result ≡ verdict_in self.now }
    {
        match &self.kept {
            Ok(verdict) => Some(*verdict),
            Err(failure) => match failure.outcome() {
                Outcome::Is(verdict) => Some(*verdict),
                _ => None,
            },
        }
    }

    /// The outcome itself.
    pub fn outcome(&self) -> Result<Outcome, AllocError>
        ensures { IfOk result (λ outcome. outcome ≡ self.now) }
    {
        match &self.kept {
            Ok(verdict) => Ok(Outcome::Is(*verdict)),
            Err(failure) => failure.outcome().clone(),
        }
    }
}
