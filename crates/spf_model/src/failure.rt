//! Outcomes that stand apart, so that what holds many of them is small.
ghost use Rattle.std.specs.Prelude.{◌≡◌, IfOk};

use crate::Outcome;
use std::alloc::{AllocError, Global};
use std::marker::Model;

/// An outcome in memory of its own, since its name may have 255 octets.
#[derive(Drop)]
pub struct Failure {
    outcome: Box<Outcome>,
}

impl Model for Failure {
    ghost use Rattle.spf_model.specs.declared.outcome.Outcome.{Outcome};

    ghost Value = { Outcome };

    ghost view = { λ failure. failure.outcome.value };
}

/// A clone has the same outcome.
impl Clone for Failure {
    ghost use Rattle.std.specs.Prelude.{◌≡◌};

    ghost is_clone = { λ failure copy. copy ≡ failure };

    fn clone(&self) -> Result<Self, AllocError> {
        let outcome = self.outcome.clone()?;
        Ok(Failure { outcome })
    }
}

impl PartialEq for Failure {
    ghost use Rattle.spf_model.specs.contracts.outcome.OutcomePartialEq.TheImpl.Laws.{laws-law};

    ghost eq = { ⟦<Outcome as PartialEq>⟧.eq };

    ghost laws = { laws-law };

    fn eq(&self, other: &Self) -> bool {
        self.outcome == other.outcome
    }
}

impl Eq for Failure {
    ghost use Rattle.spf_model.specs.contracts.outcome.OutcomeEq.TheImpl.Laws.{laws-law};

    ghost laws = { laws-law };
}

impl Failure {
    /// The outcome, in memory of its own.
    pub fn new(alloc: Global, outcome: Outcome) -> Result<Failure, AllocError>
        ensures { IfOk result (λ failure. failure ≡ outcome) }
    {
        let outcome = Box::new(alloc, outcome)?;
        Ok(Failure { outcome })
    }

    /// The outcome.
    pub fn outcome(&self) -> &Outcome
        ensures { result.now ≡ self.now }
    {
        &self.outcome
    }
}
