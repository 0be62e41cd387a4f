//! The trial.
ghost use Rattle.std.specs.Prelude.{◌≤◌, IfOk};
ghost use Rattle.spf_model.specs.Check.{receiver_limits};
ghost use Rattle.policy_verdicts.specs.Policy.{KeepVerdicts};
ghost use Rattle.policy_trial.specs.Trial.{TrialDue, trial_text};
ghost use Rattle.policy_trial.specs.Verdicts.{HaveVerdicts};

use crate::Summary;
use crate::generated::{DOMAIN, lend_generated};
use crate::summary::summarize;
use fewest_terms::fewest;
use policy_verdicts::policy_verdicts;
use spf_model::Limits;
use std::alloc::{AllocError, Global};
use verdict_map::{VerdictFault, VerdictTries};
use zone_answers::Zones;

/// The limits of a mail receiver (RFC 7208, section 4.6.4).
const LIMITS: Limits = Limits {
    lookups: 10,
    voids: 2,
    exchanges: 10,
};

/// The verdicts of a policy that gives each address one.
fn all_verdicts(alloc: Global, zones: &Zones) -> Result<VerdictTries, AllocError>
    requires { HaveVerdicts zones.now }
    ensures { IfOk result (λ tries. KeepVerdicts receiver_limits zones.now trial_text tries.v4 tries.v6) }
{
    match policy_verdicts(alloc, zones, LIMITS, DOMAIN) {
        Ok(found) => Ok(found.tries),
        Err(VerdictFault::Refused { .. }) => unreachable!(),
        Err(VerdictFault::Memory) => Err(AllocError),
    }
}

/// What the policy of `trial.example` comes to over the zone that the number makes, with so many networks, from 1 to
/// 10,000: for the verdicts that check_host (RFC 7208, section 4) gives every address under the limits of a mail
/// receiver, how many terms a shortest list has, how many rows its table, and how many records of less than 1,024
/// octets it takes. Nothing is refused: the zone has a reading, may be lent, and gives each address a verdict.
pub fn run_trial(alloc: Global, start: u64, networks: u32) -> Result<Summary, AllocError>
    requires some { 1 ≤ networks }
    requires few { networks ≤ 10000 }
    ensures { IfOk result (TrialDue start networks) }
{
    let zones = lend_generated(alloc, start, networks)?;
    let tries = all_verdicts(alloc, &zones)?;
    let shortest = fewest(alloc, &tries.v4, &tries.v6)?;
    let summary = summarize(alloc, &shortest)?;
    Ok(summary)
}
