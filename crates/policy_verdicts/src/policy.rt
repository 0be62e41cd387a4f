//! The verdicts of a policy.
ghost use Rattle.std.specs.Prelude.{IsOk, IfOk, IfErr};
ghost use Rattle.dns_name.specs.Name.{name_of_text};
ghost use Rattle.spf_model.specs.Result.{AreModest};
ghost use Rattle.spf_model.specs.Run.{says};
ghost use Rattle.symbolic_check.specs.Evaluation.{AreAsked};
ghost use Rattle.policy_verdicts.specs.Policy.{IsPolicyFault, KeepVerdicts};

use spf_model::Limits;
use std::alloc::Global;
use symbolic_check::evaluate;
use verdict_map::{VerdictFault, VerdictTries, verdicts};
use zone_answers::{Questions, Zones};

/// The verdict of every address, and what its evaluation asks.
#[derive(Drop)]
pub struct PolicyVerdicts {
    /// The verdict at each address.
    pub tries: VerdictTries,
    /// Each question that the evaluation of some address asks, once, by the bytes of the printed name and then by A,
    /// AAAA, MX, TXT.
    pub asked: Questions,
}

/// The verdict that check_host (RFC 7208, section 4) gives each address over the lent zones, where it gives each one,
/// and the questions that these evaluations ask. The domain must be a legal name, and each limit at most 1,000.
/// `Refused` comes exactly where check_host gives some address no verdict, with the least such address, those of IPv4
/// first, and its outcome; `Memory` where there is no memory.
pub fn policy_verdicts(
    alloc: Global,
    zones: &Zones,
    limits: Limits,
    domain: &[u8],
) -> Result<PolicyVerdicts, VerdictFault>
    requires named { IsOk (name_of_text domain.now) }
    requires modest { AreModest limits }
    ensures kept { IfOk result (λ found. KeepVerdicts limits zones.now domain.now found.tries.v4 found.tries.v6) }
    ensures asked { IfOk result (λ found. AreAsked (says zones.now) limits domain.now found.asked) }
    ensures refused { IfErr result (IsPolicyFault limits zones.now domain.now) }
{
    let both = evaluate(alloc, zones, limits, domain)?;
    let tries = verdicts(&both.v4, &both.v6)?;
    Ok(PolicyVerdicts {
        tries,
        asked: both.asked,
    })
}
