//! The verdicts of several policies.
ghost use Rattle.std.specs.Prelude.{IfOk, IfErr};
ghost use Rattle.spf_model.specs.Result.{AreModest};
ghost use Rattle.job_join.specs.Verdicts.{AreNamed, IsFirstFault, KeepAll};

use policy_join::VerdictsList;
use policy_verdicts::policy_verdicts;
use spf_model::Limits;
use spfc_words::Domain;
use std::alloc::Global;
use verdict_map::VerdictFault;
use zone_answers::Zones;

/// The verdicts that check_host (RFC 7208, section 4) gives every address for each domain, in order. Refused is the
/// first domain for which it gives some address none.
pub(crate) fn verdicts_of_all(
    alloc: Global,
    zones: &Zones,
    limits: Limits,
    domains: &[Domain],
) -> Result<VerdictsList, VerdictFault>
    requires named { AreNamed domains.now }
    requires modest { AreModest limits }
    ensures kept { IfOk result (KeepAll limits zones.now domains.now) }
    ensures refused { IfErr result (IsFirstFault limits zones.now domains.now) }
{
    let mut all = VerdictsList::new(alloc);
    for domain in domains {
        let found = policy_verdicts(alloc, zones, limits, domain.text.as_slice())?;
        all.push(found.tries)?;
    }
    Ok(all)
}
