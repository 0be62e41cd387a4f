//! Publishing the policy of a domain.
ghost use Rattle.std.specs.Prelude.{◌≡◌, Ok, Err, IfOk, IfErr};
ghost use Rattle.dns_name.specs.Name.{name_of_text};
ghost use Rattle.spf_model.specs.Result.{AreModest};
ghost use Rattle.spf_model.specs.Run.{says};
ghost use Rattle.symbolic_check.specs.Evaluation.{AreAsked};
ghost use Rattle.loading.specs.Memory.{ErrorIs};
ghost use Rattle.publishing.specs.Policy.{PolicyDue};

use crate::{ChainSettings, publish};
use addr_bits::Bytes;
use loading::{OrMemory, Refusal};
use policy_verdicts::policy_verdicts;
use spf_model::Limits;
use std::alloc::Global;
use zone_answers::{Questions, Zones};

/// The policy of a domain, published.
#[derive(Debug, Drop)]
pub struct Publication {
    /// The fragment.
    pub bytes: Bytes,
    /// Each question that check_host asks for some address, once, by the bytes of the printed name and then by A, AAAA,
    /// MX, TXT.
    pub asked: Questions,
}

/// The fragment for the domain over these zones, which are read under these limits, and the questions on which its
/// verdicts rest. Refused is first the least address
/// to which check_host gives no verdict (RFC 7208, section 4), and then what `publish` refuses.
pub fn publish_policy(
    alloc: Global,
    zones: &Zones,
    settings: &ChainSettings,
    limits: Limits,
) -> Result<Publication, OrMemory<Refusal>>
    requires named { name_of_text settings.now.domain.text ≡ Ok settings.now.domain.name }
    requires modest { AreModest limits }
    ensures written { IfOk result (λ found. PolicyDue settings.now limits zones.now (Ok found.bytes)) }
    ensures asked { IfOk result (λ found. AreAsked (says zones.now) limits settings.now.domain.text found.asked) }
    ensures refused { IfErr result (ErrorIs (λ why. PolicyDue settings.now limits zones.now (Err why))) }
{
    let found = policy_verdicts(alloc, zones, limits, settings.domain.text.as_slice())?;
    match publish(alloc, zones, settings, &found.tries) {
        Ok(bytes) => Ok(Publication {
            bytes,
            asked: found.asked,
        }),
        Err(why) => Err(why),
    }
}
