//! Lending a zone beside the zones of its group.
ghost use Rattle.std.specs.Prelude.{◌≡◌, Ok, Err, OnOk, IfErr};
ghost use Rattle.dns_name.specs.Name.{IsName};
ghost use Rattle.zone_answers.specs.Lend.{AreLendable};
ghost use Rattle.loading.specs.Loading.{LendDue};
ghost use Rattle.loading.specs.Memory.{ErrorIs};

use crate::{OrMemory, Refusal};
use dns_name::Name;
use master_reader::Records;
use zone_answers::{LendFault, Zones};

/// Lends the records beside the zones before them, none of which has this origin: one that has is answered as want of
/// memory. Refused are more than 65,536 records in all, and an alias beside other records (RFC 1034, section 3.6.2).
pub fn lend(zones: &mut Zones, origin: &Name, records: Records) -> Result<(), OrMemory<Refusal>>
    requires { AreLendable origin.now records }
    ensures lent { OnOk result (LendDue zones.old origin.now records (Ok zones.new)) }
    ensures refused { IfErr result (ErrorIs (λ why. LendDue zones.old origin.now records (Err why))) }
{
    match zones.lend(origin.clone()?, records) {
        Ok(()) => Ok(()),
        Err(LendFault::TooMany { .. }) => Err(OrMemory::Error(Refusal::TooManyRecords {
            origin: origin.clone()?,
        })),
        Err(LendFault::AliasAndOther { name }) => {
            Err(OrMemory::Error(clash(origin.clone()?, name)))
        }
        // The words of no job have an origin twice in a group.
        Err(LendFault::SameOrigin | LendFault::Memory) => Err(OrMemory::Memory),
    }
}

/// The refusal of a zone with an alias beside other records at the name.
fn clash(origin: Name, name: Name) -> Refusal
    ensures legal { IsName name }
    ensures is { result ≡ Refusal.AliasAndOther origin name }
{
    // The checker takes from this that the name is legal.
    let _labels = name.label_count();
    Refusal::AliasAndOther { origin, name }
}
