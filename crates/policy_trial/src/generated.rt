//! The zone that a number makes, lent.
ghost use Rattle.std.specs.Prelude.{◌≡◌, ◌≤◌, [], IfOk};
ghost use Rattle.master_reader.specs.Reading.{Reads};
ghost use Rattle.zone_answers.specs.Lend.{AreLendable, IsLent, with_zone};
ghost use Rattle.policy_trial.specs.Trial.{HasReading, IsTrialZone, trial_name};

use dns_name::Name;
use master_reader::{Records, ZoneFault, read_zone};
use spf_gen::generate;
use std::alloc::{AllocError, Global};
use zone_answers::{LendFault, Zones};

/// The domain of a trial, which is the origin of its zone.
pub(crate) const DOMAIN: &[u8] = b"trial.example";

/// The name that the domain writes.
fn origin() -> Name
    ensures { result ≡ trial_name }
{
    Name::from_text(DOMAIN).unwrap()
}

/// The records of a master file that has a reading (RFC 1035, section 5).
fn read_records(alloc: Global, origin: &Name, bytes: &[u8]) -> Result<Records, AllocError>
    requires { HasReading origin.now bytes.now }
    ensures { IfOk result (Reads origin.now bytes.now) }
{
    match read_zone(alloc, origin, bytes) {
        Ok(records) => Ok(records),
        Err(ZoneFault::Bad { .. }) => unreachable!(),
        Err(ZoneFault::Memory) => Err(AllocError),
    }
}

/// Records that may be lent alone, lent.
fn lend_alone(alloc: Global, origin: Name, records: Records) -> Result<Zones, AllocError>
    requires lendable { AreLendable origin records }
    requires lent { IsLent [] origin records }
    ensures { IfOk result (λ zones. zones ≡ with_zone [] origin records) }
{
    let mut zones = Zones::new(alloc);
    match zones.lend(origin, records) {
        Ok(()) => Ok(zones),
        Err(LendFault::Memory) => Err(AllocError),
        Err(LendFault::SameOrigin | LendFault::TooMany { .. } | LendFault::AliasAndOther { .. }) =>
            unreachable!(),
    }
}

/// The zone with so many networks that the number makes, lent.
pub(crate) fn lend_generated(alloc: Global, start: u64, networks: u32) -> Result<Zones, AllocError>
    requires some { 1 ≤ networks }
    requires few { networks ≤ 10000 }
    ensures { IfOk result (IsTrialZone start networks) }
{
    let bytes = generate(alloc, start, networks)?;
    let origin = origin();
    let records = read_records(alloc, &origin, bytes.as_slice())?;
    lend_alone(alloc, origin, records)
}
