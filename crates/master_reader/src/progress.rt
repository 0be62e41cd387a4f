//! What the entries so far came to.
ghost use Rattle.std.specs.Prelude.{◌≡◌, ◌++◌, IfErr, OnOk};
ghost use Rattle.master_reader.specs.Reading.{IsFaulty, records_kept};
ghost use Rattle.master_reader.specs.Refusals.{RefusalIs};
ghost use Rattle.master_reader.specs.Progress.{context_of, Takes, FaultAt};

use crate::data::body_of;
use crate::fault::{Refusal, ZoneFault};
use crate::meaning::{Ask, ask_of};
use crate::record::{Body, Record, Records};
use dns_name::Name;
use master_lex::Entry;
use std::alloc::{AllocError, Global};

/// What the entries so far came to: the origin, where a directive stated another than the zone's, the last owner, and
/// the records.
#[derive(Drop, Debug)]
pub(crate) struct Progress {
    pub(crate) alloc: Global,
    pub(crate) zone: Name,
    pub(crate) origin: Option<Name>,
    pub(crate) owner: Option<Name>,
    pub(crate) records: Records,
}

/// Appends a record, unless its owner is outside the zone.
fn keep_record(
    records: &mut Records,
    zone: &Name,
    owner: &Name,
    body: Body,
) -> Result<(), AllocError>
    ensures { OnOk result (records.new ≡ records.old ++ records_kept zone.now
        (record { owner = owner.now; body = body })) }
{
    if owner.under(zone) {
        let owner = owner.clone()?;
        records.push(Record { owner, body })?;
    }
    Ok(())
}

impl Progress {
    /// Takes what an entry asks for.
    fn add(&mut self, entry: &Entry) -> Result<(), Refusal>
        ensures taken { OnOk result (Takes self.old entry.now self.new) }
        ensures faulty { IfErr result (RefusalIs (IsFaulty (context_of self.old) entry.now)) }
    {
        let origin = self.origin.as_ref().unwrap_or(&self.zone);
        match ask_of(origin, self.owner.as_ref(), entry)? {
            Ask::Record {
                owner,
                kind,
                content,
            } => {
                let body = body_of(self.alloc, origin, kind, content)?;
                keep_record(&mut self.records, &self.zone, &owner, body)?;
                self.owner = Some(owner);
            }
            Ask::Origin(name) => self.origin = Some(name),
            Ask::Nothing => {}
        }
        Ok(())
    }

    /// Takes an entry. `Bad` names its line and its fault.
    pub(crate) fn take(&mut self, entry: &Entry) -> Result<(), ZoneFault>
        ensures taken { OnOk result (Takes self.old entry.now self.new) }
        ensures bad { IfErr result (FaultAt (context_of self.old) entry.now) }
    {
        match self.add(entry) {
            Ok(()) => Ok(()),
            Err(Refusal::Faulty(kind)) => Err(ZoneFault::Bad {
                line: entry.line,
                kind,
            }),
            Err(Refusal::Memory) => Err(ZoneFault::Memory),
        }
    }
}
