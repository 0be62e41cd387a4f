//! What a trial tells.
ghost use Rattle.std.specs.Prelude.{◌≡◌, ◌+◌, length, IfOk, Some, None};
ghost use Rattle.policy_trial.specs.Trial.{LeastRecords};

use crate::generated::DOMAIN;
use fewest_terms::Shortest;
use record_pack::{PackFault, pack};
use spf_grammar::FlatTerm;
use std::alloc::{AllocError, Global};

/// What the names of the records behind the first begin with.
const LABEL: &[u8] = b"_spf";

/// What a record takes is less than this, in octets.
const SIZE: u32 = 1024;

/// What a trial tells.
#[derive(Clone, Copy, Debug, PartialEq, Eq)]
pub struct Summary {
    /// How many terms a shortest list has.
    pub fewest: u64,
    /// How many prefixes of both families are mixed: each is a row of the table.
    pub rows: u64,
    /// How many records the chosen list takes at least; `None` where it fits into none.
    pub records: Option<u64>,
}

/// How many records the list takes at least; `None` where no cut of it fits.
fn count_records(alloc: Global, list: &[FlatTerm]) -> Result<Option<u64>, AllocError>
    ensures { IfOk result (LeastRecords list.now) }
{
    match pack(alloc, list, DOMAIN, LABEL, SIZE, 0) {
        Ok(cut) => Ok(Some(cut.ends.len() as u64)),
        Err(PackFault::TooBig) => Ok(None),
        Err(PackFault::Memory) => Err(AllocError),
    }
}

/// The summary of a shortest list and its table.
pub(crate) fn summarize(alloc: Global, found: &Shortest) -> Result<Summary, AllocError>
    ensures fewest { IfOk result (λ summary. summary.fewest ≡ found.now.total) }
    ensures rows { IfOk result (λ summary. summary.rows ≡ length found.now.rows4 + length found.now.rows6) }
    ensures records { IfOk result (λ summary. LeastRecords found.now.list summary.records) }
{
    let records = count_records(alloc, found.list.as_slice())?;
    Ok(Summary {
        fewest: found.total,
        rows: found.rows4.as_slice().len() as u64 + found.rows6.as_slice().len() as u64,
        records,
    })
}
