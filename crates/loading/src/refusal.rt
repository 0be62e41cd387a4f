//! Why a job is refused: the status and the line of each refusal, for all jobs, at this one place.
ghost use Rattle.std.specs.Prelude.{◌≡◌, IfOk};
ghost use Rattle.loading.specs.Refusals.{refusal_status, refusal_line, denial_line};

use crate::text::{
    alias_and_other, bad_list, bad_zone, line, no_table, no_verdict, no_zone, other_verdict, taken,
    too_many,
};
use addr_bits::{Address, Bytes};
use dns_name::Name;
use master_reader::Kind;
use spf_model::Outcome;
use std::alloc::{AllocError, Global};

/// Why a job is refused.
#[derive(Debug, Drop)]
pub enum Refusal {
    /// There is no such file.
    NoFile { file: Bytes },
    /// The file has more than 8,388,608 bytes.
    LongFile { file: Bytes },
    /// The file is no master file (RFC 1035, section 5.1): its first fault is of this kind, in the entry that begins on
    /// this line, counted from 1.
    BadZone { file: Bytes, line: u64, kind: Kind },
    /// With the zone of this origin there are more than 65,536 records.
    TooManyRecords { origin: Name },
    /// In the zone of this origin an alias stands beside other records at the name (RFC 1034, section 3.6.2).
    AliasAndOther { origin: Name, name: Name },
    /// The least address to which check_host gives no verdict, and its outcome (RFC 7208, section 4).
    NoVerdict { address: Address, outcome: Outcome },
    /// A CNAME record stands at the domain.
    Alias { domain: Bytes },
    /// Something stands at or below the name of this record, counted from 0 at the domain.
    Taken { number: u64, name: Bytes },
    /// The list fits into no records.
    TooBig,
    /// The file is no kept list: this line, counted from 1, is the first that is not as such a list has it.
    BadList { file: Bytes, line: u64 },
    /// The file does not show that its records are right and fewest.
    Denied(Denial),
}

/// Why a file does not show that its records give each address its verdict, by the fewest terms in the fewest records:
/// in this order, each where none before it holds.
#[derive(Debug, Drop)]
pub enum Denial {
    /// The file is no master file (RFC 1035, section 5.1): its first fault is of this kind, in the entry that begins on
    /// this line, counted from 1.
    NoZone { line: u64, kind: Kind },
    /// Its records do not have the form of a chain.
    NoChain,
    /// The least address to which its list gives another verdict than check_host (RFC 7208, section 4).
    NoVerdict { address: Address },
    /// Its table is no good table: the line that is named, counted from 1.
    NoTable { line: u64 },
    /// Its list has another number of terms than its table shows.
    NoTerms,
    /// One of its records does not fit, or a cut of its list with fewer records does.
    NoRecords,
}

impl Refusal {
    /// The status with which the program ends.
    pub fn status(&self) -> u8
        ensures { result ≡ refusal_status self.now }
    {
        match self {
            Refusal::NoVerdict { .. } | Refusal::Alias { .. } | Refusal::Taken { .. } => 1,
            Refusal::TooBig => 2,
            Refusal::NoFile { .. }
            | Refusal::LongFile { .. }
            | Refusal::BadZone { .. }
            | Refusal::TooManyRecords { .. }
            | Refusal::AliasAndOther { .. }
            | Refusal::BadList { .. } => 3,
            Refusal::Denied(_) => 8,
        }
    }

    /// The line on standard error.
    pub fn line(&self, alloc: Global) -> Result<Bytes, AllocError>
        ensures { IfOk result (λ line. line ≡ refusal_line self.now) }
    {
        match self {
            Refusal::NoFile { file } => line(alloc, "no file ", file.as_slice()),
            Refusal::LongFile { file } => line(alloc, "long file ", file.as_slice()),
            Refusal::BadZone {
                file,
                line: number,
                kind,
            } => bad_zone(alloc, file.as_slice(), *number, *kind),
            Refusal::TooManyRecords { origin } => too_many(alloc, origin),
            Refusal::AliasAndOther { origin, name } => alias_and_other(alloc, origin, name),
            Refusal::NoVerdict { address, outcome } => no_verdict(alloc, *address, outcome),
            Refusal::Alias { domain } => line(alloc, "refused alias ", domain.as_slice()),
            Refusal::Taken { number, name } => taken(alloc, *number, name.as_slice()),
            Refusal::TooBig => line(alloc, "too big", b""),
            Refusal::BadList { file, line: number } => bad_list(alloc, file.as_slice(), *number),
            Refusal::Denied(denial) => denial.line(alloc),
        }
    }
}

impl Denial {
    /// The line on standard error.
    fn line(&self, alloc: Global) -> Result<Bytes, AllocError>
        ensures { IfOk result (λ line. line ≡ denial_line self.now) }
    {
        match self {
            Denial::NoZone { line: number, kind } => no_zone(alloc, *number, *kind),
            Denial::NoChain => line(alloc, "no chain", b""),
            Denial::NoVerdict { address } => other_verdict(alloc, *address),
            Denial::NoTable { line: number } => no_table(alloc, *number),
            Denial::NoTerms => line(alloc, "no terms", b""),
            Denial::NoRecords => line(alloc, "no records", b""),
        }
    }
}
