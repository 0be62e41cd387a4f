//! Whether the records of a chain fit, and are the fewest.
ghost use Rattle.std.specs.Prelude.{◌≤◌, ◌↔◌, length, IsTrue, IfOk, IfErr};
ghost use Rattle.std.specs.List.{concat};
ghost use Rattle.spf_model.specs.Check.{text_of};
ghost use Rattle.cert_checker.specs.Forms.{TextFits, TextsFit};
ghost use Rattle.cert_checker.specs.Judging.{AreFewest, IsRecordsNo, IsShorterAnswer};

use crate::No;
use addr_bits::Bytes;
use master_reader::{Body, Record};
use record_pack::{PackFault, name_len, pack};
use spf_grammar::FlatTerm;
use std::alloc::{AllocError, Global};

/// Whether the strings together have at most so many octets.
fn are_within(strings: &[Bytes], room: u64) -> bool
    ensures { IsTrue result ↔ (length (concat strings.now) ≤ room) }
{
    let mut left = room;
    for string in strings {
        match left.checked_sub(string.len() as u64) {
            None => return false,
            Some(rest) => left = rest,
        }
    }
    true
}

/// Whether the record of this number takes less than the size with the text that it has (RFC 7208, section 3.4), where
/// `others` are the octets of the other texts at the domain.
fn fits_as_it_is(
    candidate: &Record,
    number: u32,
    domain: &[u8],
    label: &[u8],
    size: u32,
    others: u64,
) -> bool
    requires few { number ≤ 10 }
    ensures { IsTrue result ↔ TextFits domain.now label.now size others number (text_of candidate.now.body) }
{
    let Body::Txt(strings) = &candidate.body else {
        return false;
    };
    let others = if number == 0 { others } else { 0 };
    let taken = name_len(domain, label, number)
        .saturating_add(others)
        .saturating_add(1);
    match u64::from(size).checked_sub(taken) {
        Some(room) => are_within(strings.as_slice(), room),
        None => false,
    }
}

/// Whether each record takes less than the size with the text that it has.
fn all_fit(records: &[Record], domain: &[u8], label: &[u8], size: u32, others: u64) -> bool
    requires few { length records.now ≤ 11 }
    ensures { IsTrue result ↔ TextsFit domain.now label.now size others 0 records.now }
{
    let mut number = 0;
    for candidate in records {
        if !fits_as_it_is(candidate, number, domain, label, size, others) {
            return false;
        }
        number += 1;
    }
    true
}

/// Whether a cut of the list with fewer records fits.
fn has_shorter_cut(
    alloc: Global,
    list: &[FlatTerm],
    records: usize,
    domain: &[u8],
    label: &[u8],
    size: u32,
    others: u64,
) -> Result<bool, AllocError>
    ensures { IfOk result (IsShorterAnswer domain.now label.now size others list.now records) }
{
    match pack(alloc, list, domain, label, size, others) {
        Ok(cut) => Ok(cut.ends.len() < records),
        Err(PackFault::TooBig) => Ok(false),
        Err(PackFault::Memory) => Err(AllocError),
    }
}

/// Refuses records of which one does not fit with the text that it has, or of whose list a cut with fewer records fits.
pub(crate) fn judge_records(
    alloc: Global,
    records: &[Record],
    list: &[FlatTerm],
    domain: &[u8],
    label: &[u8],
    size: u32,
    others: u64,
) -> Result<(), No>
    requires few { length records.now ≤ 11 }
    ensures fewest { IfOk result (λ _. AreFewest domain.now label.now size others records.now list.now) }
    ensures fault { IfErr result (IsRecordsNo domain.now label.now size others records.now list.now) }
{
    if !all_fit(records, domain, label, size, others) {
        return Err(No::Records);
    }
    if has_shorter_cut(alloc, list, records.len(), domain, label, size, others)? {
        return Err(No::Records);
    }
    Ok(())
}
