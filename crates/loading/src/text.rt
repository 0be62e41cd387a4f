//! Lines that are printed.
ghost use Rattle.std.specs.Prelude.{◌≡◌, ◌++◌, ◌∷◌, IfOk, OnOk};
ghost use Rattle.loading.specs.Lines.{line_of, kind_word, fault_text, address_text};
ghost use Rattle.loading.specs.Lines.{bad_zone_line, bad_list_line, too_many_line, alias_and_other_line};
ghost use Rattle.loading.specs.Lines.{no_verdict_line, taken_line};
ghost use Rattle.loading.specs.Lines.{no_zone_line, other_verdict_line, no_table_line};

use addr_bits::{Address, Bytes, write_ip4, write_ip6};
use dns_name::Name;
use itoa::Buffer;
use master_reader::Kind;
use spf_model::{Outcome, write_cause};
use std::alloc::{AllocError, Global};

/// A line of these two parts.
pub fn line(alloc: Global, head: &str, tail: &[u8]) -> Result<Bytes, AllocError>
    ensures { IfOk result (λ bytes. bytes ≡ line_of head.now tail.now) }
{
    let mut bytes = Bytes::new(alloc);
    bytes.extend_from_slice(head.as_bytes())?;
    bytes.extend_from_slice(tail)?;
    bytes.push(b'\n')?;
    Ok(bytes)
}

/// Appends a part behind a space.
pub fn push_part(bytes: &mut Bytes, part: &[u8]) -> Result<(), AllocError>
    ensures { OnOk result (bytes.new ≡ bytes.old ++ 32 ∷ part.now) }
{
    bytes.push(b' ')?;
    bytes.extend_from_slice(part)
}

/// The name of a kind of fault.
fn kind_word(kind: Kind) -> &'static str
    ensures { result.now ≡ kind_word kind }
{
    match kind {
        Kind::OpenQuote => "OpenQuote",
        Kind::OpenParen => "OpenParen",
        Kind::StrayParen => "StrayParen",
        Kind::BadEscape => "BadEscape",
        Kind::NoOwner => "NoOwner",
        Kind::BadName => "BadName",
        Kind::BadTtl => "BadTtl",
        Kind::Class => "Class",
        Kind::NoType => "NoType",
        Kind::BadData => "BadData",
        Kind::LongText => "LongText",
        Kind::Include => "Include",
        Kind::Dname => "Dname",
        Kind::TypeNumber => "TypeNumber",
        Kind::UnknownDirective => "UnknownDirective",
    }
}

/// Appends where the first fault of a file is, and of which kind.
fn push_fault(bytes: &mut Bytes, number: u64, kind: Kind) -> Result<(), AllocError>
    ensures { OnOk result (bytes.new ≡ bytes.old ++ fault_text number kind) }
{
    bytes.extend_from_slice(Buffer::new().format(number).as_bytes())?;
    push_part(bytes, kind_word(kind).as_bytes())
}

/// The line of a file that has no reading.
pub(crate) fn bad_zone(
    alloc: Global,
    file: &[u8],
    number: u64,
    kind: Kind,
) -> Result<Bytes, AllocError>
    ensures { IfOk result (λ bytes. bytes ≡ bad_zone_line file.now number kind) }
{
    let mut tail = Bytes::new(alloc);
    tail.extend_from_slice(file)?;
    tail.push(b' ')?;
    push_fault(&mut tail, number, kind)?;
    line(alloc, "bad zone ", tail.as_slice())
}

/// The line of a file that is no kept list.
pub(crate) fn bad_list(alloc: Global, file: &[u8], number: u64) -> Result<Bytes, AllocError>
    ensures { IfOk result (λ bytes. bytes ≡ bad_list_line file.now number) }
{
    let mut tail = Bytes::new(alloc);
    tail.extend_from_slice(file)?;
    push_part(&mut tail, Buffer::new().format(number).as_bytes())?;
    line(alloc, "bad list ", tail.as_slice())
}

/// The line of a zone with which the records are too many.
pub(crate) fn too_many(alloc: Global, origin: &Name) -> Result<Bytes, AllocError>
    ensures { IfOk result (λ bytes. bytes ≡ too_many_line origin.now) }
{
    line(alloc, "too many records ", &origin.write_text(alloc)?)
}

/// The line of a zone that has an alias beside other records at the name.
pub(crate) fn alias_and_other(
    alloc: Global,
    origin: &Name,
    name: &Name,
) -> Result<Bytes, AllocError>
    ensures { IfOk result (λ bytes. bytes ≡ alias_and_other_line origin.now name.now) }
{
    let mut tail = Bytes::new(alloc);
    tail.extend_from_slice(&origin.write_text(alloc)?)?;
    push_part(&mut tail, &name.write_text(alloc)?)?;
    line(alloc, "alias and other ", tail.as_slice())
}

/// Appends an address in its written form.
pub fn push_address(bytes: &mut Bytes, address: Address) -> Result<(), AllocError>
    ensures { OnOk result (bytes.new ≡ bytes.old ++ address_text address) }
{
    match address {
        Address::V4(number) => bytes.extend_from_slice(write_ip4(number).as_str().as_bytes()),
        Address::V6(number) => bytes.extend_from_slice(write_ip6(number).as_str().as_bytes()),
    }
}

/// The line of an address that has no verdict.
pub(crate) fn no_verdict(
    alloc: Global,
    address: Address,
    outcome: &Outcome,
) -> Result<Bytes, AllocError>
    ensures { IfOk result (λ bytes. bytes ≡ no_verdict_line address outcome.now) }
{
    let mut tail = Bytes::new(alloc);
    push_address(&mut tail, address)?;
    push_part(&mut tail, write_cause(alloc, outcome)?.as_slice())?;
    line(alloc, "refused ", tail.as_slice())
}

/// The line of a record whose name is taken.
pub(crate) fn taken(alloc: Global, number: u64, name: &[u8]) -> Result<Bytes, AllocError>
    ensures { IfOk result (λ bytes. bytes ≡ taken_line number name.now) }
{
    let mut tail = Bytes::new(alloc);
    tail.extend_from_slice(Buffer::new().format(number).as_bytes())?;
    push_part(&mut tail, name)?;
    line(alloc, "refused taken ", tail.as_slice())
}

/// The line of a file that has no reading, which is to be verified.
pub(crate) fn no_zone(alloc: Global, number: u64, kind: Kind) -> Result<Bytes, AllocError>
    ensures { IfOk result (λ bytes. bytes ≡ no_zone_line number kind) }
{
    let mut tail = Bytes::new(alloc);
    push_fault(&mut tail, number, kind)?;
    line(alloc, "no zone ", tail.as_slice())
}

/// The line of an address that has another verdict.
pub(crate) fn other_verdict(alloc: Global, address: Address) -> Result<Bytes, AllocError>
    ensures { IfOk result (λ bytes. bytes ≡ other_verdict_line address) }
{
    let mut tail = Bytes::new(alloc);
    push_address(&mut tail, address)?;
    line(alloc, "no verdict ", tail.as_slice())
}

/// The line of a table that is no good table.
pub(crate) fn no_table(alloc: Global, number: u64) -> Result<Bytes, AllocError>
    ensures { IfOk result (λ bytes. bytes ≡ no_table_line number) }
{
    line(alloc, "no table ", Buffer::new().format(number).as_bytes())
}

/// A copy of the bytes.
pub fn copied(alloc: Global, bytes: &[u8]) -> Result<Bytes, AllocError>
    ensures { IfOk result (λ copy. copy ≡ bytes.now) }
{
    let mut copy = Bytes::new(alloc);
    copy.extend_from_slice(bytes)?;
    Ok(copy)
}
