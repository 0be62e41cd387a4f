//! Writing one record of a chain.
ghost use Rattle.std.specs.Prelude.{◌≡◌, ◌<◌, ◌++◌, codes, flat_map, IfOk, OnOk};
ghost use Rattle.record_pack.specs.Records.{record_name, record_text, terms_text};
ghost use Rattle.zone_writer.specs.Fragment.{owner_text, quoted, record_line, strings_of};

use addr_bits::Bytes;
use itoa::Buffer;
use master_reader::MAX_STRING;
use record_pack::push_name;
use spf_grammar::{FlatTerm, write_flat};
use std::alloc::{AllocError, Global};

/// The version section and the terms of a record, in their written forms (RFC 7208, sections 4.5 and 4.6.1).
pub fn write_terms(alloc: Global, terms: &[FlatTerm]) -> Result<Bytes, AllocError>
    ensures { IfOk result (λ text. text ≡ terms_text terms.now) }
{
    let mut text = Bytes::new(alloc);
    text.extend_from_slice(b"v=spf1")?;
    for term in terms {
        text.push(b' ')?;
        text.extend_from_slice(write_flat(term).as_str().as_bytes())?;
    }
    Ok(text)
}

/// Appends the modifier that sends the reader on to the record of this number, which is not 0.
fn push_redirect(
    text: &mut Bytes,
    domain: &[u8],
    label: &[u8],
    index: u64,
) -> Result<(), AllocError>
    requires { 0 < index }
    ensures { OnOk result (text.new ≡ text.old ++ (codes " redirect=" ++ record_name domain.now label.now index)) }
{
    text.extend_from_slice(b" redirect=")?;
    push_name(text, domain, label, index)
}

/// The text of a record.
fn write_text(
    alloc: Global,
    terms: &[FlatTerm],
    domain: &[u8],
    label: &[u8],
    index: u64,
    last: bool,
) -> Result<Bytes, AllocError>
    requires { index < 11 }
    ensures { IfOk result (λ text. text ≡ record_text domain.now label.now terms.now index last) }
{
    let mut text = write_terms(alloc, terms)?;
    if !last {
        push_redirect(&mut text, domain, label, index + 1)?;
    }
    Ok(text)
}

/// Appends a character string between quotes, behind a space.
fn push_string(zone: &mut Bytes, string: &[u8]) -> Result<(), AllocError>
    ensures { OnOk result (zone.new ≡ zone.old ++ quoted string.now) }
{
    zone.extend_from_slice(b" \"")?;
    zone.extend_from_slice(string)?;
    zone.push(b'"')
}

/// Appends a text as character strings (RFC 1035, section 3.3.14), each between quotes and behind a space: of 255
/// octets each, the last of which may be shorter.
pub fn push_strings(zone: &mut Bytes, text: &[u8]) -> Result<(), AllocError>
    ensures { OnOk result (zone.new ≡ zone.old ++ flat_map quoted (strings_of text.now)) }
{
    let mut rest = text;
    while rest.len() > MAX_STRING {
        let (string, behind) = rest.split_at(MAX_STRING);
        push_string(zone, string)?;
        rest = behind;
    }
    push_string(zone, rest)
}

/// Appends the owner of a record.
fn push_owner(zone: &mut Bytes, label: &[u8], index: u64) -> Result<(), AllocError>
    ensures { OnOk result (zone.new ≡ zone.old ++ owner_text label.now index) }
{
    if index == 0 {
        return zone.push(b'@');
    }
    zone.extend_from_slice(label)?;
    zone.extend_from_slice(Buffer::new().format(index).as_bytes())
}

/// Appends the line of a record.
pub(crate) fn push_record(
    alloc: Global,
    zone: &mut Bytes,
    terms: &[FlatTerm],
    domain: &[u8],
    label: &[u8],
    index: u64,
    last: bool,
) -> Result<(), AllocError>
    requires { index < 11 }
    ensures { OnOk result (zone.new ≡ zone.old ++ record_line (owner_text label.now index)
        (record_text domain.now label.now terms.now index last)) }
{
    let text = write_text(alloc, terms, domain, label, index, last)?;
    push_owner(zone, label, index)?;
    zone.extend_from_slice(b" IN TXT")?;
    push_strings(zone, text.as_slice())?;
    zone.push(b'\n')
}
