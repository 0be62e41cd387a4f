//! The zone.
ghost use Rattle.std.specs.Prelude.{◌≡◌, ◌≤◌, ◌++◌, decimal, codes, IfOk, OnOk};
ghost use Rattle.spf_gen.specs.Generated.{behind_owner, include_text, includes_text, record_line, zone_text};

use crate::network::terms;
use addr_bits::Bytes;
use itoa::Buffer;
use std::alloc::{AllocError, Global};
use zone_writer::{push_strings, write_terms};

/// How many records the record at the top includes.
const RECORDS: u32 = 8;

/// Appends the term that includes the record at this place (RFC 7208, section 5.2).
fn push_include(text: &mut Bytes, place: u32) -> Result<(), AllocError>
    ensures { OnOk result (text.new ≡ text.old ++ include_text place) }
{
    text.extend_from_slice(b" include:n")?;
    text.extend_from_slice(Buffer::new().format(place).as_bytes())?;
    text.extend_from_slice(b".trial.example")
}

/// The text of the record at the top, which includes the others.
fn write_includes(alloc: Global) -> Result<Bytes, AllocError>
    ensures { IfOk result (λ text. text ≡ includes_text) }
{
    let mut text = Bytes::new(alloc);
    text.extend_from_slice(b"v=spf1")?;
    for place in 0..RECORDS {
        push_include(&mut text, place)?;
    }
    text.extend_from_slice(b" ~all")?;
    Ok(text)
}

/// Appends what stands behind the owner on the line of a TXT record (RFC 1035, section 5.1).
#[tactic(auto, unfolding(crate::specs::Generated::behind_owner))]
fn push_text(zone: &mut Bytes, text: &[u8]) -> Result<(), AllocError>
    ensures { OnOk result (zone.new ≡ zone.old ++ behind_owner text.now) }
{
    zone.extend_from_slice(b" TXT")?;
    push_strings(zone, text)?;
    zone.push(b'\n')
}

/// Appends the line of the record at this place.
#[tactic(auto, unfolding(crate::specs::Generated::record_line))]
fn push_record(
    alloc: Global,
    zone: &mut Bytes,
    start: u64,
    networks: u32,
    place: u32,
) -> Result<(), AllocError>
    ensures { OnOk result (zone.new ≡ zone.old ++ record_line start networks place) }
{
    let terms = terms(alloc, start, networks, place)?;
    let text = write_terms(alloc, terms.as_slice())?;
    zone.push(b'n')?;
    zone.extend_from_slice(Buffer::new().format(place).as_bytes())?;
    push_text(zone, text.as_slice())
}

/// A zone of `trial.example` as a master file (RFC 1035, section 5.1), made from a number: a record that includes eight
/// others, in which so many networks stand, from 1 to 10,000. For the same numbers it is the same.
pub fn generate(alloc: Global, start: u64, networks: u32) -> Result<Bytes, AllocError>
    requires some { 1 ≤ networks }
    requires few { networks ≤ 10000 }
    ensures { IfOk result (λ zone. zone ≡ zone_text start networks) }
{
    let mut zone = Bytes::new(alloc);
    zone.push(b'@')?;
    push_text(&mut zone, write_includes(alloc)?.as_slice())?;
    for place in 0..RECORDS {
        push_record(alloc, &mut zone, start, networks, place)?;
    }
    Ok(zone)
}
