//! Writing the whole fragment.
ghost use Rattle.std.specs.Prelude.{◌≡◌, ◌++◌, length, IfOk, OnOk};
ghost use Rattle.record_pack.specs.Records.{IsCut, pieces_from};
ghost use Rattle.zone_writer.specs.Fragment.{fragment_text, head_text, record_lines};

use crate::record::push_record;
use addr_bits::Bytes;
use bound_table::append_table;
use fewest_terms::Shortest;
use itoa::Buffer;
use record_pack::Cut;
use spf_grammar::FlatTerm;
use std::alloc::{AllocError, Global};

/// The lines that give the origin and the TTL, in seconds.
fn write_head(alloc: Global, domain: &[u8], ttl: u32) -> Result<Bytes, AllocError>
    ensures { IfOk result (λ zone. zone ≡ head_text domain.now ttl) }
{
    let mut zone = Bytes::new(alloc);
    zone.extend_from_slice(b"$ORIGIN ")?;
    zone.extend_from_slice(domain)?;
    zone.extend_from_slice(b".\n$TTL ")?;
    zone.extend_from_slice(Buffer::new().format(ttl).as_bytes())?;
    zone.push(b'\n')?;
    Ok(zone)
}

/// Appends the lines of the records.
fn push_records(
    alloc: Global,
    zone: &mut Bytes,
    list: &[FlatTerm],
    ends: &[usize],
    domain: &[u8],
    label: &[u8],
) -> Result<(), AllocError>
    requires { IsCut (length list.now) ends.now }
    ensures { OnOk result (zone.new ≡ zone.old ++ record_lines domain.now label.now 0
        (pieces_from list.now 0 ends.now)) }
{
    let mut from = 0;
    for (index, end) in ends.iter().enumerate() {
        let last = index + 1 == ends.len();
        push_record(
            alloc,
            zone,
            &list[from..*end],
            domain,
            label,
            index as u64,
            last,
        )?;
        from = *end;
    }
    Ok(())
}

/// The fragment: the records of a cut of the list as a master file (RFC 1035, section 5.1) with this TTL, in seconds,
/// and the lines of the table.
pub fn fragment(
    alloc: Global,
    found: &Shortest,
    cut: &Cut,
    domain: &[u8],
    label: &[u8],
    ttl: u32,
) -> Result<Bytes, AllocError>
    requires { IsCut (length found.now.list) cut.now.ends }
    ensures { IfOk result (λ zone. zone ≡ fragment_text domain.now label.now ttl found.now.list cut.now.ends
        found.now.rows4 found.now.rows6 found.now.total) }
{
    let mut zone = write_head(alloc, domain, ttl)?;
    push_records(
        alloc,
        &mut zone,
        found.list.as_slice(),
        cut.ends.as_slice(),
        domain,
        label,
    )?;
    append_table(zone, &found.rows4, &found.rows6, found.total)
}
