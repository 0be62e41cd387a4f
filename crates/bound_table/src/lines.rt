//! Writing the lines of a table.
ghost use Rattle.std.specs.Prelude.{◌≡◌, ◌++◌, ◌∷◌, decimal, IfOk, OnOk};
ghost use Rattle.bound_table.specs.Lines.{needs_text, row_line, row_lines, table_text};

use addr_bits::{AddressFamily, Bytes};
use fewest_terms::{Needs, Rows};
use itoa::Buffer;
use std::alloc::{AllocError, Global};

/// Appends a number behind a space.
fn push_number(lines: &mut Bytes, number: u64) -> Result<(), AllocError>
    ensures { OnOk result (lines.new ≡ lines.old ++ 32 ∷ decimal number) }
{
    lines.push(b' ')?;
    lines.extend_from_slice(Buffer::new().format(number).as_bytes())
}

/// Appends the four numbers of a row.
fn push_needs(lines: &mut Bytes, needs: &Needs) -> Result<(), AllocError>
    ensures { OnOk result (lines.new ≡ lines.old ++ needs_text needs.now) }
{
    push_number(lines, needs.fail)?;
    push_number(lines, needs.softfail)?;
    push_number(lines, needs.pass)?;
    push_number(lines, needs.neutral)
}

/// Appends the line of a row.
fn push_row(lines: &mut Bytes, address: &str, len: u32, needs: &Needs) -> Result<(), AllocError>
    ensures { OnOk result (lines.new ≡ lines.old ++ row_line address.now len needs.now) }
{
    lines.extend_from_slice(b"; row ")?;
    lines.extend_from_slice(address.as_bytes())?;
    lines.push(b'/')?;
    lines.extend_from_slice(Buffer::new().format(len).as_bytes())?;
    push_needs(lines, needs)?;
    lines.push(b'\n')
}

/// Appends the lines of a family's rows.
fn push_rows<W: AddressFamily>(lines: &mut Bytes, rows: &Rows<W>) -> Result<(), AllocError>
    ensures { OnOk result (lines.new ≡ lines.old ++ row_lines W.family rows.now) }
{
    for row in rows.as_slice() {
        let address = row.prefix.start().write();
        push_row(lines, address.as_str(), row.prefix.len(), &row.needs)?;
    }
    Ok(())
}

/// The bytes with the lines of the table behind them.
pub fn append_table(
    mut bytes: Bytes,
    rows4: &Rows<u32>,
    rows6: &Rows<u128>,
    total: u64,
) -> Result<Bytes, AllocError>
    ensures { IfOk result (λ longer. longer ≡ bytes ++ table_text rows4.now rows6.now total) }
{
    push_rows(&mut bytes, rows4)?;
    push_rows(&mut bytes, rows6)?;
    bytes.extend_from_slice(b"; fewest ")?;
    bytes.extend_from_slice(Buffer::new().format(total).as_bytes())?;
    bytes.push(b'\n')?;
    Ok(bytes)
}

/// The lines of the table: one for each row, IPv4 before IPv6, and one for the total.
pub fn write_table(
    alloc: Global,
    rows4: &Rows<u32>,
    rows6: &Rows<u128>,
    total: u64,
) -> Result<Bytes, AllocError>
    ensures { IfOk result (λ lines. lines ≡ table_text rows4.now rows6.now total) }
{
    append_table(Bytes::new(alloc), rows4, rows6, total)
}
