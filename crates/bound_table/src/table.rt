//! Reading the table of a file.
ghost use Rattle.std.specs.Prelude.{◌≡◌, ◌∷◌, ◌++◌, ◌+◌, ◌<◌, ◌≢◌, [], length, IsTrue, List, ℕ, IfOk};
ghost use Rattle.std.specs.List.{list_any};
ghost use Rattle.bound_table.specs.Reading.{is_table_line as belongs, lines_of};
ghost use Rattle.bound_table.specs.Answers.{IsPushed, IsStep, IsTableAnswer};
ghost use Rattle.bound_table.specs.Placed.{HasRisingLines};

use crate::line::{read_row, read_total, split_before};
use addr_bits::{AddressFamily, Items, Width};
use fewest_terms::Row;
use std::alloc::{AllocError, Global};
use std::marker::Model;

/// A row, and the line of a file that it stands in.
pub struct LineRow<W: Width> {
    /// The line, counted from 1.
    pub line: u64,
    /// The row.
    pub row: Row<W>,
}

impl<W: Width> Model for LineRow<W> {
    ghost use Rattle.bound_table.specs.Placed.{PlacedRow};

    ghost Value = { PlacedRow };

    ghost view = { λ r. record { line = r.line; row = r.row } };

    ghost inverse = { λ r. record { line = r.line; row = r.row } };
}

impl<W: Width> Drop for LineRow<W> {
    fn drop(self) {
        let LineRow { line: _, row: _ } = self;
    }
}

/// A list of rows with their lines.
pub type LineRows<W> = Items<LineRow<W>>;

/// The table of a file.
#[derive(Drop)]
pub struct Table {
    /// The rows of IPv4, in the order of their lines.
    pub rows4: LineRows<u32>,
    /// Those of IPv6.
    pub rows6: LineRows<u128>,
    /// The number of the last line of the table.
    pub total: u64,
    /// That line, counted from 1.
    pub last: u64,
}

/// Why a file has no good table.
#[derive(Clone, Copy, PartialEq, Eq, Debug, thiserror::Error, Drop)]
pub enum TableFault {
    /// The first fault of the first round that finds one is at this line, counted from 1.
    #[error("no good table: line {line}")]
    NotTable {
        /// The line.
        line: u64,
    },
    /// There is no memory.
    #[error("out of memory")]
    Memory,
}

impl From<AllocError> for TableFault {
    ghost use Rattle.bound_table.specs.declared.table.TableFault.{TableFault};

    ghost from_gives = { λ _ fault. fault ≡ TableFault.Memory };

    fn from(_: AllocError) -> TableFault {
        TableFault::Memory
    }
}

/// Whether a line belongs to the table.
fn is_table_line(line: &[u8]) -> bool
    ensures { result ≡ belongs line.now }
{
    line.starts_with(b"; row ".as_slice()) || line.starts_with(b"; fewest ".as_slice())
}

/// The first line, and the lines behind it. Lines end at line feeds; a last one without a line feed is a line.
pub fn cut_line(lines: &[u8]) -> (&[u8], &[u8])
    requires { 0 < length lines.now }
    ensures lines { lines_of lines.now ≡ result.0.now ∷ lines_of result.1.now }
    ensures shorter { length result.1.now < length lines.now }
{
    let (line, rest) = split_before(lines, b'\n');
    match rest.split_first() {
        Some((_, behind)) => (line, behind),
        None => (line, rest),
    }
}

/// Whether a table line is among these lines.
fn has_table_line(lines: &[u8]) -> bool
    ensures { result ≡ list_any belongs (lines_of lines.now) }
{
    let mut rest = lines;
    while !rest.is_empty() {
        let (line, after) = cut_line(rest);
        if is_table_line(line) {
            return true;
        }
        rest = after;
    }
    false
}

/// Appends the row of this line, if it is that of a row of the family.
fn push_row<W: AddressFamily>(
    rows: &mut LineRows<W>,
    line: u64,
    text: &[u8],
) -> Result<bool, AllocError>
    ensures { IsPushed W.family line text.now rows.old rows.new result }
{
    let Some(row) = read_row(text) else {
        return Ok(false);
    };
    rows.push(LineRow { line, row })?;
    Ok(true)
}

/// Judges one line behind those that were judged, and appends its row, if it is that of a row. `Some` has the total of
/// the line that says it.
fn read_step(
    rows4: &mut LineRows<u32>,
    rows6: &mut LineRows<u128>,
    line: u64,
    text: &[u8],
) -> Result<Option<u64>, TableFault>
    ensures { IsStep line text.now rows4.old rows6.old rows4.new rows6.new result }
{
    if !is_table_line(text) {
        return Ok(None);
    }
    if push_row(rows4, line, text)? {
        return Ok(None);
    }
    if push_row(rows6, line, text)? {
        return Ok(None);
    }
    match read_total(text) {
        Some(total) => Ok(Some(total)),
        None => Err(TableFault::NotTable { line }),
    }
}

/// The table of a file: the first of three rounds, which judges how its lines are spelled, and that one line for the
/// total stands last. The work grows with the bytes.
pub fn read_table(alloc: Global, bytes: &[u8]) -> Result<Table, TableFault>
    ensures table { IsTableAnswer (lines_of bytes.now) result }
    ensures rising { IfOk result (λ t. HasRisingLines t.rows4 t.rows6 t.last) }
{
    let mut rows4 = LineRows::new(alloc);
    let mut rows6 = LineRows::new(alloc);
    let mut rest = bytes;
    let mut line: u64 = 0;
    while !rest.is_empty() {
        let (text, after) = cut_line(rest);
        rest = after;
        line += 1;
        match read_step(&mut rows4, &mut rows6, line, text) {
            Err(fault) => return Err(fault),
            Ok(None) => {}
            Ok(Some(_)) if has_table_line(rest) => return Err(TableFault::NotTable { line }),
            Ok(Some(total)) => {
                return Ok(Table {
                    rows4,
                    rows6,
                    total,
                    last: line,
                });
            }
        }
    }
    Err(TableFault::NotTable { line: line + 1 })
}
