//! The second round in which a table is judged: the places of its lines.
ghost use Rattle.std.specs.Prelude.{◌≡◌, ◌↔◌, IsTrue};
ghost use Rattle.bound_table.specs.Judging.{AgreeAt, IsMisplacedAnswer};
ghost use Rattle.bound_table.specs.Placed.{line_at as line_of_row, HasRisingLines};

use crate::table::{LineRow, Table};
use addr_bits::{Prefix, Width};

/// The line of a family's row at this place, and that of the total where there is none.
fn line_at<W: Width>(rows: &[LineRow<W>], last: u64, at: usize) -> u64
    ensures { result ≡ line_of_row rows.now last at }
{
    match rows.get(at) {
        Some(row) => row.line,
        None => last,
    }
}

/// Whether two prefixes are the same.
fn is_same<W: Width>(a: Prefix<W>, b: Prefix<W>) -> bool
    ensures { IsTrue result ↔ (a ≡ b) }
{
    a.len() == b.len() && a.start() == b.start()
}

/// Whether at this place there is a row, and a mixed prefix which is the row's.
fn agree<W: Width>(rows: &[LineRow<W>], mixed: &[Prefix<W>], at: usize) -> bool
    ensures { IsTrue result ↔ AgreeAt rows.now mixed.now at }
{
    match (rows.get(at), mixed.get(at)) {
        (Some(placed), Some(prefix)) => {
            let row = &placed.row;
            is_same(row.prefix, *prefix)
        }
        _ => false,
    }
}

/// The first table line that is not the one which must stand there: the rows of IPv4 are those of its mixed prefixes, in
/// their order, those of IPv6 follow, and the total is the last line.
pub(crate) fn misplaced_line(
    t: &Table,
    mixed4: &[Prefix<u32>],
    mixed6: &[Prefix<u128>],
) -> Option<u64>
    requires rising { HasRisingLines t.now.rows4 t.now.rows6 t.now.last }
    ensures { IsMisplacedAnswer mixed4.now mixed6.now t.now.rows4 t.now.rows6 t.now.last result }
{
    let rows4 = t.rows4.as_slice();
    let rows6 = t.rows6.as_slice();
    let mut at4 = 0;
    let mut at6 = 0;
    while at4 < rows4.len() || at6 < rows6.len() {
        let line4 = line_at(rows4, t.last, at4);
        let line6 = line_at(rows6, t.last, at6);
        if line4 < line6 {
            if !agree(rows4, mixed4, at4) {
                return Some(line4);
            }
            at4 += 1;
        } else {
            if at4 < mixed4.len() || !agree(rows6, mixed6, at6) {
                return Some(line6);
            }
            at6 += 1;
        }
    }
    if at4 == mixed4.len() && at6 == mixed6.len() {
        None
    } else {
        Some(t.last)
    }
}
