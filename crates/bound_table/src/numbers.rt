//! The third round in which a table is judged: its numbers.
ghost use Rattle.std.specs.Prelude.{ℕ, ◌≡◌, ◌+◌, ◌≤◌, ◌↔◌, length, drop, min, IsTrue};
ghost use Rattle.spf_grammar.specs.declared.verdict.Verdict.{Verdict};
ghost use Rattle.fewest_terms.specs.Leaves.{AreLeaves, BeginAt, leaves_at, verdict_at};
ghost use Rattle.fewest_terms.specs.Needs.{at_mixed};
ghost use Rattle.fewest_terms.specs.Tables.{claimed, mixed_prefixes, number};
ghost use Rattle.bound_table.specs.Judging.{claimed_at, mixed_at, prefixes_of};
ghost use Rattle.bound_table.specs.Judging.{AreInOrder, IsFirstWrong, IsMiscountedAnswer, RowsBeginAt};
ghost use Rattle.bound_table.specs.Parts.{AreSmall};
ghost use Rattle.bound_table.specs.Placed.{rows_of, HasRisingLines};

use crate::check::check_row;
use crate::table::{LineRow, Table};
use addr_bits::{Prefix, Width};
use fewest_terms::Needs;
use spf_grammar::Verdict;

/// The largest number of a table.
const LARGEST: u64 = 0xffff_ffff;

/// A place in the leaves, and in the rows.
#[derive(Clone, Copy)]
struct Place {
    leaf: usize,
    row: usize,
}

/// Where the walk goes on, what the rows claim that the prefix needs, and the first line of a row with wrong numbers.
#[derive(Clone, Copy)]
struct Judged {
    next: Place,
    claims: Needs,
    fault: Option<u64>,
}

/// Whether each number is at most 4,294,967,295.
fn are_small(needs: &Needs) -> bool
    ensures { IsTrue result ↔ AreSmall needs.now }
{
    let failing = needs.fail.max(needs.softfail);
    let other = needs.pass.max(needs.neutral);
    failing.max(other) <= LARGEST
}

/// The numbers, and in place of a larger one 4,294,967,295.
fn capped(needs: &Needs) -> Needs
    ensures { (c : Verdict) → number result c ≡ min (number needs.now c) 4294967295 }
{
    Needs {
        fail: needs.fail.min(LARGEST),
        softfail: needs.softfail.min(LARGEST),
        pass: needs.pass.min(LARGEST),
        neutral: needs.neutral.min(LARGEST),
    }
}

/// Whether a row keeps the row rule, with what the rows claim of the halves, and has no number that is too large.
fn keeps(row: &Needs, low: &Needs, high: &Needs) -> bool
    ensures { IsTrue result ↔ (((c : Verdict) → number row.now c ≤ at_mixed
        (λ x. number low.now x + number high.now x) c) × AreSmall row.now) }
{
    are_small(row) && check_row(row, &capped(low), &capped(high))
}

/// Judges the rows of the prefix of this length that begins at a place.
fn judge<W: Width>(
    leaves: &[(Prefix<W>, Verdict)],
    rows: &[LineRow<W>],
    at: Place,
    len: u32,
) -> Judged
    requires len_in { len ≤ W.BITS }
    requires begins { BeginAt W.BITS leaves.now at.leaf len }
    requires rows_begin { RowsBeginAt W.BITS leaves.now at.leaf len rows.now at.row }
    ensures leaf { result.next.leaf ≡ at.leaf + length (leaves_at W.BITS leaves.now at.leaf len) }
    ensures row { result.next.row ≡ at.row + length (mixed_at W.BITS leaves.now at.leaf len) }
    ensures claims { (c : Verdict) → number result.claims c
        ≡ claimed_at W.BITS leaves.now at.leaf len (drop at.row rows.now) c }
    ensures fault { IsFirstWrong W.BITS (verdict_at W.BITS leaves.now) rows.now at.row result.next.row result.fault }
{
    let leaf = leaves[at.leaf];
    if leaf.0.len() == len {
        let next = Place {
            leaf: at.leaf + 1,
            row: at.row,
        };
        return Judged {
            next,
            claims: Needs::of_one(leaf.1),
            fault: None,
        };
    }
    let placed = &rows[at.row];
    let row = &placed.row;
    let below = Place {
        leaf: at.leaf,
        row: at.row + 1,
    };
    let low = judge(leaves, rows, below, len + 1);
    let high = judge(leaves, rows, low.next, len + 1);
    let fault = if keeps(&row.needs, &low.claims, &high.claims) {
        low.fault.or(high.fault)
    } else {
        Some(placed.line)
    };
    Judged {
        next: high.next,
        claims: row.needs,
        fault,
    }
}

/// Judges all rows of one family.
fn judge_all<W: Width>(leaves: &[(Prefix<W>, Verdict)], rows: &[LineRow<W>]) -> Judged
    requires leaves { AreLeaves W.BITS leaves.now }
    requires places { prefixes_of rows.now ≡ mixed_prefixes W.BITS (verdict_at W.BITS leaves.now) W.BITS 0 }
    ensures claims { (c : Verdict) → number result.claims c
        ≡ claimed (verdict_at W.BITS leaves.now) W.BITS 0 (rows_of rows.now) c }
    ensures fault { IsFirstWrong W.BITS (verdict_at W.BITS leaves.now) rows.now 0 (length rows.now) result.fault }
{
    judge(leaves, rows, Place { leaf: 0, row: 0 }, 0)
}

/// The first table line with wrong numbers: that of a row which breaks the row rule or has a number that is too large,
/// and where there is none, that of a total which is not what the rows claim, or is too large.
pub(crate) fn miscounted_line(
    t: &Table,
    leaves4: &[(Prefix<u32>, Verdict)],
    leaves6: &[(Prefix<u128>, Verdict)],
) -> Option<u64>
    requires leaves4 { AreLeaves 32 leaves4.now }
    requires leaves6 { AreLeaves 128 leaves6.now }
    requires rising { HasRisingLines t.now.rows4 t.now.rows6 t.now.last }
    requires order { AreInOrder (mixed_prefixes 32 (verdict_at 32 leaves4.now) 32 0)
        (mixed_prefixes 128 (verdict_at 128 leaves6.now) 128 0) t.now.rows4 t.now.rows6 }
    ensures { IsMiscountedAnswer (verdict_at 32 leaves4.now) (verdict_at 128 leaves6.now) t.now result }
{
    let four = judge_all(leaves4, t.rows4.as_slice());
    if four.fault.is_some() {
        return four.fault;
    }
    let six = judge_all(leaves6, t.rows6.as_slice());
    if six.fault.is_some() {
        return six.fault;
    }
    if t.total <= LARGEST && t.total == four.claims.plus(six.claims).total() {
        None
    } else {
        Some(t.last)
    }
}
