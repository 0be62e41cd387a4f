//! The walk that writes the chosen terms.
ghost use Rattle.std.specs.Prelude.{◌≡◌, ◌+◌, ◌≤◌, ◌++◌, length, map, IfOk};
ghost use Rattle.fewest_terms.specs.Chosen.{term_for};
ghost use Rattle.fewest_terms.specs.Leaves.{BeginAt, SumsBeginAt, leaves_at, ruled_row, sums_at, terms_at};

use crate::{Row, Rows};
use addr_bits::{Prefix, Width};
use spf_grammar::Verdict;
use std::alloc::{AllocError, Global};

/// A place in the leaves, and in the sums.
#[derive(Clone, Copy)]
pub(crate) struct Place {
    pub leaf: usize,
    pub row: usize,
}

/// Appends the term of a prefix, whose addresses have a verdict otherwise: none, where that is the term's.
fn push_term<W: Width>(
    terms: &mut Vec<(Prefix<W>, Verdict)>,
    prefix: Prefix<W>,
    verdict: Verdict,
    had: Verdict,
) -> Result<(), AllocError>
    ensures { IfOk result (λ _. terms.new.items ≡ terms.old.items ++ term_for prefix verdict had) }
{
    if verdict == had {
        return Ok(());
    }
    terms.push((prefix, verdict))?;
    Ok(())
}

/// Appends the terms of the prefix of this length that begins at a place, where its addresses have a verdict
/// otherwise, and answers the place after it. A sum is what the halves of a mixed prefix need together.
pub(crate) fn choose<W: Width>(
    leaves: &[(Prefix<W>, Verdict)],
    sums: &[Row<W>],
    at: Place,
    len: u32,
    had: Verdict,
    terms: &mut Vec<(Prefix<W>, Verdict)>,
) -> Result<Place, AllocError>
    requires len_in { len ≤ W.BITS }
    requires begins { BeginAt W.BITS leaves.now at.leaf len }
    requires sums_begin { SumsBeginAt W.BITS leaves.now at.leaf len sums.now at.row }

    ensures leaf { IfOk result (λ end. end.leaf ≡ at.leaf + length (leaves_at W.BITS leaves.now at.leaf len)) }
    ensures row { IfOk result (λ end. end.row ≡ at.row + length (sums_at W.BITS leaves.now at.leaf len)) }
    ensures terms { IfOk result (λ _. terms.new.items ≡ terms.old.items ++ terms_at W.BITS leaves.now at.leaf len had) }
{
    let leaf = leaves[at.leaf];
    if leaf.0.len() == len {
        push_term(terms, leaf.0, leaf.1, had)?;
        return Ok(Place {
            leaf: at.leaf + 1,
            row: at.row,
        });
    }
    let sum = sums[at.row];
    let verdict = sum.needs.passed_down(had);
    let low = Place {
        leaf: at.leaf,
        row: at.row + 1,
    };
    let high = choose(leaves, sums, low, len + 1, verdict, terms)?;
    let end = choose(leaves, sums, high, len + 1, verdict, terms)?;
    push_term(terms, sum.prefix, verdict, had)?;
    Ok(end)
}

/// The rows of needs, from what the halves need together.
pub(crate) fn rows_from<W: Width>(alloc: Global, sums: &[Row<W>]) -> Result<Rows<W>, AllocError>
    ensures { IfOk result (λ rows. rows ≡ map ruled_row sums.now) }
{
    let mut rows = Rows::new(alloc);
    for &sum in sums {
        rows.push(Row {
            prefix: sum.prefix,
            needs: sum.needs.under_rule(),
        })?;
    }
    Ok(rows)
}
