//! The mixed prefixes of a trie.
ghost use Rattle.std.specs.Prelude.{◌≡◌, map, IfOk};
ghost use Rattle.fewest_terms.specs.Leaves.{AreLeaves, verdict_at};
ghost use Rattle.fewest_terms.specs.Tables.{mixed_prefixes as mixed_in};

use crate::Row;
use crate::answer::sums_of;
use addr_bits::{Items, Prefix, Width};
use spf_grammar::Verdict;
use std::alloc::{AllocError, Global};

/// The prefixes of rows.
fn prefixes_from<W: Width>(alloc: Global, sums: &[Row<W>]) -> Result<Items<Prefix<W>>, AllocError>
    ensures { IfOk result (λ prefixes. prefixes ≡ map (λ r. r.prefix) sums.now) }
{
    let mut prefixes = Items::new(alloc);
    for &sum in sums {
        prefixes.push(sum.prefix)?;
    }
    Ok(prefixes)
}

/// The prefixes of which two addresses have different verdicts, by the leaves of a trie: each before those of its lower
/// half, and these before those of its upper half. The work grows with the leaves.
pub fn mixed_prefixes<W: Width>(
    alloc: Global,
    leaves: &[(Prefix<W>, Verdict)],
) -> Result<Items<Prefix<W>>, AllocError>
    requires leaves { AreLeaves W.BITS leaves.now }
    ensures { IfOk result (λ prefixes. prefixes ≡ mixed_in W.BITS (verdict_at W.BITS leaves.now) W.BITS 0) }
{
    let sums = sums_of(alloc, leaves)?;
    prefixes_from(alloc, &sums.rows)
}
