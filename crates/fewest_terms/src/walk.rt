//! The walk over the leaves of a trie.
ghost use Rattle.std.specs.Prelude.{◌≡◌, ◌+◌, ◌≤◌, ◌++◌, length, IfOk};
ghost use Rattle.spf_grammar.specs.declared.verdict.Verdict.{Verdict};
ghost use Rattle.fewest_terms.specs.Tables.{number};
ghost use Rattle.fewest_terms.specs.Leaves.{BeginAt, leaves_at, need_at, sums_at};

use crate::{Needs, Row};
use addr_bits::{Prefix, Width};
use spf_grammar::Verdict;
use std::alloc::AllocError;

/// Where the walk goes on, and what the prefix needs.
#[derive(Clone, Copy)]
pub(crate) struct Walked {
    pub next: usize,
    pub needs: Needs,
}

/// Walks over the leaves of the prefix of this length that begins at a leaf, and appends, for each mixed prefix among
/// them, what its halves need together.
pub(crate) fn walk<W: Width>(
    leaves: &[(Prefix<W>, Verdict)],
    from: usize,
    len: u32,
    sums: &mut Vec<Row<W>>,
) -> Result<Walked, AllocError>
    requires len_in { len ≤ W.BITS }
    requires begins { BeginAt W.BITS leaves.now from len }

    ensures next { IfOk result (λ w. w.next ≡ from + length (leaves_at W.BITS leaves.now from len)) }
    ensures needs { IfOk result (λ w. (c : Verdict) → number w.needs c ≡ need_at W.BITS leaves.now from len c) }
    ensures sums { IfOk result (λ _. sums.new.items ≡ sums.old.items ++ sums_at W.BITS leaves.now from len) }
{
    let leaf = leaves[from];
    if leaf.0.len() == len {
        return Ok(Walked {
            next: from + 1,
            needs: Needs::of_one(leaf.1),
        });
    }
    let prefix = Prefix::new(leaf.0.start(), len);
    let place = sums.len();
    sums.push(Row {
        prefix,
        needs: Needs::of_one(leaf.1),
    })?;
    let low = walk(leaves, from, len + 1, sums)?;
    let high = walk(leaves, low.next, len + 1, sums)?;
    let needs = low.needs.plus(high.needs);
    sums[place] = Row { prefix, needs };
    Ok(Walked {
        next: high.next,
        needs: needs.under_rule(),
    })
}
