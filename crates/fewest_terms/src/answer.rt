//! A shortest list, its total and its rows.
ghost use Rattle.std.specs.Prelude.{ℕ, ◌≡◌, ◌<◌, ◌≤◌, ◌^◌, ◌++◌, List, length, map, IfOk};
ghost use Rattle.spf_grammar.specs.declared.verdict.Verdict.{Verdict};
ghost use Rattle.addr_bits.specs.declared.address.Address.TheVariants as address;
ghost use Rattle.spf_grammar.specs.declared.flat.FlatTerm.{FlatTerm};
ghost use Rattle.spf_grammar.specs.Families.{HavePrefixes};
ghost use Rattle.spf_grammar.specs.Flat.{first};
ghost use Rattle.spf_grammar.specs.Lists.{IsSame};
ghost use Rattle.fewest_terms.specs.Needs.{need};
ghost use Rattle.fewest_terms.specs.Tables.{need_rows, number};
ghost use Rattle.fewest_terms.specs.Totals.{total as total_of_both};
ghost use Rattle.fewest_terms.specs.Chosen.{all_term, chosen, chosen_list, flat};
ghost use Rattle.fewest_terms.specs.Leaves.{AreLeaves, sum_rows, verdict_at};

use crate::choose::{Place, choose, rows_from};
use crate::walk::walk;
use crate::{FlatList, Needs, Row, Rows};
use addr_bits::{Prefix, Width};
use prefix_trie::TrieMap;
use spf_grammar::{FlatTerm, Net, NetworkFamily, Verdict};
use std::alloc::{AllocError, Global};

/// A shortest list, with what shows that none is shorter.
#[derive(Drop)]
pub struct Shortest {
    /// The needs of the mixed prefixes of IPv4, each before those of its lower half, and these before those of its
    /// upper half.
    pub rows4: Rows<u32>,
    /// Those of IPv6.
    pub rows6: Rows<u128>,
    /// How many terms the list has.
    pub total: u64,
    /// The list.
    pub list: FlatList,
}

/// What the halves of each mixed prefix need together, and what all addresses of the family need.
#[derive(Drop)]
pub(crate) struct Sums<W: Width> {
    pub rows: Vec<Row<W>>,
    pub needs: Needs,
}

/// Walks over all leaves of a trie.
pub(crate) fn sums_of<W: Width>(
    alloc: Global,
    leaves: &[(Prefix<W>, Verdict)],
) -> Result<Sums<W>, AllocError>
    requires leaves { AreLeaves W.BITS leaves.now }
    ensures rows { IfOk result (λ sums. sums.rows.items ≡ sum_rows W.BITS (verdict_at W.BITS leaves.now) W.BITS 0) }
    ensures needs { IfOk result (λ sums. (c : Verdict)
        → number sums.needs c ≡ need (verdict_at W.BITS leaves.now) W.BITS 0 c) }
    ensures fits { IfOk result (λ sums. (c : Verdict) → number sums.needs c < 2 ^ 63) }
{
    let mut rows = Vec::new(alloc);
    let walked = walk(leaves, 0, 0, &mut rows)?;
    Ok(Sums {
        rows,
        needs: walked.needs,
    })
}

/// The chosen terms of one family, whose addresses have a verdict otherwise.
fn terms_of<W: Width>(
    alloc: Global,
    leaves: &[(Prefix<W>, Verdict)],
    sums: &[Row<W>],
    had: Verdict,
) -> Result<Vec<(Prefix<W>, Verdict)>, AllocError>
    requires leaves { AreLeaves W.BITS leaves.now }
    requires sums { sums.now ≡ sum_rows W.BITS (verdict_at W.BITS leaves.now) W.BITS 0 }
    ensures { IfOk result (λ terms. terms.items ≡ chosen W.BITS (verdict_at W.BITS leaves.now) W.BITS 0 had) }
{
    let mut terms = Vec::new(alloc);
    choose(leaves, sums, Place { leaf: 0, row: 0 }, 0, had, &mut terms)?;
    Ok(terms)
}

/// Appends the terms of one family.
fn push_terms<W: NetworkFamily>(
    list: &mut FlatList,
    terms: &[(Prefix<W>, Verdict)],
) -> Result<(), AllocError>
    ensures { IfOk result (λ _. list.new ≡ list.old ++ map (flat W.family) terms.now) }
{
    for (prefix, verdict) in terms {
        list.push(FlatTerm {
            verdict: *verdict,
            net: W::net(prefix),
        })?;
    }
    Ok(())
}

/// Appends `all` with a verdict, and nothing for neutral.
fn push_all(list: &mut FlatList, verdict: Verdict) -> Result<(), AllocError>
    ensures { IfOk result (λ _. list.new ≡ list.old ++ all_term verdict) }
{
    match verdict {
        Verdict::Neutral => Ok(()),
        verdict => {
            list.push(FlatTerm {
                verdict,
                net: Net::All,
            })?;
            Ok(())
        }
    }
}

/// The chosen list, its total and its rows, from the leaves.
fn fewest_of_leaves(
    alloc: Global,
    leaves4: &[(Prefix<u32>, Verdict)],
    leaves6: &[(Prefix<u128>, Verdict)],
) -> Result<Shortest, AllocError>
    requires leaves4 { AreLeaves 32 leaves4.now }
    requires leaves6 { AreLeaves 128 leaves6.now }
    ensures rows4 { IfOk result (λ found. found.rows4 ≡ need_rows 32 (verdict_at 32 leaves4.now) 32 0) }
    ensures rows6 { IfOk result (λ found. found.rows6 ≡ need_rows 128 (verdict_at 128 leaves6.now) 128 0) }
    ensures total { IfOk result (λ found. found.total ≡ total_of_both (verdict_at 32 leaves4.now)
        (verdict_at 128 leaves6.now)) }
    ensures list { IfOk result (λ found. found.list ≡ chosen_list (verdict_at 32 leaves4.now)
        (verdict_at 128 leaves6.now)) }
{
    let four = sums_of(alloc, leaves4)?;
    let six = sums_of(alloc, leaves6)?;
    let both = four.needs.plus(six.needs);
    let verdict = both.verdict_of_all();
    let terms4 = terms_of(alloc, leaves4, &four.rows, verdict)?;
    let terms6 = terms_of(alloc, leaves6, &six.rows, verdict)?;
    let mut list = FlatList::new(alloc);
    push_terms(&mut list, &terms4)?;
    push_terms(&mut list, &terms6)?;
    push_all(&mut list, verdict)?;
    Ok(Shortest {
        rows4: rows_from(alloc, &four.rows)?,
        rows6: rows_from(alloc, &six.rows)?,
        total: both.total(),
        list,
    })
}

/// The fewest terms that give each address of both families the verdict that its trie has there: a list, how many
/// terms it has, and the needs by which anyone can see that no list is shorter. The work grows with the leaves.
pub fn fewest(
    alloc: Global,
    v4: &TrieMap<u32, Verdict>,
    v6: &TrieMap<u128, Verdict>,
) -> Result<Shortest, AllocError>
    ensures rows4 { IfOk result (λ found. found.rows4 ≡ need_rows 32 (verdict_at 32 v4.now) 32 0) }
    ensures rows6 { IfOk result (λ found. found.rows6 ≡ need_rows 128 (verdict_at 128 v6.now) 128 0) }
    ensures total { IfOk result (λ found. found.total ≡ total_of_both (verdict_at 32 v4.now) (verdict_at 128 v6.now)) }
    ensures list { IfOk result (λ found. found.list ≡ chosen_list (verdict_at 32 v4.now) (verdict_at 128 v6.now)) }

    ensures same { IfOk result (λ found. IsSame (verdict_at 32 v4.now) (verdict_at 128 v6.now) found.list) }
    ensures shortest { IfOk result (λ found.
        (other : List FlatTerm) → IsSame (verdict_at 32 v4.now) (verdict_at 128 v6.now) other
        → length found.list ≤ length other) }
    ensures counted { IfOk result (λ found. found.total ≡ length found.list) }

    ensures prefixes { IfOk result (λ found. HavePrefixes found.list) }
    ensures gives4 { IfOk result (λ found. (a : ℕ) → a < 2 ^ 32
        → first found.list (address.V4 a) ≡ verdict_at 32 v4.now a) }
    ensures gives6 { IfOk result (λ found. (a : ℕ) → a < 2 ^ 128
        → first found.list (address.V6 a) ≡ verdict_at 128 v6.now a) }
{
    let leaves4 = v4.leaves()?;
    let leaves6 = v6.leaves()?;
    let found = fewest_of_leaves(alloc, leaves4.as_slice(), leaves6.as_slice())?;
    Ok(found)
}
