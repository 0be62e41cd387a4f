//! A row of directives with networks or `all` (RFC 7208, sections 5.1 and 5.6), as one trie.
ghost use Rattle.std.specs.Prelude.{◌≡◌, ◌<◌, ◌^◌, ℕ, IfOk, OnOk, Some, if◌then◌else◌};
ghost use Rattle.addr_bits.specs.Address.{address_of};
ghost use Rattle.prefix_trie.specs.Leaves.{value_at};
ghost use Rattle.symbolic_check.specs.Networks.{network_covers, first_network, with_first, is_in};

use addr_bits::{Prefix, Width};
use prefix_trie::TrieMap;
use spf_grammar::{Mechanism, NetworkFamily, Term, Verdict};
use std::alloc::{AllocError, Global};

/// The prefix of the family's addresses that a mechanism has by `all`, `ip4` or `ip6`, if it has any.
fn part_of<W: NetworkFamily>(mechanism: &Mechanism) -> Option<Prefix<W>>
    ensures { (a : ℕ) → a < 2 ^ W.BITS → network_covers mechanism.now (address_of W.family a) ≡ is_in W.BITS result a }
{
    W::part(mechanism.net()?)
}

/// Gives each address of a network the verdict.
fn set_network<W: Width>(
    found: &mut TrieMap<W, Option<Verdict>>,
    network: Option<Prefix<W>>,
    verdict: Verdict,
) -> Result<(), AllocError>
    ensures { OnOk result ((a : ℕ) → a < 2 ^ W.BITS
        → value_at W.BITS found.new a ≡ (if is_in W.BITS network a then Some
        (Some verdict) else value_at W.BITS found.old a)) }
{
    match network {
        Some(prefix) => found.set(prefix, Some(verdict)),
        None => Ok(()),
    }
}

/// Gives each address of a directive's network its verdict.
fn set_term<W: NetworkFamily>(
    found: &mut TrieMap<W, Option<Verdict>>,
    term: &Term,
) -> Result<(), AllocError>
    ensures { OnOk result ((a : ℕ) → a < 2 ^ W.BITS
        → value_at W.BITS found.new a ≡ with_first term.now (address_of W.family a) (value_at W.BITS found.old a)) }
{
    match term {
        Term::Directive(verdict, mechanism) => set_network(found, part_of(mechanism), *verdict),
        _ => Ok(()),
    }
}

/// At each address the verdict of the first of these directives whose network has it.
pub(crate) fn first_networks<W: NetworkFamily>(
    alloc: Global,
    terms: &[Term],
) -> Result<TrieMap<W, Option<Verdict>>, AllocError>
    ensures { IfOk result (λ found. (a : ℕ) → a < 2 ^ W.BITS
        → value_at W.BITS found a ≡ Some (first_network terms.now (address_of W.family a))) }
{
    let mut found = TrieMap::whole(alloc, None)?;
    for i in (0..terms.len()).rev() {
        set_term(&mut found, &terms[i])?;
    }
    Ok(found)
}
