//! Whether a list gives each address its verdict.
ghost use Rattle.std.specs.Prelude.{◌≡◌, ◌≢◌, ◌<◌, ◌^◌, ℕ, false, IfOk, IfSome, IfNone, IsSomeAnd, MatchBool};
ghost use Rattle.std.specs.Prelude.{MatchOption, OnOk, Some, if◌then◌else◌};
ghost use Rattle.addr_bits.specs.Address.{address_of};
ghost use Rattle.prefix_trie.specs.Leaves.{CoverInOrder, value_at};
ghost use Rattle.spf_grammar.specs.Flat.{covers, first};
ghost use Rattle.cert_checker.specs.Likeness.{AllAlike, AreAlike, Differs, IsFirstUnlike, IsLeastTrue, IsLeastUnlike};
ghost use Rattle.cert_checker.specs.Likeness.{is_in_part};

use addr_bits::{Address, Prefix, Width};
use prefix_trie::TrieMap;
use spf_grammar::{FlatTerm, Net, NetworkFamily, Verdict};
use std::alloc::{AllocError, Global};
use verdict_map::VerdictTries;

/// The prefix of the family's addresses that a network has, if it has any.
fn part_of<W: NetworkFamily>(net: Net) -> Option<Prefix<W>>
    ensures { (a : ℕ) → a < 2 ^ W.BITS → covers net (address_of W.family a) ≡ is_in_part W.BITS result a }
{
    W::part(net)
}

/// Gives each address of a prefix the verdict.
fn set_part<W: Width>(
    found: &mut TrieMap<W, Verdict>,
    part: Option<Prefix<W>>,
    verdict: Verdict,
) -> Result<(), AllocError>
    ensures { OnOk result ((a : ℕ) → a < 2 ^ W.BITS
        → value_at W.BITS found.new a ≡ (if is_in_part W.BITS part a then Some
        verdict else value_at W.BITS found.old a)) }
{
    match part {
        Some(prefix) => found.set(prefix, verdict),
        None => Ok(()),
    }
}

/// Gives each address of a term's network its verdict.
fn set_term<W: NetworkFamily>(
    found: &mut TrieMap<W, Verdict>,
    term: &FlatTerm,
) -> Result<(), AllocError>
    ensures { OnOk result ((a : ℕ) → a < 2 ^ W.BITS
        → value_at W.BITS found.new a ≡ (if covers term.now.net (address_of W.family a) then Some
        term.now.verdict else value_at W.BITS found.old a)) }
{
    set_part(found, part_of(term.net), term.verdict)
}

/// At each address the verdict that the list gives it (RFC 7208, sections 4.6.2 and 4.7).
fn first_verdicts<W: NetworkFamily>(
    alloc: Global,
    list: &[FlatTerm],
) -> Result<TrieMap<W, Verdict>, AllocError>
    ensures { IfOk result (λ found. (a : ℕ) → a < 2 ^ W.BITS
        → value_at W.BITS found a ≡ Some (first list.now (address_of W.family a))) }
{
    let mut found = TrieMap::whole(alloc, Verdict::Neutral)?;
    for i in (0..list.len()).rev() {
        set_term(&mut found, &list[i])?;
    }
    Ok(found)
}

/// Whether two verdicts differ.
fn differ(one: Verdict, other: Verdict) -> bool
    ensures { Differs one other result }
{
    one != other
}

/// At each address whether the verdicts of two tries differ there.
fn differences<W: Width>(
    alloc: Global,
    due: &TrieMap<W, Verdict>,
    given: &TrieMap<W, Verdict>,
) -> Result<TrieMap<W, bool>, AllocError>
    ensures differs { IfOk result (λ found. (a : ℕ) → a < 2 ^ W.BITS
        → IsSomeAnd (value_at W.BITS due.now a) (λ v. IsSomeAnd (value_at W.BITS given.now a)
        (λ w. IsSomeAnd (value_at W.BITS found a) (Differs v w)))) }
    ensures covers { IfOk result (λ _. CoverInOrder W.BITS 0 (2 ^ W.BITS) due.now) }
{
    TrieMap::combine(alloc, due, given, |one, other| Ok(differ(*one, *other)))
}

/// The least address where the trie has true.
fn least_true<W: Width>(found: &TrieMap<W, bool>) -> Option<W>
    ensures found { IfSome result (λ a. IsLeastTrue W.BITS found.now (W.number a)) }
    ensures none { IfNone result ((a : ℕ) → a < 2 ^ W.BITS → value_at W.BITS found.now a ≡ Some false) }
{
    found.least_where(|value| *value)
}

/// The least address of a family to which the list gives another verdict than stands there.
fn least_unlike<W: NetworkFamily>(
    alloc: Global,
    due: &TrieMap<W, Verdict>,
    list: &[FlatTerm],
) -> Result<Option<W>, AllocError>
    ensures found { IfOk result (λ least. IfSome least
        (λ a. IsLeastUnlike W.family W.BITS due.now list.now (W.number a))) }
    ensures none { IfOk result (λ least. IfNone least (AreAlike W.family W.BITS due.now list.now)) }
    ensures covers { IfOk result (λ _. CoverInOrder W.BITS 0 (2 ^ W.BITS) due.now) }
{
    let given = first_verdicts(alloc, list)?;
    let found = differences(alloc, due, &given)?;
    Ok(least_true(&found))
}

/// The least address, those of IPv4 first, to which the list gives another verdict than stands there.
pub(crate) fn first_unlike(
    alloc: Global,
    due: &VerdictTries,
    list: &[FlatTerm],
) -> Result<Option<Address>, AllocError>
    ensures { IfOk result (λ found. MatchOption found (AllAlike due.now list.now) (IsFirstUnlike due.now list.now)) }
{
    if let Some(number) = least_unlike(alloc, &due.v4, list)? {
        return Ok(Some(Address::V4(number)));
    }
    match least_unlike(alloc, &due.v6, list)? {
        Some(number) => Ok(Some(Address::V6(number))),
        None => Ok(None),
    }
}
