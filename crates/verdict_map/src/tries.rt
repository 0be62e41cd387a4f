//! Verdicts from outcomes.
ghost use Rattle.std.specs.Prelude.{◌≡◌, ◌<◌, ◌^◌, ℕ, IfOk, IfErr, IfSome, IfNone, option_map};
ghost use Rattle.prefix_trie.specs.Leaves.{value_at};
ghost use Rattle.verdict_map.specs.Verdicts.{has_verdict, verdict_or_neutral, IsVerdictOf, HaveVerdicts};
ghost use Rattle.verdict_map.specs.Verdicts.{IsLeastWithout, IsFamilyFault, IsFault};

use crate::VerdictFault;
use addr_bits::{AddressFamily, Width};
use prefix_trie::TrieMap;
use spf_grammar::Verdict;
use spf_model::{Ending, Outcome};
use std::alloc::AllocError;

/// The verdict of every address, as a trie for each family.
#[derive(Drop)]
pub struct VerdictTries {
    pub v4: TrieMap<u32, Verdict>,
    pub v6: TrieMap<u128, Verdict>,
}

/// Whether the outcome is a verdict.
fn is_verdict(ending: &Ending) -> bool
    ensures { result ≡ has_verdict ending.now }
{
    ending.verdict().is_some()
}

/// The verdict that the outcome is, and neutral where it is none.
fn verdict_of(ending: &Ending) -> Verdict
    ensures { result ≡ verdict_or_neutral ending.now }
{
    ending.verdict().unwrap_or(Verdict::Neutral)
}

/// The least address whose outcome is no verdict, and this outcome.
fn least_without<W: Width>(
    outcomes: &TrieMap<W, Ending>,
) -> Result<Option<(W, Outcome)>, AllocError>
    ensures found { IfOk result (λ least. IfSome least
        (λ pair. IsLeastWithout W.BITS outcomes.now (W.number pair.0) pair.1)) }
    ensures none { IfOk result (λ least. IfNone least (HaveVerdicts W.BITS outcomes.now)) }
{
    match outcomes.least_where(|outcome| !is_verdict(outcome)) {
        Some(address) => {
            let outcome = outcomes.at(address).outcome()?;
            Ok(Some((address, outcome)))
        }
        None => Ok(None),
    }
}

/// The verdict at each address, and neutral where the outcome is none.
fn verdicts_of<W: Width>(outcomes: &TrieMap<W, Ending>) -> Result<TrieMap<W, Verdict>, AllocError>
    ensures { IfOk result (λ verdicts. (a : ℕ) → a < 2 ^ W.BITS
        → value_at W.BITS verdicts a ≡ option_map verdict_or_neutral (value_at W.BITS outcomes.now a)) }
{
    outcomes.map(|outcome| Ok(verdict_of(outcome)))
}

/// The verdict of every address of a family. `Refused` comes exactly where some address has an outcome that is no
/// verdict, with the least such address and its outcome; `Memory` where there is no memory.
#[tactic(auto, using(crate::proofs::Outcomes::verdict_of_outcome))]
fn family_verdicts<W: AddressFamily>(
    outcomes: &TrieMap<W, Ending>,
) -> Result<TrieMap<W, Verdict>, VerdictFault>
    ensures found { IfOk result (λ tries. (a : ℕ) → a < 2 ^ W.BITS
        → IsVerdictOf (value_at W.BITS outcomes.now a) (value_at W.BITS tries a)) }
    ensures fault { IfErr result (IsFamilyFault W.family W.BITS outcomes.now) }
{
    if let Some((a, outcome)) = least_without(outcomes)? {
        return Err(VerdictFault::Refused {
            address: a.address(),
            outcome,
        });
    }
    Ok(verdicts_of(outcomes)?)
}

/// The verdict of every address. `Refused` comes exactly where some address has an outcome that is no verdict, with the
/// least IPv4 address of that kind, or where there is none the least IPv6 address, and its outcome; `Memory` where
/// there is no memory.
pub fn verdicts(
    v4: &TrieMap<u32, Ending>,
    v6: &TrieMap<u128, Ending>,
) -> Result<VerdictTries, VerdictFault>
    ensures four { IfOk result (λ tries. (a : ℕ) → a < 2 ^ 32
        → IsVerdictOf (value_at 32 v4.now a) (value_at 32 tries.v4 a)) }
    ensures six { IfOk result (λ tries. (a : ℕ) → a < 2 ^ 128
        → IsVerdictOf (value_at 128 v6.now a) (value_at 128 tries.v6 a)) }
    ensures fault { IfErr result (IsFault v4.now v6.now) }
{
    let v4 = family_verdicts(v4)?;
    let v6 = family_verdicts(v6)?;
    Ok(VerdictTries { v4, v6 })
}
