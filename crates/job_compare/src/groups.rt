//! The zones of two policies.
ghost use Rattle.std.specs.Prelude.{◌≡◌, ◌<◌, IfOk, IfSome, MatchOption, false, true, length, String, string_bytes};
ghost use Rattle.std.specs.List.{before_first, after_first, list_any, position};
ghost use Rattle.std.specs.declared.alloc.Global.{Global};
ghost use Rattle.spfc_words.specs.Words.{texts};
ghost use Rattle.job_compare.specs.declared.groups.Groups.{Groups};
ghost use Rattle.job_compare.specs.Words.{AreGroups, AreTwoGroups, IsOneGroup, is_with};

use spfc_words::{Group, Inputs, push_zone_words};
use std::alloc::{AllocError, Global};

/// The zones of two policies.
#[derive(Debug, Drop)]
pub struct Groups {
    /// The zones, those of the first group in front.
    pub inputs: Inputs,
    /// The group over which the second policy is read.
    pub second: Group,
}

/// The zones that the words name: those of the first group, and behind the word `with` those of the second. `None`
/// where these are no such words.
pub(crate) fn read_groups(alloc: Global, words: &[String]) -> Result<Option<Groups>, AllocError>
    ensures { IfOk result (λ groups. MatchOption groups
        ((any : Groups) → ¬ AreGroups (texts words.now) any) (AreGroups (texts words.now))) }
{
    match split_with(words) {
        Some((first, others)) => read_two_groups(alloc, first, others),
        None => read_one_group(alloc, words),
    }
}

/// The zones of one group, over which both policies are read.
fn read_one_group(alloc: Global, words: &[String]) -> Result<Option<Groups>, AllocError>
    ensures { IfOk result (λ groups. MatchOption groups
        ((any : Groups) → ¬ IsOneGroup (texts words.now) any) (IsOneGroup (texts words.now))) }
{
    let mut inputs = Inputs::new(alloc);
    if !push_zone_words(alloc, &mut inputs, Group::Zones, words)? {
        return Ok(None);
    }
    Ok(Some(Groups {
        inputs,
        second: Group::Zones,
    }))
}

/// The zones of two groups.
fn read_two_groups(
    alloc: Global,
    first: &[String],
    others: &[String],
) -> Result<Option<Groups>, AllocError>
    ensures { let Are = AreTwoGroups (texts first.now) (texts others.now) in
        IfOk result (λ groups. MatchOption groups ((any : Groups) → ¬ Are any) Are) }
{
    let mut inputs = Inputs::new(alloc);
    if !push_zone_words(alloc, &mut inputs, Group::Zones, first)? {
        return Ok(None);
    }
    if !push_zone_words(alloc, &mut inputs, Group::Others, others)? {
        return Ok(None);
    }
    Ok(Some(Groups {
        inputs,
        second: Group::Others,
    }))
}

/// The words before and behind the first `with`; `None` where there is none.
fn split_with(words: &[String]) -> Option<(&[String], &[String])>
    ensures { MatchOption result (list_any is_with (texts words.now) ≡ false) (λ parts.
        (list_any is_with (texts words.now) ≡ true)
        × (texts parts.0.now ≡ before_first is_with (texts words.now))
        × (texts parts.1.now ≡ after_first is_with (texts words.now))) }
{
    let place = place_of_with(words)?;
    Some((&words[..place], &words[place + 1..]))
}

/// The place of the first `with`.
fn place_of_with(words: &[String]) -> Option<usize>
    ensures value { result ≡ position (λ (word : String Global). is_with (string_bytes word)) words.now }
    ensures within { IfSome result (λ place. place < length words.now) }
{
    words.iter().position(|word| word.as_str() == "with")
}
