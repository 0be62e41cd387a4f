//! The domain-specs and lengths of mechanisms.
ghost use Rattle.std.specs.Prelude.{◌≡◌, ◌+◌, ◌<◌, ◌^◌, ◌||◌, ◌&&◌, ◌==◌, nat_lt, if◌then◌else◌, ℕ, List, length, IfOk};
ghost use Rattle.std.specs.Char.{is_ascii_digit};
ghost use Rattle.spf_macros.specs.Reading.{Reads};
ghost use Rattle.spf_grammar.specs.Grammar.{SpellsTarget};
ghost use Rattle.spf_grammar.specs.Reading.{SplitsLens, SpellsRequired, SpellsAsHosts};

use crate::bytes::behind;
use crate::lengths::read_dual;
use spf_macros::{MacroText, read_domain_spec};
use std::alloc::{AllocError, Global};

/// What stands behind the name of an `a` or `mx` mechanism: a domain-spec, and the lengths in bits.
#[derive(Drop)]
pub(crate) struct Hosts {
    pub(crate) target: Option<MacroText>,
    pub(crate) len4: u32,
    pub(crate) len6: u32,
}

/// The domain-spec behind a colon.
pub(crate) fn read_target(alloc: Global, text: &[u8]) -> Result<Option<MacroText>, AllocError>
    ensures { IfOk result (Reads SpellsRequired text.now) }
{
    match behind(text, b':') {
        Some(rest) => read_domain_spec(alloc, rest, false),
        None => Ok(None),
    }
}

/// The domain-spec behind a colon, or that there is none.
pub(crate) fn read_optional_target(
    alloc: Global,
    text: &[u8],
) -> Result<Option<Option<MacroText>>, AllocError>
    ensures { IfOk result (Reads SpellsTarget text.now) }
{
    if text.is_empty() {
        return Ok(Some(None));
    }
    match read_target(alloc, text)? {
        Some(target) => Ok(Some(Some(target))),
        None => Ok(None),
    }
}

/// Where the lengths begin once one more byte is seen.
fn next_start(start: usize, i: usize, byte: u8) -> usize
    requires { i + 1 < 2 ^ 64 }
    ensures { result ≡ (if byte == 47 || (is_ascii_digit byte && nat_lt start i) then start else i + 1) }
{
    if byte == b'/' || (byte.is_ascii_digit() && start < i) {
        start
    } else {
        i + 1
    }
}

/// Where the lengths begin: at the first slash behind which only digits and slashes stand.
fn lens_start(text: &[u8]) -> usize
    ensures { (front lens : List ℕ) × SplitsLens text.now front lens × (length front ≡ result) }
{
    let mut start = 0;
    for (i, byte) in text.iter().enumerate() {
        start = next_start(start, i, *byte);
    }
    start
}

/// What stands before the lengths, and the lengths.
fn split_lens(text: &[u8]) -> (&[u8], &[u8])
    ensures { SplitsLens text.now result.0.now result.1.now }
{
    text.split_at(lens_start(text))
}

/// A domain-spec and two lengths (RFC 7208, sections 5.3 and 5.4). There is at most one way to split the text into
/// them, since no domain-spec ends in a slash and digits.
pub(crate) fn read_hosts(alloc: Global, text: &[u8]) -> Result<Option<Hosts>, AllocError>
    ensures { IfOk result (Reads SpellsAsHosts text.now) }
{
    let (front, lens) = split_lens(text);
    let Some((len4, len6)) = read_dual(lens) else {
        return Ok(None);
    };
    let Some(target) = read_optional_target(alloc, front)? else {
        return Ok(None);
    };
    Ok(Some(Hosts {
        target,
        len4: u32::from(len4),
        len6: u32::from(len6),
    }))
}
