//! Reading a line of a table.
ghost use Rattle.std.specs.Prelude.{◌≡◌, ◌++◌, ◌∷◌, ℕ, List, MatchOption};
ghost use Rattle.std.specs.List.{prefix_len};
ghost use Rattle.spf_macros.specs.Reading.{IsSpan, Reads};
ghost use Rattle.bound_table.specs.Parts.{is_other, IsCut, ReadsFirst, SpellsNumber, SpellsNeeds, SpellsPrefix};
ghost use Rattle.bound_table.specs.Reading.{SpellsRow, SpellsTotal};

use addr_bits::{AddressFamily, Prefix};
use fewest_terms::{Needs, Row};
use itoa::Buffer;
use std::str;

/// The number of a text of decimal digits without leading zeros.
fn read_number(text: &[u8]) -> Option<u32>
    ensures { Reads SpellsNumber text.now result }
{
    let Ok(text) = str::from_utf8(text) else {
        return None;
    };
    let number: u32 = text.parse().ok()?;
    let mut buffer = Buffer::new();
    if buffer.format(number) == text {
        Some(number)
    } else {
        None
    }
}

/// How many bytes stand before the first of these.
fn place_of(text: &[u8], byte: u8) -> usize
    ensures { result ≡ prefix_len (is_other byte) text.now }
{
    text.iter().take_while(|other| **other != byte).count()
}

/// What stands before the first of these bytes, and the rest.
pub(crate) fn split_before(text: &[u8], byte: u8) -> (&[u8], &[u8])
    ensures { IsSpan (is_other byte) text.now result.0.now result.1.now }
{
    text.split_at(place_of(text, byte))
}

/// What stands before the first of these bytes, and what stands behind it; `None` exactly where there is no such byte.
pub fn cut_at(text: &[u8], byte: u8) -> Option<(&[u8], &[u8])>
    ensures { MatchOption result ((front rest : List ℕ) → ¬ (text.now ≡ front ++ byte ∷ rest))
        (λ r. IsCut byte text.now r.0.now r.1.now) }
{
    let (front, rest) = split_before(text, byte);
    let (_, behind) = rest.split_first()?;
    Some((front, behind))
}

/// What stands behind the word that the text begins with; `None` exactly where it does not begin so.
pub fn behind<'a>(text: &'a [u8], word: &[u8]) -> Option<&'a [u8]>
    ensures { MatchOption result ((rest : List ℕ) → ¬ (text.now ≡ word.now ++ rest))
        (λ rest. text.now ≡ word.now ++ rest.now) }
{
    let rest = text.strip_prefix(word)?;
    Some(rest)
}

/// A number with a space behind it, and the rest.
fn read_first(text: &[u8]) -> Option<(u32, &[u8])>
    ensures { ReadsFirst text.now result }
{
    let (number, rest) = cut_at(text, b' ')?;
    let number = read_number(number)?;
    Some((number, rest))
}

/// The four numbers of a row.
fn read_needs(text: &[u8]) -> Option<Needs>
    ensures { Reads SpellsNeeds text.now result }
{
    let (fail, text) = read_first(text)?;
    let (softfail, text) = read_first(text)?;
    let (pass, text) = read_first(text)?;
    let neutral = read_number(text)?;
    Some(Needs {
        fail: u64::from(fail),
        softfail: u64::from(softfail),
        pass: u64::from(pass),
        neutral: u64::from(neutral),
    })
}

/// A prefix in its written form.
fn read_prefix<W: AddressFamily>(text: &[u8]) -> Option<Prefix<W>>
    ensures { Reads (SpellsPrefix W.family) text.now result }
{
    let (address, len) = cut_at(text, b'/')?;
    let Ok(start) = W::read(address) else {
        return None;
    };
    let len = read_number(len)?;
    if len > W::BITS {
        return None;
    }
    let prefix = Prefix::new(start, len);
    let written = prefix.start().write();
    if written.as_str().as_bytes() == address {
        Some(prefix)
    } else {
        None
    }
}

/// The row of a line.
pub(crate) fn read_row<W: AddressFamily>(line: &[u8]) -> Option<Row<W>>
    ensures { Reads (SpellsRow W.family) line.now result }
{
    let (prefix, needs) = cut_at(behind(line, b"; row ")?, b' ')?;
    let prefix = read_prefix(prefix)?;
    let needs = read_needs(needs)?;
    Some(Row { prefix, needs })
}

/// The total of a line.
pub(crate) fn read_total(line: &[u8]) -> Option<u64>
    ensures { Reads SpellsTotal line.now result }
{
    let total = read_number(behind(line, b"; fewest ")?)?;
    Some(u64::from(total))
}
