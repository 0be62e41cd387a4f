//! Options, which stand in front of the other words, as a table has them.
ghost use Rattle.std.specs.Prelude.{◌≡◌, ℕ, ◌<◌, ◌≤◌, List, [], ◌∷◌, Bool, map, length, MatchOption};
ghost use Rattle.spfc_words.specs.Rows.{plain};
ghost use Rattle.spfc_words.specs.Options as options;
ghost use Rattle.spfc_words.specs.Options.{IsNumber, NumberIs, TextIs, FlagIs, HasNone, Splits};
ghost use Rattle.spfc_words.specs.Options.{settings_in, values_of};
ghost use Rattle.spfc_words.specs.Words.{texts};

use crate::row::{FlagRow, NumberRow, Row, TextRow, is_flag, is_valued};
use itoa::Buffer;

/// The first word, and the words behind it; `None` where there is none.
pub fn split_first(words: &[String]) -> Option<(&str, &[String])>
    ensures { MatchOption result (texts words.now ≡ [])
        (λ found. texts words.now ≡ found.0.now ∷ texts found.1.now) }
{
    let [first, behind @ ..] = words else {
        return None;
    };
    Some((first.as_str(), behind))
}

/// The words behind the options.
pub fn behind_options<'a>(rows: &[Row], words: &'a [String]) -> &'a [String]
    ensures { texts result.now ≡ options.behind_options (map plain rows.now) (texts words.now) }
{
    let mut rest = words;
    while let Some((_, behind)) = split_setting(rows, rest) {
        rest = behind;
    }
    rest
}

/// The number of an option of the table, among the options in front; `None` where it is written twice, or with another
/// value than a number of its range.
pub fn read_number(rows: &[Row], words: &[String], row: &NumberRow) -> Option<u32>
    ensures { let Is = NumberIs (map plain rows.now) (texts words.now) (plain (Row.Number row.now)) in
        MatchOption result ((n : ℕ) → ¬ Is n) Is }
{
    match value_of(rows, words, row.name) {
        Some(Some(text)) => {
            let number = parse_number(text, u64::from(row.low), u64::from(row.high))?;
            Some(number as u32)
        }
        Some(None) => Some(row.by_default),
        None => None,
    }
}

/// The text of an option of the table, among the options in front; `None` where it is written twice.
pub fn read_text<'a>(rows: &[Row], words: &'a [String], row: &TextRow) -> Option<&'a str>
    ensures { let Is = TextIs (map plain rows.now) (texts words.now) (plain (Row.Text row.now)) in
        MatchOption result ((text : List ℕ) → ¬ Is text) (λ text. Is text.now) }
{
    match value_of(rows, words, row.name) {
        Some(Some(text)) => Some(text),
        Some(None) => Some(row.by_default),
        None => None,
    }
}

/// Whether a flag of the table is among the options in front; `None` where it is written twice.
pub fn read_flag(rows: &[Row], words: &[String], row: &FlagRow) -> Option<bool>
    ensures { let Is = FlagIs (map plain rows.now) (texts words.now) (plain (Row.Flag row.now)) in
        MatchOption result ((b : Bool) → ¬ Is b) Is }
{
    match value_of(rows, words, row.name) {
        Some(Some(_)) => Some(true),
        Some(None) => Some(false),
        None => None,
    }
}

/// The first option in front, if one stands there, as its name and its value, and the words behind it.
fn split_setting<'a>(
    rows: &[Row],
    words: &'a [String],
) -> Option<((&'a str, &'a str), &'a [String])>
    ensures { MatchOption result (HasNone (map plain rows.now) words.now)
        (λ found. Splits (map plain rows.now) words.now found.0.0.now found.0.1.now found.1.now) }
{
    let [name, behind @ ..] = words else {
        return None;
    };
    let name = name.as_str();
    if is_flag(rows, name) {
        return Some(((name, ""), behind));
    }
    let [value, behind @ ..] = behind else {
        return None;
    };
    if is_valued(rows, name) {
        return Some(((name, value.as_str()), behind));
    }
    None
}

/// The value that is written for an option in front of the words, if one is; `None` where several are.
fn value_of<'a>(rows: &[Row], words: &'a [String], name: &str) -> Option<Option<&'a str>>
    ensures { let values = values_of name.now (settings_in (map plain rows.now) (texts words.now)) in
        MatchOption result (2 ≤ length values)
        (λ found. MatchOption found (values ≡ []) (λ value. values ≡ value.now ∷ [])) }
{
    let mut found = None;
    let mut rest = words;
    while let Some(((option, value), behind)) = split_setting(rows, rest) {
        if option == name {
            if found.is_some() {
                return None;
            }
            found = Some(value);
        }
        rest = behind;
    }
    Some(found)
}

/// The number that decimal digits without a sign and without leading zeros write, from `low` to `high`; `None` exactly
/// where the text writes none of these.
pub fn parse_number(text: &str, low: u64, high: u64) -> Option<u64>
    ensures { MatchOption result ((n : ℕ) → ¬ IsNumber low high text.now n) (IsNumber low high text.now) }
{
    let number: u64 = text.parse().ok()?;
    let mut buffer = Buffer::new();
    if number < low || number > high || buffer.format(number) != text {
        return None;
    }
    Some(number)
}
