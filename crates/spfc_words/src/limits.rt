//! The limits of reading.
ghost use Rattle.std.specs.Prelude.{map, MatchOption};
ghost use Rattle.spf_model.specs.declared.outcome.Limits.{Limits};
ghost use Rattle.spfc_words.specs.Rows.{plain};
ghost use Rattle.spfc_words.specs.Limits.{AreLimits};
ghost use Rattle.spfc_words.specs.Words.{texts};

use crate::options::read_number;
use crate::row::{NumberRow, Row};
use spf_model::Limits;

/// `--lookups N`: the most terms that cause a lookup (RFC 7208, section 4.6.4).
pub const LOOKUPS: NumberRow = NumberRow {
    name: "--lookups",
    low: 10,
    high: 20,
    by_default: 10,
};

/// `--voids N`: the most lookups that find nothing (RFC 7208, section 4.6.4).
pub const VOIDS: NumberRow = NumberRow {
    name: "--voids",
    low: 2,
    high: 20,
    by_default: 2,
};

/// `--exchanges N`: the most hosts of an `mx` (RFC 7208, section 4.6.4).
pub const EXCHANGES: NumberRow = NumberRow {
    name: "--exchanges",
    low: 10,
    high: 100,
    by_default: 10,
};

/// The options of a job that has those of reading alone.
pub const READING: &[Row] = &[
    Row::Number(LOOKUPS),
    Row::Number(VOIDS),
    Row::Number(EXCHANGES),
];

/// The limits that the options in front of the words give, by the table of the job; `None` where an option is written
/// twice, or with another value than a number of its range.
pub fn read_limits(rows: &[Row], words: &[String]) -> Option<Limits>
    ensures { let Are = AreLimits (map plain rows.now) (texts words.now) in
        MatchOption result ((limits : Limits) → ¬ Are limits) Are }
{
    let lookups = read_number(rows, words, &LOOKUPS)?;
    let voids = read_number(rows, words, &VOIDS)?;
    let exchanges = read_number(rows, words, &EXCHANGES)?;
    Some(Limits {
        lookups,
        voids,
        exchanges,
    })
}
