//! The size of a record.
use crate::row::NumberRow;

/// `--size N`: what a record takes is less than this, in octets (RFC 7208, section 3.4).
pub const SIZE: NumberRow = NumberRow {
    name: "--size",
    low: 64,
    high: 4096,
    by_default: 450,
};
