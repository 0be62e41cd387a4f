//! What two policies say differently.

use addr_bits::{Address, Items};
use spf_grammar::Verdict;

/// How many addresses of a family a change has.
#[derive(Clone, Copy, Debug)]
pub enum Count {
    /// Every address of the family.
    All,
    /// So many addresses, and not every one.
    Number(u128),
}

/// Two different verdicts that addresses of a family have, the first by the one policy and the second by the other.
#[derive(Clone, Copy, Debug)]
pub struct Change {
    /// The verdict by the one policy.
    pub one: Verdict,
    /// The verdict by the other.
    pub two: Verdict,
    /// The least address that has both.
    pub least: Address,
    /// How many addresses of its family have both.
    pub count: Count,
}

/// A list of changes.
pub type Changes = Items<Change>;
