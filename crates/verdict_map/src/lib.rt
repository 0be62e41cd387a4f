//! The verdict of every address, or the least address that has none.
#![tactic(auto)]

mod fault;
mod tries;

pub use fault::VerdictFault;
pub use tries::{VerdictTries, verdicts};
