//! The addresses that an answer matches, as sets.
#![tactic(auto)]

mod sets;

pub use sets::{match_family, match4, match6};
