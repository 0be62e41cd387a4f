//! The job `stale FILE ORIGIN=FILE..`: whether what was kept of a policy is still answered.
#![tactic(auto)]

mod stale;

pub use stale::Stale;
