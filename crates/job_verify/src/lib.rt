//! The job `verify DOMAIN FILE OPTIONS ORIGIN=FILE..`: whether a file shows that its records say the same as a policy,
//! by the fewest terms and in the fewest records.
#![tactic(auto)]

mod verify;

pub use verify::Verify;
