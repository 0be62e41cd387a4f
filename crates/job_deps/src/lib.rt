//! The job `deps DOMAIN READING ORIGIN=FILE..`: the questions on which the policy of a domain rests.
#![tactic(auto)]

mod deps;

pub use deps::Deps;
