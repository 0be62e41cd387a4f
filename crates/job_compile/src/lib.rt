//! The job `compile DOMAIN OPTIONS ORIGIN=FILE..`: the policy of a domain as the fewest terms in the fewest records.
#![tactic(auto)]

mod compile;

pub use compile::Compile;
