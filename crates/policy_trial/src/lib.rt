//! Trials: what the policy of a zone that a number makes comes to.
#![tactic(auto)]

mod generated;
mod laws;
mod summary;
mod trial;

pub use laws::{one_trial, trials_have_verdicts};
pub use summary::Summary;
pub use trial::run_trial;
