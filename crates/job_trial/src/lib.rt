//! The job `trial START N`: what the policy of a zone that a number makes comes to.
#![tactic(auto)]

mod laws;
mod line;
mod trial;

pub use laws::never_refused;
pub use trial::Trial;
