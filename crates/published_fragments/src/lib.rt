//! Laws of published fragments: what is due for the policy of a domain is certified. They speak of no file, sink or
//! job.
#![tactic(auto)]

mod laws;

pub use laws::due_is_certified;
