//! The top call: what the words ask for is computed whole, its questions are told, and then it is written.
#![tactic(auto)]

mod any_job;
mod laws;
mod row;
mod telling;
mod top;

pub use any_job::{AnyJob, read_words};
pub use laws::{one_is_due, one_job};
pub use top::run;
