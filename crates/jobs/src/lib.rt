//! What a job is, and the one way from the words to the status, for whatever jobs.
#![tactic(auto)]

mod answering;
mod job;
mod laws;
mod output;

pub use answering::{Answer, answer_words};
pub use job::Job;
pub use laws::one_is_due;
pub use output::Output;
