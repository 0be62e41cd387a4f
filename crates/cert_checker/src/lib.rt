//! Whether a fragment, whoever wrote it, says the same as a policy, by the fewest terms and in the fewest records.
#![tactic(auto)]

mod answer;
mod certificate;
mod chain;
mod laws;
mod links;
mod records;
mod verdicts;

pub use answer::{No, Yes};
pub use certificate::verify;
pub use laws::{no_reason_beside_yes, one_reason, one_yes, published_is_certified};
