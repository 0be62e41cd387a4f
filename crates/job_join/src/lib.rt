//! The job `join DOMAIN DOMAIN.. OPTIONS ORIGIN=FILE..`: one policy for several domains.
#![tactic(auto)]

mod domains;
mod join;
mod laws;
mod verdicts;

pub use domains::Domains;
pub use join::Join;
pub use laws::in_any_order;
