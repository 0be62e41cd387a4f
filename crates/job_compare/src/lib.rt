//! The job `compare DOMAIN DOMAIN READING ORIGIN=FILE.. with ORIGIN=FILE..`: what two policies say differently.
#![tactic(auto)]

mod compare;
mod groups;
mod lines;

pub use compare::Compare;
pub use groups::Groups;
