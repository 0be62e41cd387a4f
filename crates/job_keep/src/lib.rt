//! The job `keep DOMAIN READING ORIGIN=FILE..`: what each question is answered on which the policy of a domain rests.
#![tactic(auto)]

mod keep;

pub use keep::Keep;
