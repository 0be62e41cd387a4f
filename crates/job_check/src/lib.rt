//! The job `check DOMAIN ADDRESS READING ORIGIN=FILE..`: what check_host gives one address.
#![tactic(auto)]

mod check;

pub use check::Check;
