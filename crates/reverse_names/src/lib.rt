//! The answers at the reversed names of all addresses of a family, as sets.
#![tactic(auto)]

mod digit;
mod path;
mod sets;

pub use sets::{reverse_sets, reverse_sets4, reverse_sets6};
pub use zone_answers::Class;
