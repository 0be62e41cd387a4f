//! Zones of any size that are valid, made from a number, for trials of large input.
#![tactic(auto)]

mod draws;
mod laws;
mod network;
mod zone;

pub use laws::{first_of_zero, zone_is_read};
pub use zone::generate;
