//! Domain names (RFC 1035, section 3.1).
#![tactic(auto)]

mod fault;
mod label;
mod labels;
pub mod laws;
mod name;
mod printed;

pub use fault::NameFault;
pub use label::{MAX_LABEL, without_final_dot};
pub use labels::Labels;
pub use name::Name;
