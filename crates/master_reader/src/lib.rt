//! The records of a DNS master file (RFC 1035, section 5).
#![tactic(auto)]

mod data;
mod fault;
pub mod laws;
mod meaning;
mod names;
mod progress;
mod reader;
mod record;
mod ttl;
mod words;

pub use data::{MAX_STRING, MAX_TEXT};
pub use fault::{Kind, ZoneFault};
pub use reader::{Reader, read_zone};
pub use record::{Body, Record, Records, Text};
