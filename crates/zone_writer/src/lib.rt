//! The fragment: the zone file of a chain of flat records, with its table.
#![tactic(auto)]

mod laws;
mod record;
mod zone;

pub use laws::fragment_is_read;
pub use record::{push_strings, write_terms};
pub use zone::fragment;
