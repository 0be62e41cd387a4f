//! What two policies say differently, over all addresses.
#![tactic(auto)]

mod change;
mod comparing;
mod laws;
mod pairs;

pub use change::{Change, Changes, Count};
pub use comparing::compare;
pub use laws::{none_where_equal, one_list_of_changes};
