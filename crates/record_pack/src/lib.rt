//! Records of a redirect chain: what they spell, which fit below the size, and the fewest that a list is cut into.
#![tactic(auto)]

mod cut;
mod fault;
mod fit;
mod greedy;
mod name;

pub use cut::{Cut, Ends};
pub use fault::PackFault;
pub use fit::{fits, name_len};
pub use greedy::pack;
pub use name::push_name;
