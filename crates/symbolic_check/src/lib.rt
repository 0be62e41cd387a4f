//! check_host of RFC 7208 for every address at once, over lent zones.
#![tactic(auto)]

mod asked;
mod both;
mod hosts;
mod laws;
mod networks;
mod state;
mod steps;
mod walk;

pub use both::{Both, evaluate};
pub use laws::rests_on_asked;
