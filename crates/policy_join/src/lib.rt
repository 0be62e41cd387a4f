//! One policy for several: at each address the strongest of their verdicts, or the weakest.
#![tactic(auto)]

mod joining;
mod laws;
mod strength;

pub use joining::{VerdictsList, join};
pub use laws::{in_any_order, one_of_all, strongest_is_lawful, weakest_is_lawful};
pub use strength::{strongest, weakest};
