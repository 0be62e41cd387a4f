//! The verdict that check_host of RFC 7208 gives every address, or the least address to which it gives none.
#![tactic(auto)]

mod laws;
mod policy;

pub use laws::{never_both, one_list_asked, one_refused, one_verdict};
pub use policy::{PolicyVerdicts, policy_verdicts};
