//! Whether anything has changed on which a policy rests.
#![tactic(auto)]

mod fresh;
mod keeping;
mod laws;
mod reversals;
mod text;

pub use fresh::{Freshness, stale};
pub use keeping::keep;
pub use kept_lists::{Kept, KeptFault, KeptLine, KeptLines, read_kept};
pub use laws::{fresh_keeps, keeps_well, one_watch};
