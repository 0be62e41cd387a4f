//! check_host of RFC 7208 for one address, over lent zones.
#![tactic(auto)]

mod check;
mod context;
mod ending;
mod failure;
mod frame;
mod gathered;
mod hosts;
mod laws;
mod lines;
mod outcome;
mod record;

pub use check::{check_one, redirect_of};
pub use context::{RecordContext, name_of};
pub use ending::Ending;
pub use failure::Failure;
pub use gathered::{Gathered, Hosts, Lens};
pub use laws::{chains_give_first, depth_suffices, one_end, rests_on_its_questions, said_alike};
pub use lines::{write_cause, write_outcome};
pub use outcome::{Cause, Counts, Halt, Limits, Outcome, Place};
pub use record::spf_texts;
