//! Reading the files of a job, and the refusals of all jobs.
#![tactic(auto)]

mod inputs;
mod laws;
mod lending;
mod loaded;
mod memory;
mod reading;
mod refusal;
mod stop;
mod text;

pub use inputs::{load_inputs, read_file};
pub use laws::one_loading;
pub use lending::lend;
pub use loaded::Loaded;
pub use memory::OrMemory;
pub use reading::read_records;
pub use refusal::{Denial, Refusal};
pub use stop::Stop;
pub use text::{copied, line, push_address, push_part};
