//! Kept lists: what every question on which a policy rests was answered, as a text that is written and read.
#![tactic(auto)]

mod answer;
mod kept;
mod laws;
mod line;

pub use answer::{write_answer, write_classes};
pub use kept::{Kept, KeptFault, KeptLine, KeptLines, push_header, push_line, read_kept};
pub use laws::{kept_is_read, one_kept, texts_tell};
