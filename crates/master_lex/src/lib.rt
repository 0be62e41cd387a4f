//! The entries and tokens of a DNS master file.
#![tactic(auto)]

mod cutter;
mod entry;
mod fault;
pub mod laws;
mod lexer;
mod part;
mod step;

pub use cutter::Cutter;
pub use entry::{Entry, Octet, Token, Tokens, Units};
pub use fault::{LexFault, LexKind};
pub use lexer::Lexer;
