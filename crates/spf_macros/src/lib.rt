//! Macro texts of SPF (RFC 7208, section 7), and the words that name a domain or a label.
#![tactic(auto)]

mod domain;
mod expansion;
mod laws;
mod letter;
mod parts;
mod piece;
mod read;
mod reversed;
mod targets;
mod toplabel;
mod transformers;
mod words;
mod write;

pub use domain::{are_for_all, read_domain_spec};
pub use expansion::{Expanded, Need, expand};
pub use laws::{one_macro_text, written_macro_text};
pub use piece::{Letter, Macro, MacroText, Piece};
pub use read::read_macro_text;
pub use reversed::reverse_suffix;
pub use targets::target;
pub use transformers::{digit_count, held_number};
pub use words::{MAX_NAME_TEXT, are_domain_labels, is_domain, is_label};
pub use write::write_macro_text;
