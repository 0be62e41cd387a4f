//! The fewest terms of a first-match list that gives each address its verdict.
#![tactic(auto)]

mod answer;
mod choose;
mod laws;
mod needs;
mod prefixes;
mod row;
mod walk;

use addr_bits::Items;
pub use answer::{Shortest, fewest};
pub use laws::{
    chosen_is_shortest, mixed_is_exact, need_is_small, no_list_is_shorter, no_list_spends_less,
};
pub use needs::Needs;
pub use prefixes::mixed_prefixes;
pub use row::{Row, Rows};
use spf_grammar::FlatTerm;

/// A list of flat terms, of which the first that has an address decides.
pub type FlatList = Items<FlatTerm>;
