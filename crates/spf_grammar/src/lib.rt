//! SPF records and first-match lists (RFC 7208).
#![tactic(auto)]

mod bytes;
mod families;
mod flat;
mod hosts;
mod keywords;
mod laws;
mod lengths;
mod mechanisms;
mod networks;
mod policy;
mod reader;
mod terms;
mod verdict;
mod writer;
mod written;

pub use families::NetworkFamily;
pub use flat::{FlatTerm, Net, first};
pub use laws::{first_of_each_family, one_policy, written_policy};
pub use policy::{Mechanism, Policy, Term, Terms};
pub use reader::parse;
pub use spf_text::is_spf;
pub use verdict::Verdict;
pub use writer::write_policy;
pub use written::write_flat;
