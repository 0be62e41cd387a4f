//! The terms of flat records: networks and `all`.
ghost use Rattle.std.specs.Prelude.{◌≡◌};
ghost use Rattle.spf_grammar.specs.Flat.{covers as covers_address, first as first_of};

use crate::Verdict;
use addr_bits::{Address, Prefix};

/// The addresses of a flat term (RFC 7208, sections 5.1 and 5.6).
#[derive(Clone, Copy, PartialEq, Eq)]
pub enum Net {
    /// The IPv4 addresses of a prefix.
    V4(Prefix<u32>),
    /// The IPv6 addresses of a prefix.
    V6(Prefix<u128>),
    /// Every address of both families.
    All,
}

impl Net {
    /// Whether the network has the address (RFC 7208, sections 5.1 and 5.6).
    pub fn covers(self, a: Address) -> bool
        ensures { result ≡ covers_address self a }
    {
        match self {
            Net::All => true,
            Net::V4(prefix) => match a {
                Address::V4(number) => prefix.covers(number),
                Address::V6(_) => false,
            },
            Net::V6(prefix) => match a {
                Address::V4(_) => false,
                Address::V6(number) => prefix.covers(number),
            },
        }
    }
}

/// A term that gives its verdict to the addresses of a network.
#[derive(Clone, Copy, PartialEq, Eq)]
pub struct FlatTerm {
    /// The verdict of the term's qualifier.
    pub verdict: Verdict,
    /// The addresses to which it gives the verdict.
    pub net: Net,
}

/// The verdict of the first term that has the address, and neutral where none has it (RFC 7208, sections 4.6.2
/// and 4.7).
pub fn first(list: &[FlatTerm], a: Address) -> Verdict
    ensures { result ≡ first_of list.now a }
{
    for term in list {
        if term.net.covers(a) {
            return term.verdict;
        }
    }
    Verdict::Neutral
}
