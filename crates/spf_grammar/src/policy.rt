//! SPF records as lists of terms.

use crate::{Net, Verdict};
use addr_bits::{Bytes, Items, Prefix};
use spf_macros::MacroText;

/// The mechanisms of RFC 7208, section 5. A domain-spec that is not written is `None`.
#[derive(Drop)]
pub enum Mechanism {
    /// Every address.
    All,
    /// The addresses that the record of a domain passes.
    Include(MacroText),
    /// The addresses of a domain, with the lengths in bits for IPv4 and IPv6.
    A(Option<MacroText>, u32, u32),
    /// The addresses of a domain's mail exchangers, with the lengths in bits for IPv4 and IPv6.
    Mx(Option<MacroText>, u32, u32),
    /// The addresses whose names lie in a domain.
    Ptr(Option<MacroText>),
    /// The IPv4 addresses of a prefix.
    Ip4(Prefix<u32>),
    /// The IPv6 addresses of a prefix.
    Ip6(Prefix<u128>),
    /// Every address, where a domain exists.
    Exists(MacroText),
}

impl Mechanism {
    ghost use Rattle.std.specs.Prelude.{◌≡◌};
    ghost use Rattle.spf_grammar.specs.Families.{network_of};

    /// The network of `all`, `ip4` or `ip6` (RFC 7208, sections 5.1 and 5.6); `None` for each other mechanism.
    pub fn net(&self) -> Option<Net>
        ensures { result ≡ network_of self.now }
    {
        match self {
            Mechanism::All => Some(Net::All),
            Mechanism::Ip4(prefix) => Some(Net::V4(*prefix)),
            Mechanism::Ip6(prefix) => Some(Net::V6(*prefix)),
            _ => None,
        }
    }
}

/// A term of a record (RFC 7208, section 4.6.1).
#[derive(Drop)]
pub enum Term {
    /// A mechanism, and the verdict of its qualifier.
    Directive(Verdict, Mechanism),
    /// `redirect`: the domain whose record decides where no directive does.
    Redirect(MacroText),
    /// `exp`: the domain that explains a fail.
    Exp(MacroText),
    /// Another modifier, which is passed over: its name in lower case, and its value.
    Unknown(Bytes, MacroText),
}

/// The terms of a record, in order.
pub type Terms = Items<Term>;

/// An SPF record (RFC 7208, section 4.5).
#[derive(Drop)]
pub struct Policy {
    /// The terms, in order.
    pub terms: Terms,
}
