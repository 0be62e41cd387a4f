//! Records, and the lists that they are made of.

use addr_bits::{Address, Bytes, Items};
use dns_name::Name;

/// The strings of a TXT record (RFC 1035, section 3.3.14).
pub type Text = Items<Bytes>;

/// What a record says of its owner.
#[derive(Clone, Debug, Drop, PartialEq, Eq, Hash)]
pub enum Body {
    /// The number of an IPv4 address (RFC 1035, section 3.4.1).
    A(u32),

    /// The number of an IPv6 address (RFC 3596, section 2.2).
    Aaaa(u128),

    /// The preference and the name of a mail exchange (RFC 1035, section 3.3.9).
    Mx(u16, Name),

    /// One or more strings of at most 255 octets (RFC 1035, section 3.3.14).
    Txt(Text),

    /// The name that the owner is an alias for (RFC 1035, section 3.3.1).
    Cname(Name),

    /// The name of a server of the owner's zone (RFC 1035, section 3.3.11).
    Ns(Name),

    /// A record of a type that is passed over.
    Other,
}

impl Body {
    ghost use Rattle.std.specs.Prelude.{◌≡◌};
    ghost use Rattle.master_reader.specs.Data.{address_in};

    /// The address that the record has, if it is of a type that has one.
    pub fn address(&self) -> Option<Address>
        ensures { result ≡ address_in self.now }
    {
        match self {
            Body::A(number) => Some(Address::V4(*number)),
            Body::Aaaa(number) => Some(Address::V6(*number)),
            _ => None,
        }
    }
}

/// A record: the name at which it stands, and what it says.
#[derive(Clone, Debug, Drop, PartialEq, Eq, Hash)]
pub struct Record {
    pub owner: Name,
    pub body: Body,
}

/// Records, in order.
pub type Records = Items<Record>;
