//! The networks of one family.
ghost use Rattle.std.specs.Prelude.{◌≡◌};
ghost use Rattle.addr_bits.specs.declared.address.Family.TheVariants.{V4, V6};
ghost use Rattle.spf_grammar.specs.Families.{net_in, part_in};

use crate::Net;
use addr_bits::{AddressFamily, Prefix};

/// The networks of one family (RFC 7208, section 5.6).
pub trait NetworkFamily: AddressFamily {
    /// The network of a prefix.
    fn net(prefix: &Prefix<Self>) -> Net
        ensures { result ≡ net_in Self.family prefix.now };

    /// The prefix of the family's addresses that a network has; `None` exactly where it is of the other family. `all`
    /// has every address (RFC 7208, section 5.1).
    fn part(net: Net) -> Option<Prefix<Self>>
        ensures { result ≡ part_in Self.family net };
}

impl NetworkFamily for u32 {
    fn net(prefix: &Prefix<u32>) -> Net
        ensures { result ≡ net_in V4 prefix.now }
    {
        Net::V4(*prefix)
    }

    fn part(net: Net) -> Option<Prefix<u32>> {
        match net {
            Net::V4(prefix) => Some(prefix),
            Net::V6(_) => None,
            Net::All => Some(Prefix::new(0, 0)),
        }
    }
}

impl NetworkFamily for u128 {
    fn net(prefix: &Prefix<u128>) -> Net
        ensures { result ≡ net_in V6 prefix.now }
    {
        Net::V6(*prefix)
    }

    fn part(net: Net) -> Option<Prefix<u128>> {
        match net {
            Net::V4(_) => None,
            Net::V6(prefix) => Some(prefix),
            Net::All => Some(Prefix::new(0, 0)),
        }
    }
}
