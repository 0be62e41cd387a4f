//! What differs between the families: all code over both is generic over this.
ghost use Rattle.std.specs.Prelude.{◌≡◌, ℕ, MatchResult, option_map};
ghost use Rattle.addr_bits.specs.Address.{bits_of, address_of, number_in, SpellsIn, text_in};

use crate::{Address, Family, NotAddress, Width, read_ip4, read_ip6, write_ip4, write_ip6};
use arrayvec::ArrayString;

/// The addresses of one family, as their numbers.
pub trait AddressFamily: Width {
    ghost use Rattle.addr_bits.specs.declared.address.Family.{Family};

    // The family: what else differs between the two is defined by it.
    ghost family: { Family };

    /// The family.
    fn family() -> Family
        ensures { result ≡ family };

    /// The address with this number.
    fn address(self) -> Address
        ensures { result ≡ address_of family (Self.number self) };

    /// The number of an address; `None` exactly where it is of the other family.
    fn from_address(address: Address) -> Option<Self>
        ensures { option_map Self.number result ≡ number_in family address };

    /// The number of the address that the text spells; `NotAddress` exactly where it spells none of the family.
    fn read(text: &[u8]) -> Result<Self, NotAddress>
        ensures { MatchResult result (λ a. SpellsIn family text.now (Self.number a))
            (λ _. (n : ℕ) → ¬ SpellsIn family text.now n) };

    /// The written form.
    fn write(self) -> ArrayString<39>
        ensures text { result.bytes ≡ text_in family (Self.number self) }
        ensures spells { SpellsIn family result.bytes (Self.number self) };

    ghost bits: { Self.BITS ≡ bits_of family };
}

impl AddressFamily for u32 {
    ghost use Rattle.std.specs.Prelude.{refl};
    ghost use Rattle.addr_bits.specs.declared.address.Family.TheVariants.{V4};

    ghost family = { V4 };

    ghost bits = { refl };

    fn family() -> Family {
        Family::V4
    }

    fn address(self) -> Address {
        Address::V4(self)
    }

    fn from_address(address: Address) -> Option<u32> {
        match address {
            Address::V4(number) => Some(number),
            Address::V6(_) => None,
        }
    }

    fn read(text: &[u8]) -> Result<u32, NotAddress> {
        read_ip4(text)
    }

    fn write(self) -> ArrayString<39> {
        let mut text = ArrayString::new();
        text.push_str(write_ip4(self).as_str());
        text
    }
}

impl AddressFamily for u128 {
    ghost use Rattle.std.specs.Prelude.{refl};
    ghost use Rattle.addr_bits.specs.declared.address.Family.TheVariants.{V6};

    ghost family = { V6 };

    ghost bits = { refl };

    fn family() -> Family {
        Family::V6
    }

    fn address(self) -> Address {
        Address::V6(self)
    }

    fn from_address(address: Address) -> Option<u128> {
        match address {
            Address::V4(_) => None,
            Address::V6(number) => Some(number),
        }
    }

    fn read(text: &[u8]) -> Result<u128, NotAddress> {
        read_ip6(text)
    }

    fn write(self) -> ArrayString<39> {
        write_ip6(self)
    }
}
