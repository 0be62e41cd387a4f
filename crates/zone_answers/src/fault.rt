//! Why a zone is not lent.
ghost use Rattle.std.specs.Prelude.{◌≡◌};

use dns_name::Name;
use std::alloc::AllocError;
use thiserror::Error;

/// Why a zone is not lent.
#[derive(Drop, Debug, Error)]
pub enum LendFault {
    /// A zone with this origin is lent.
    #[error("the same origin")]
    SameOrigin,

    /// The different records of all zones, this one's among them, are more than 65,536: so many.
    #[error("{count} records")]
    TooMany { count: u64 },

    /// A CNAME record stands beside another record of a type that is read at this name, the least such by its printed
    /// form.
    #[error("an alias beside other records")]
    AliasAndOther { name: Name },

    /// There is no memory.
    #[error("out of memory")]
    Memory,
}

impl From<AllocError> for LendFault {
    ghost use Rattle.zone_answers.specs.declared.fault.LendFault.TheVariants.{Memory};

    ghost from_gives = { λ _ fault. fault ≡ Memory };

    fn from(_: AllocError) -> LendFault {
        LendFault::Memory
    }
}
