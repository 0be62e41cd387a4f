//! Why a list has no cut.

use std::alloc::AllocError;
use thiserror::Error;

/// Why a list has no cut.
#[derive(Clone, Copy, Debug, PartialEq, Eq, Error)]
pub enum PackFault {
    /// No cut of the list fits.
    #[error("too big")]
    TooBig,

    /// There is no memory.
    #[error("out of memory")]
    Memory,
}

impl From<AllocError> for PackFault {
    ghost use Rattle.std.specs.Prelude.{◌≡◌};
    ghost use Rattle.record_pack.specs.declared.fault.PackFault.TheVariants.{Memory};

    ghost from_gives = { λ _ fault. fault ≡ Memory };

    fn from(_: AllocError) -> PackFault {
        PackFault::Memory
    }
}
