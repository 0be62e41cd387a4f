//! Why there are no verdicts.
ghost use Rattle.std.specs.Prelude.{◌≡◌};

use addr_bits::Address;
use spf_model::Outcome;
use std::alloc::AllocError;
use thiserror::Error;

/// Why there are no verdicts of every address.
#[derive(Drop, Debug, Error)]
pub enum VerdictFault {
    /// Some address has no verdict: the least IPv4 address, or where each of these has one, the least IPv6 address; and
    /// its outcome.
    #[error("an address without a verdict")]
    Refused { address: Address, outcome: Outcome },

    /// There is no memory.
    #[error("out of memory")]
    Memory,
}

impl From<AllocError> for VerdictFault {
    ghost use Rattle.verdict_map.specs.declared.fault.VerdictFault.TheVariants.{Memory};

    ghost from_gives = { λ _ fault. fault ≡ Memory };

    fn from(_: AllocError) -> VerdictFault {
        VerdictFault::Memory
    }
}
