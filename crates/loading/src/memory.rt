//! A fault, or want of memory.
ghost use Rattle.std.specs.Prelude.{◌≡◌};
ghost use Rattle.loading.specs.Memory.{refusal_of};
ghost use Rattle.loading.specs.declared.memory.OrMemory.TheVariants.{Memory};

use crate::Refusal;
use std::alloc::AllocError;
use verdict_map::VerdictFault;

/// Why a call gives nothing: an error of its own, or want of memory.
#[derive(Debug, Drop)]
pub enum OrMemory<E> {
    /// The call's own error.
    Error(E),
    /// There is no memory.
    Memory,
}

impl<E> From<AllocError> for OrMemory<E> {
    ghost from_gives = { λ _ e. e ≡ Memory };

    fn from(_: AllocError) -> Self {
        OrMemory::Memory
    }
}

impl From<VerdictFault> for OrMemory<Refusal> {
    ghost from_gives = { λ fault e. e ≡ refusal_of fault };

    fn from(fault: VerdictFault) -> Self {
        match fault {
            VerdictFault::Refused { address, outcome } => {
                OrMemory::Error(Refusal::NoVerdict { address, outcome })
            }
            VerdictFault::Memory => OrMemory::Memory,
        }
    }
}
