//! Why the files of a job are not read.
ghost use Rattle.std.specs.Prelude.{◌≡◌};
ghost use Rattle.loading.specs.declared.memory.OrMemory.TheVariants.{Error};

use crate::{OrMemory, Refusal};
use addr_bits::Bytes;

/// Why the files of a job are not read.
#[derive(Debug, Drop)]
pub enum Stop {
    /// The job is refused.
    Refused(Refusal),
    /// The calls of this file failed.
    ReadFault { file: Bytes },
}

/// The refusal, as a reason to stop.
pub(crate) fn refused(why: Refusal) -> OrMemory<Stop>
    ensures { result ≡ Error (Stop.Refused why) }
{
    OrMemory::Error(Stop::Refused(why))
}
