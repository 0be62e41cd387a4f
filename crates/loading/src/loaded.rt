//! What was read.
ghost use Rattle.std.specs.Prelude.{◌≡◌};
ghost use Rattle.loading.specs.Loading.{nothing};

use addr_bits::Bytes;
use std::alloc::Global;
use zone_answers::Zones;

/// What the files of a job came to.
#[derive(Debug, Drop)]
pub struct Loaded {
    /// The zones of the first group.
    pub zones: Zones,
    /// The zones of the second group.
    pub others: Zones,
    /// The contents of the file that is no zone; empty for a job that reads none.
    pub file: Bytes,
}

impl Loaded {
    /// Nothing is read.
    pub fn new(alloc: Global) -> Loaded
        ensures { result ≡ nothing }
    {
        Loaded {
            zones: Zones::new(alloc),
            others: Zones::new(alloc),
            file: Bytes::new(alloc),
        }
    }
}
