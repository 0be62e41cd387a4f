//! Records out of the pieces of a file.
ghost use Rattle.std.specs.Prelude.{ℕ, ◌+◌, ◌<◌, ◌^◌, List, [], ◌++◌, length, IfOk, IfErr, OnOk};
ghost use Rattle.master_reader.specs.declared.fault.Kind.{Kind};
ghost use Rattle.master_reader.specs.Reading.{Reads, Faults};
ghost use Rattle.master_reader.specs.Readers.{StandsFor, DecidesFault, FaultIs};

use crate::fault::ZoneFault;
use crate::progress::Progress;
use crate::record::Records;
use dns_name::Name;
use master_lex::Cutter;
use std::alloc::Global;
use std::marker::Model;

/// Reads the records of a master file (RFC 1035, section 5) from its pieces, however it is cut. It keeps the open entry
/// and the records so far.
#[derive(Drop, Debug)]
pub struct Reader {
    cutter: Cutter,
    progress: Progress,
}

impl Model for Reader {
    ghost use Rattle.master_reader.specs.Readers.{Kept};
    ghost use Rattle.master_reader.specs.Progress.{kept_with};

    ghost Value = { Kept };

    ghost view = { λ a. kept_with a.cutter a.progress };
}

impl Reader {
    /// A reader of no bytes, for the zone at the origin. It keeps the allocator and takes no memory.
    pub fn new(alloc: Global, origin: Name) -> Reader
        ensures { StandsFor origin result [] }
    {
        Reader {
            cutter: Cutter::new(alloc),
            progress: Progress {
                alloc,
                zone: origin,
                origin: None,
                owner: None,
                records: Records::new(alloc),
            },
        }
    }

    /// Takes a piece. `Bad` comes exactly where a broken or faulty entry is decided in the bytes taken, and names the
    /// first one by its line and kind.
    pub fn feed(self, piece: &[u8]) -> Result<Reader, ZoneFault>
        ensures taken { (zone : List (List ℕ)) (bytes : List ℕ) → StandsFor zone self bytes
            → length (bytes ++ piece.now) < 2 ^ 64
            → IfOk result (λ r. StandsFor zone r (bytes ++ piece.now)) }
        ensures bad { (zone : List (List ℕ)) (bytes : List ℕ) → StandsFor zone self bytes
            → length (bytes ++ piece.now) < 2 ^ 64
            → IfErr result (FaultIs (DecidesFault zone (bytes ++ piece.now))) }
        ensures not_bad { (zone : List (List ℕ)) (bytes : List ℕ) → StandsFor zone self bytes
            → length (bytes ++ piece.now) < 2 ^ 64
            → OnOk result ((line : ℕ) (kind : Kind) → ¬ DecidesFault zone (bytes ++ piece.now) line kind) }
    {
        let Reader {
            mut cutter,
            mut progress,
        } = self;
        for byte in piece {
            let (next, entry) = cutter.step(*byte)?;
            cutter = next;
            if let Some(entry) = entry {
                progress.take(&entry)?;
            }
        }
        Ok(Reader { cutter, progress })
    }

    /// The records of the whole, or its first fault.
    pub fn finish(self) -> Result<Records, ZoneFault>
        ensures reads { (zone : List (List ℕ)) (bytes : List ℕ) → StandsFor zone self bytes
            → IfOk result (Reads zone bytes) }
        ensures bad { (zone : List (List ℕ)) (bytes : List ℕ) → StandsFor zone self bytes
            → IfErr result (FaultIs (Faults zone bytes)) }
        ensures not_bad { (zone : List (List ℕ)) (bytes : List ℕ) → StandsFor zone self bytes
            → OnOk result ((line : ℕ) (kind : Kind) → ¬ Faults zone bytes line kind) }
    {
        let Reader {
            cutter,
            mut progress,
        } = self;
        if let Some(entry) = cutter.finish()? {
            progress.take(&entry)?;
        }
        let Progress { records, .. } = progress;
        Ok(records)
    }
}

/// The records of a master file at or below the origin, in the file's order (RFC 1035, section 5). `Bad` comes exactly
/// where the file has no reading, and names the first broken or faulty entry by the line on which it begins and its
/// kind.
pub fn read_zone(alloc: Global, origin: &Name, bytes: &[u8]) -> Result<Records, ZoneFault>
    ensures reads { IfOk result (Reads origin.now bytes.now) }
    ensures bad { IfErr result (FaultIs (Faults origin.now bytes.now)) }
    ensures not_bad { OnOk result ((line : ℕ) (kind : Kind) → ¬ Faults origin.now bytes.now line kind) }
{
    Reader::new(alloc, origin.clone()?).feed(bytes)?.finish()
}
