//! Reading the records of a zone's file, piece by piece.
ghost use Rattle.std.specs.Prelude.{◌≡◌, ◌<◌, ◌≤◌, ◌+◌, ◌^◌, ◌++◌, ℕ, List, Some, Ok, Err, length, IsTrue, IsErrOf};
ghost use Rattle.std.specs.Prelude.{IfOk, IfErr};
ghost use Rattle.master_reader.specs.Reading.{Reads as HasReading, Faults};
ghost use Rattle.master_reader.specs.Readers.{FaultIs};
ghost use Rattle.zone_answers.specs.Lend.{AreLendable};
ghost use Rattle.spfc_outer.specs.Causes.{HasOpenCause};
ghost use Rattle.spfc_outer.specs.Moved.{Takes, TakesAtMost};
ghost use Rattle.spfc_outer.specs.Seen.{Keeps, FailsAt};
ghost use Rattle.loading.specs.Loading.{RecordsDue, IsRefusal, StopsAt, most_bytes};
ghost use Rattle.loading.specs.Memory.{ErrorIs};
ghost use Rattle.loading.specs.Reading.{ComesTo, HasTaken, EndsTaken, HasRead, HasLoaded};

use crate::stop::refused;
use crate::text::copied;
use crate::{OrMemory, Refusal, Stop};
use dns_name::Name;
use master_reader::{Kind, Reader, Records, ZoneFault};
use spfc_outer::{Files, OpenFault, Opened};
use std::alloc::{AllocError, Global};

/// The most bytes of a file.
pub(crate) const MAX_FILE: usize = 8_388_608;

/// How many bytes are read at once.
const PIECE: usize = 4096;

/// What the bytes of a file come to, as far as they were read.
#[derive(Drop)]
pub(crate) enum Progress {
    /// No fault is decided in them.
    Reads(Reader),
    /// They decide the first fault of the file, in the entry that begins on this line.
    Faulty { line: u64, kind: Kind },
}

impl Progress {
    /// What the bytes come to with one piece more. Behind a fault they are passed over.
    fn take(self, piece: &[u8]) -> Result<Progress, AllocError>
        ensures { (origin : List (List ℕ)) (bytes : List ℕ) → ComesTo origin bytes self
            → length (bytes ++ piece.now) < 2 ^ 64 → IfOk result (ComesTo origin (bytes ++ piece.now)) }
    {
        match self {
            Progress::Reads(reader) => match reader.feed(piece) {
                Ok(reader) => Ok(Progress::Reads(reader)),
                Err(ZoneFault::Bad { line, kind }) => Ok(Progress::Faulty { line, kind }),
                Err(ZoneFault::Memory) => Err(AllocError),
            },
            Progress::Faulty { line, kind } => Ok(Progress::Faulty { line, kind }),
        }
    }

    /// The records of the file that ends here.
    fn finish(self) -> Result<Records, ZoneFault>
        ensures reads { (origin : List (List ℕ)) (bytes : List ℕ) → ComesTo origin bytes self
            → IfOk result (HasReading origin bytes) }
        ensures bad { (origin : List (List ℕ)) (bytes : List ℕ) → ComesTo origin bytes self
            → IfErr result (FaultIs (Faults origin bytes)) }
    {
        match self {
            Progress::Reads(reader) => reader.finish(),
            Progress::Faulty { line, kind } => Err(ZoneFault::Bad { line, kind }),
        }
    }
}

/// How many bytes of a file were read, and what they come to.
#[derive(Drop)]
pub(crate) struct Taken {
    count: usize,
    progress: Progress,
}

impl Taken {
    /// With one piece more.
    fn take(self, piece: &[u8]) -> Result<Taken, AllocError>
        requires { self.count + length piece.now ≤ most_bytes + 1 }
        ensures count { IfOk result (λ taken. taken.count ≡ self.count + length piece.now) }
        ensures within { IfOk result (λ taken. taken.count ≤ most_bytes + 1) }
        ensures taken { (origin : List (List ℕ)) (bytes : List ℕ) → HasTaken origin bytes self
            → IfOk result (HasTaken origin (bytes ++ piece.now)) }
    {
        let Taken { count, progress } = self;
        let progress = progress.take(piece)?;
        Ok(Taken {
            count: count + piece.len(),
            progress,
        })
    }

    /// The records of the file that was read, or why there are none.
    fn judge(self, alloc: Global, file: &[u8]) -> Result<Records, OrMemory<Stop>>
        ensures done { (origin : List (List ℕ)) (contents : List ℕ) → EndsTaken origin contents self
            → IfOk result (λ records. RecordsDue (Some contents) origin file.now (Ok records)) }
        ensures lendable { (origin : List (List ℕ)) (contents : List ℕ) → EndsTaken origin contents self
            → IfOk result (AreLendable origin) }
        ensures stops { (origin : List (List ℕ)) (contents : List ℕ) → EndsTaken origin contents self
            → IfErr result (ErrorIs (IsRefusal (λ why. RecordsDue (Some contents) origin file.now (Err why)))) }
    {
        if self.count > MAX_FILE {
            let file = copied(alloc, file)?;
            return Err(refused(Refusal::LongFile { file }));
        }
        match self.progress.finish() {
            Ok(records) => Ok(records),
            Err(ZoneFault::Bad { line, kind }) => {
                let file = copied(alloc, file)?;
                Err(refused(Refusal::BadZone { file, line, kind }))
            }
            Err(ZoneFault::Memory) => Err(OrMemory::Memory),
        }
    }
}

/// Reads what is left of the chosen file, at most one byte more than a file may have.
fn take_rest<F: Files>(alloc: Global, files: &mut F, origin: &Name) -> Result<Taken, OpenFault>
    requires { IsTrue (F.is_chosen files.old) }
    ensures told { (F.seen files.new).told ≡ (F.seen files.old).told }
    ensures held { (F.seen files.new).held ≡ (F.seen files.old).held }
    ensures taken { IfOk result (HasRead (F.seen files.old).told origin.now (F.rest files.old)) }
    ensures takes { IsTrue (F.seen files.old).told
        → TakesAtMost (most_bytes + 1) (F.rest files.old) (F.rest files.new) }
    ensures named { IsTrue (F.seen files.old).told → IsErrOf result OpenFault.Failed
        → (F.seen files.new).last_fault ≡ Some (F.chosen_name files.old) }
    ensures cause { HasOpenCause (F.seen files.old).faults (F.seen files.new).faults result }
    ensures assured { IsTrue (F.seen files.old).is_assured → IsTrue (F.seen files.new).is_assured }
    ensures never_fails { IsTrue (F.seen files.old).is_assured → IsErrOf result OpenFault.Failed → ⊥ }
{
    let mut taken = Taken {
        count: 0,
        progress: Progress::Reads(Reader::new(alloc, origin.clone()?)),
    };
    while taken.count <= MAX_FILE {
        let mut buf = [0u8; PIECE];
        let room = (MAX_FILE + 1 - taken.count).min(PIECE);
        let count = files.read(&mut buf[..room])?;
        if count == 0 {
            return Ok(taken);
        }
        taken = taken.take(&buf[..count])?;
    }
    Ok(taken)
}

/// Chooses the file of a zone and reads it; `None` where there is no such file.
fn take_file<F: Files>(
    alloc: Global,
    files: &mut F,
    origin: &Name,
    file: &[u8],
) -> Result<Option<Taken>, OpenFault>
    ensures keeps { Keeps (F.seen files.old) (F.seen files.new) }
    ensures loaded { IfOk result (HasLoaded (F.seen files.old).told origin.now ((F.seen files.old).held file.now)) }
    ensures takes { IsTrue (F.seen files.old).told → Takes (most_bytes + 1) ((F.seen files.old).held file.now)
        (files.new ≡ files.old) (F.is_chosen files.new) (F.rest files.new) }
    ensures fails { IsErrOf result OpenFault.Failed → FailsAt (F.seen files.old) (F.seen files.new) file.now }
{
    match files.open_file(file)? {
        Opened::Missing => Ok(None),
        Opened::Chosen => {
            let taken = take_rest(alloc, files, origin)?;
            Ok(Some(taken))
        }
    }
}

/// The records of the master file of a zone (RFC 1035, section 5), of which at most 8,388,609 bytes are taken. Refused
/// are a name of no file, a file of more than 8,388,608 bytes, and one that has no reading; `ReadFault` comes only
/// where its calls failed.
pub fn read_records<F: Files>(
    alloc: Global,
    files: &mut F,
    origin: &Name,
    file: &[u8],
) -> Result<Records, OrMemory<Stop>>
    ensures keeps { Keeps (F.seen files.old) (F.seen files.new) }
    ensures done { IsTrue (F.seen files.old).told → IfOk result (λ records.
        RecordsDue ((F.seen files.old).held file.now) origin.now file.now (Ok records)) }
    ensures lendable { IfOk result (AreLendable origin.now) }
    ensures takes { IsTrue (F.seen files.old).told → Takes (most_bytes + 1) ((F.seen files.old).held file.now)
        (files.new ≡ files.old) (F.is_chosen files.new) (F.rest files.new) }
    ensures stops { IfErr result (ErrorIs (StopsAt (F.seen files.old) (F.seen files.new) file.now
        (λ why. RecordsDue ((F.seen files.old).held file.now) origin.now file.now (Err why)))) }
{
    match take_file(alloc, files, origin, file) {
        Ok(Some(taken)) => taken.judge(alloc, file),
        Ok(None) => {
            let file = copied(alloc, file)?;
            Err(refused(Refusal::NoFile { file }))
        }
        Err(OpenFault::Failed) => {
            let file = copied(alloc, file)?;
            Err(OrMemory::Error(Stop::ReadFault { file }))
        }
        Err(OpenFault::Memory) => Err(OrMemory::Memory),
    }
}
