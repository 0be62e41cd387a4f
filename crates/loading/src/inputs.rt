//! Reading the files of a job, in order.
ghost use Rattle.std.specs.Prelude.{◌≡◌, ◌+◌, [], Ok, Err, IsTrue, IfOk, IfErr, OnOk};
ghost use Rattle.spfc_outer.specs.Moved.{Takes};
ghost use Rattle.spfc_outer.specs.Seen.{Keeps};
ghost use Rattle.loading.specs.Loading.{FileDue, ZonesDue, InputDue, Loads, nothing, most_bytes};
ghost use Rattle.loading.specs.Loading.{StopsAt, StopsAmong};
ghost use Rattle.loading.specs.Memory.{ErrorIs};

use crate::lending::lend;
use crate::reading::{MAX_FILE, read_records};
use crate::stop::refused;
use crate::text::copied;
use crate::{Loaded, OrMemory, Refusal, Stop};
use addr_bits::Bytes;
use dns_name::Name;
use spfc_outer::{Files, OpenFault, load};
use spfc_words::{Input, Place};
use std::alloc::Global;
use zone_answers::Zones;

/// The files of a job, read in order. A file of more than 8,388,608 bytes is refused, of which one byte more is read.
/// No two inputs of one group are to have one origin, and those of `push_zone_words` have none: the second one is
/// answered as want of memory.
pub fn load_inputs<F: Files>(
    alloc: Global,
    files: &mut F,
    inputs: &[Input],
) -> Result<Loaded, OrMemory<Stop>>
    ensures keeps { Keeps (F.seen files.old) (F.seen files.new) }
    ensures done { IsTrue (F.seen files.old).told
        → IfOk result (λ loaded. Loads (F.seen files.old).held inputs.now (Ok loaded)) }
    ensures none { inputs.now ≡ [] → (result ≡ Ok nothing) × (files.new ≡ files.old) }
    ensures stops { IfErr result (ErrorIs (StopsAmong (F.seen files.old) (F.seen files.new) inputs.now)) }
{
    let mut loaded = Loaded::new(alloc);
    if inputs.is_empty() {
        return Ok(loaded);
    }
    for input in inputs {
        read_input(alloc, files, &mut loaded, input)?;
    }
    Ok(loaded)
}

/// Reads one more file.
fn read_input<F: Files>(
    alloc: Global,
    files: &mut F,
    loaded: &mut Loaded,
    input: &Input,
) -> Result<(), OrMemory<Stop>>
    ensures keeps { Keeps (F.seen files.old) (F.seen files.new) }
    ensures done { IsTrue (F.seen files.old).told
        → OnOk result (InputDue (F.seen files.old).held loaded.old input.now (Ok loaded.new)) }
    ensures stops { IfErr result (ErrorIs (StopsAt (F.seen files.old) (F.seen files.new) input.now.file
        (λ why. InputDue (F.seen files.old).held loaded.old input.now (Err why)))) }
{
    let file = input.file.as_slice();
    match &input.place {
        Place::Zone(origin) => read_zone(alloc, files, &mut loaded.zones, origin, file),
        Place::Other(origin) => read_zone(alloc, files, &mut loaded.others, origin, file),
        Place::File => {
            loaded.file = read_file(alloc, files, file)?;
            Ok(())
        }
    }
}

/// Reads the file of one more zone, and lends it beside those of its group.
fn read_zone<F: Files>(
    alloc: Global,
    files: &mut F,
    zones: &mut Zones,
    origin: &Name,
    file: &[u8],
) -> Result<(), OrMemory<Stop>>
    ensures keeps { Keeps (F.seen files.old) (F.seen files.new) }
    ensures done { IsTrue (F.seen files.old).told → OnOk result
        (ZonesDue ((F.seen files.old).held file.now) zones.old origin.now file.now (Ok zones.new)) }
    ensures stops { IfErr result (ErrorIs (StopsAt (F.seen files.old) (F.seen files.new) file.now
        (λ why. ZonesDue ((F.seen files.old).held file.now) zones.old origin.now file.now (Err why)))) }
{
    let records = read_records(alloc, files, origin, file)?;
    match lend(zones, origin, records) {
        Ok(()) => Ok(()),
        Err(OrMemory::Error(why)) => Err(refused(why)),
        Err(OrMemory::Memory) => Err(OrMemory::Memory),
    }
}

/// The contents of a file that is no zone, of which at most 8,388,609 bytes are taken. Refused are a name of no file,
/// and a file of more than 8,388,608 bytes; `ReadFault` comes only where its calls failed.
pub fn read_file<F: Files>(
    alloc: Global,
    files: &mut F,
    file: &[u8],
) -> Result<Bytes, OrMemory<Stop>>
    ensures keeps { Keeps (F.seen files.old) (F.seen files.new) }
    ensures done { IsTrue (F.seen files.old).told
        → IfOk result (λ contents. FileDue ((F.seen files.old).held file.now) file.now (Ok contents)) }
    ensures takes { IsTrue (F.seen files.old).told → Takes (most_bytes + 1) ((F.seen files.old).held file.now)
        (files.new ≡ files.old) (F.is_chosen files.new) (F.rest files.new) }
    ensures stops { IfErr result (ErrorIs (StopsAt (F.seen files.old) (F.seen files.new) file.now
        (λ why. FileDue ((F.seen files.old).held file.now) file.now (Err why)))) }
{
    match load(alloc, files, file, MAX_FILE + 1) {
        Ok(Some(bytes)) => {
            if bytes.len() > MAX_FILE {
                let file = copied(alloc, file)?;
                return Err(refused(Refusal::LongFile { file }));
            }
            Ok(bytes)
        }
        Ok(None) => {
            let file = copied(alloc, file)?;
            Err(refused(Refusal::NoFile { file }))
        }
        Err(OpenFault::Failed) => {
            let file = copied(alloc, file)?;
            Err(OrMemory::Error(Stop::ReadFault { file }))
        }
        Err(OpenFault::Memory) => Err(OrMemory::Memory),
    }
}
