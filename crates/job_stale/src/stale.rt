//! The job.
ghost use Rattle.std.specs.Prelude.{◌∷◌, IfOk};
ghost use Rattle.std.specs.List.{AllByRecursion};
ghost use Rattle.kept_lists.specs.Lists.{HasRoom};
ghost use Rattle.spfc_words.specs.Words.{texts};
ghost use Rattle.jobs.specs.Meaning.{Reads};
ghost use Rattle.job_stale.specs.Meaning.{IsWatchLine};
ghost use Rattle.job_stale.specs.Words.{SpellsStale};

use addr_bits::Bytes;
use deps_watch::{Freshness, Kept, KeptFault, read_kept, stale};
use jobs::{Job, Output};
use loading::{Loaded, OrMemory, Refusal, copied, line};
use spfc_words::{Group, Input, Inputs, push_file, push_zone_words, split_first};
use std::alloc::{AllocError, Global};
use zone_answers::{Questions, Zones};

/// Whether the zones say to each question of a kept list what was kept of it.
#[derive(Debug, Drop)]
pub struct Stale {
    /// The name of the file, as it was written.
    pub file: Bytes,
    /// The zones, and behind them the file.
    pub inputs: Inputs,
}

impl Job for Stale {
    ghost use Rattle.job_stale.specs.Words.{SpellsStale};
    ghost use Rattle.job_stale.specs.Meaning.{meaning_of_stale};
    ghost use Rattle.job_stale.specs.Laws.{stale_ready, one_stale, stale_lawful};

    ghost spells = { SpellsStale };

    ghost meaning = { meaning_of_stale };

    ghost ready = { stale_ready };

    ghost one_spelled = { one_stale };

    ghost lawful = { stale_lawful };

    fn read(alloc: Global, words: &[String]) -> Result<Option<Stale>, AllocError> {
        match split_first(words) {
            Some((file, rest)) => read_behind(alloc, file, rest),
            None => Ok(None),
        }
    }

    fn inputs(&self) -> &[Input] {
        self.inputs.as_slice()
    }

    fn perform(&self, alloc: Global, loaded: &Loaded) -> Result<Output, OrMemory<Refusal>> {
        match read_kept(alloc, loaded.file.as_slice()) {
            Ok(kept) => Ok(Output {
                bytes: watch_line(alloc, &loaded.zones, &kept)?,
                asked: Questions::new(alloc),
            }),
            Err(KeptFault::NotKept { line }) => {
                let file = copied(alloc, self.file.as_slice())?;
                Err(OrMemory::Error(Refusal::BadList { file, line }))
            }
            Err(KeptFault::Memory) => Err(OrMemory::Memory),
        }
    }
}

/// The job of a file and the zone words behind it. The file is read behind the zones.
fn read_behind(alloc: Global, file: &str, rest: &[String]) -> Result<Option<Stale>, AllocError>
    ensures { Reads SpellsStale (file.now ∷ texts rest.now) result }
{
    if file.is_empty() {
        return Ok(None);
    }
    let mut inputs = Inputs::new(alloc);
    if !push_zone_words(alloc, &mut inputs, Group::Zones, rest)? {
        return Ok(None);
    }
    push_file(alloc, &mut inputs, file)?;
    let file = copied(alloc, file.as_bytes())?;
    Ok(Some(Stale { file, inputs }))
}

/// The line that says that each question is answered as it was, or names the first one that is not.
fn watch_line(alloc: Global, zones: &Zones, kept: &Kept) -> Result<Bytes, AllocError>
    requires { AllByRecursion (λ line. HasRoom line.question.kind line.question.name) kept.now.lines }
    ensures { IfOk result (IsWatchLine zones.now kept.now.lines) }
{
    match stale(alloc, zones, kept)? {
        Freshness::Fresh => line(alloc, "fresh", b""),
        Freshness::Stale { line: place } => {
            let first = &kept.lines.as_slice()[place as usize - 2];
            line(alloc, "stale ", &first.question.text())
        }
    }
}
