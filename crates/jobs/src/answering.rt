//! What the words come to, before anything is written.
ghost use Rattle.std.specs.Prelude.{◌≡◌, IfOk};
ghost use Rattle.spfc_outer.specs.Seen.{Keeps};
ghost use Rattle.loading.specs.Refusals.{refusal_status, refusal_line};
ghost use Rattle.jobs.specs.Meaning.{program};
ghost use Rattle.jobs.specs.Given.{given};
ghost use Rattle.jobs.specs.Answer.{IsAnswer};

use crate::{Job, Output};
use addr_bits::Bytes;
use loading::{OrMemory, Refusal, Stop, line, load_inputs};
use spfc_outer::Files;
use std::alloc::{AllocError, Global};

/// What is written, and where.
#[derive(Drop)]
pub enum Answer {
    /// The job's output.
    Writes(Output),
    /// A line for standard error, with the status.
    Says { status: u8, line: Bytes },
}

/// The answer to the words: the output of the job that they spell, or a line with its status. All is computed here.
pub fn answer_words<J: Job, F: Files>(
    alloc: Global,
    words: &[String],
    files: &mut F,
) -> Result<Answer, AllocError>
    ensures keeps { Keeps (F.seen files.old) (F.seen files.new) }
    ensures answer { IfOk result
        (IsAnswer (program J.spells J.meaning) (given words.now (F.seen files.old)) (F.seen files.new)) }
{
    let Some(job) = J::read(alloc, words)? else {
        let line = line(alloc, "usage", b"")?;
        return Ok(Answer::Says { status: 4, line });
    };
    let loaded = match load_inputs(alloc, files, job.inputs()) {
        Ok(loaded) => loaded,
        Err(OrMemory::Error(Stop::Refused(why))) => return say(alloc, &why),
        Err(OrMemory::Error(Stop::ReadFault { file })) => {
            let line = line(alloc, "read fault ", file.as_slice())?;
            return Ok(Answer::Says { status: 5, line });
        }
        Err(OrMemory::Memory) => return Err(AllocError),
    };
    match job.perform(alloc, &loaded) {
        Ok(output) => Ok(Answer::Writes(output)),
        Err(OrMemory::Error(why)) => say(alloc, &why),
        Err(OrMemory::Memory) => Err(AllocError),
    }
}

/// The line of a refusal, with its status.
fn say(alloc: Global, why: &Refusal) -> Result<Answer, AllocError>
    ensures { IfOk result (λ answer. answer ≡ Answer.Says (refusal_status why.now) (refusal_line why.now)) }
{
    let line = why.line(alloc)?;
    Ok(Answer::Says {
        status: why.status(),
        line,
    })
}
