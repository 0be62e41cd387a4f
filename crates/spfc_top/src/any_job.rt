//! The list of jobs.
ghost use Rattle.std.specs.Prelude.{IfOk, IfSome, IfNone};
ghost use Rattle.spfc_words.specs.Words.{texts};
ghost use Rattle.spfc_top.specs.AnyJob.{SpellsAny};
ghost use Rattle.spfc_top.specs.declared.any_job.AnyJob.{AnyJob};

use job_check::Check;
use job_compare::Compare;
use job_compile::Compile;
use job_deps::Deps;
use job_join::Join;
use job_keep::Keep;
use job_stale::Stale;
use job_trial::Trial;
use job_verify::Verify;
use jobs::{Job, Output};
use loading::{Loaded, OrMemory, Refusal};
use spfc_words::{Input, split_first};
use std::alloc::{AllocError, Global};

/// What the program is asked to do.
#[derive(Debug, Drop)]
pub enum AnyJob {
    /// `check DOMAIN ADDRESS READING ORIGIN=FILE..`
    Check(Check),
    /// `compile DOMAIN OPTIONS ORIGIN=FILE..`
    Compile(Compile),
    /// `deps DOMAIN READING ORIGIN=FILE..`
    Deps(Deps),
    /// `verify DOMAIN FILE OPTIONS ORIGIN=FILE..`
    Verify(Verify),
    /// `trial START N`
    Trial(Trial),
    /// `compare DOMAIN DOMAIN READING ORIGIN=FILE.. with ORIGIN=FILE..`
    Compare(Compare),
    /// `join DOMAIN DOMAIN.. OPTIONS ORIGIN=FILE..`
    Join(Join),
    /// `keep DOMAIN READING ORIGIN=FILE..`
    Keep(Keep),
    /// `stale FILE ORIGIN=FILE..`
    Stale(Stale),
}

/// The job that the words after the program's name spell; `None` exactly where they spell none.
pub fn read_words(alloc: Global, words: &[String]) -> Result<Option<AnyJob>, AllocError>
    ensures spelled { IfOk result (λ job. IfSome job (SpellsAny (texts words.now))) }
    ensures none { IfOk result (λ job. IfNone job ((any : AnyJob) → ¬ SpellsAny (texts words.now) any)) }
{
    AnyJob::read(alloc, words)
}

impl Job for AnyJob {
    ghost use Rattle.spfc_top.specs.AnyJob.{SpellsAny, meaning_of};
    ghost use Rattle.spfc_top.specs.Laws.{any_ready, one_any, any_lawful};

    ghost spells = { SpellsAny };

    ghost meaning = { meaning_of };

    ghost ready = { any_ready };

    ghost one_spelled = { one_any };

    ghost lawful = { any_lawful };

    fn read(alloc: Global, words: &[String]) -> Result<Option<AnyJob>, AllocError> {
        let Some((command, rest)) = split_first(words) else {
            return Ok(None);
        };
        match command {
            "check" => Ok(Check::read(alloc, rest)?.map(AnyJob::Check)),
            "compile" => Ok(Compile::read(alloc, rest)?.map(AnyJob::Compile)),
            "deps" => Ok(Deps::read(alloc, rest)?.map(AnyJob::Deps)),
            "verify" => Ok(Verify::read(alloc, rest)?.map(AnyJob::Verify)),
            "trial" => Ok(Trial::read(alloc, rest)?.map(AnyJob::Trial)),
            "compare" => Ok(Compare::read(alloc, rest)?.map(AnyJob::Compare)),
            "join" => Ok(Join::read(alloc, rest)?.map(AnyJob::Join)),
            "keep" => Ok(Keep::read(alloc, rest)?.map(AnyJob::Keep)),
            "stale" => Ok(Stale::read(alloc, rest)?.map(AnyJob::Stale)),
            _ => Ok(None),
        }
    }

    fn inputs(&self) -> &[Input] {
        match self {
            AnyJob::Check(job) => job.inputs(),
            AnyJob::Compile(job) => job.inputs(),
            AnyJob::Deps(job) => job.inputs(),
            AnyJob::Verify(job) => job.inputs(),
            AnyJob::Trial(job) => job.inputs(),
            AnyJob::Compare(job) => job.inputs(),
            AnyJob::Join(job) => job.inputs(),
            AnyJob::Keep(job) => job.inputs(),
            AnyJob::Stale(job) => job.inputs(),
        }
    }

    fn perform(&self, alloc: Global, loaded: &Loaded) -> Result<Output, OrMemory<Refusal>> {
        match self {
            AnyJob::Check(job) => job.perform(alloc, loaded),
            AnyJob::Compile(job) => job.perform(alloc, loaded),
            AnyJob::Deps(job) => job.perform(alloc, loaded),
            AnyJob::Verify(job) => job.perform(alloc, loaded),
            AnyJob::Trial(job) => job.perform(alloc, loaded),
            AnyJob::Compare(job) => job.perform(alloc, loaded),
            AnyJob::Join(job) => job.perform(alloc, loaded),
            AnyJob::Keep(job) => job.perform(alloc, loaded),
            AnyJob::Stale(job) => job.perform(alloc, loaded),
        }
    }
}
