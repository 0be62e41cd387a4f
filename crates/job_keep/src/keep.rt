//! The job.
use deps_watch::keep;
use jobs::{Job, Output};
use loading::{Loaded, OrMemory, Refusal};
use spfc_words::{Input, Subject};
use std::alloc::{AllocError, Global};
use zone_answers::Questions;

/// The kept list of a domain: the questions that check_host (RFC 7208, section 4) asks for some address, each with what
/// the zones say to it.
#[derive(Debug, Drop)]
pub struct Keep {
    /// What the policy is read from.
    pub subject: Subject,
}

impl Job for Keep {
    ghost use Rattle.job_keep.specs.Words.{SpellsKeep};
    ghost use Rattle.job_keep.specs.Meaning.{meaning_of_keep};
    ghost use Rattle.job_keep.specs.Laws.{keep_ready, one_keep, keep_lawful};

    ghost spells = { SpellsKeep };

    ghost meaning = { meaning_of_keep };

    ghost ready = { keep_ready };

    ghost one_spelled = { one_keep };

    ghost lawful = { keep_lawful };

    fn read(alloc: Global, words: &[String]) -> Result<Option<Keep>, AllocError> {
        let Some(subject) = Subject::read(alloc, words)? else {
            return Ok(None);
        };
        Ok(Some(Keep { subject }))
    }

    fn inputs(&self) -> &[Input] {
        self.subject.inputs.as_slice()
    }

    fn perform(&self, alloc: Global, loaded: &Loaded) -> Result<Output, OrMemory<Refusal>> {
        let bytes = keep(
            alloc,
            &loaded.zones,
            self.subject.limits,
            self.subject.domain.text.as_slice(),
        )?;
        Ok(Output {
            bytes,
            asked: Questions::new(alloc),
        })
    }
}
