//! The job.

use crate::line::write_line;
use jobs::{Job, Output};
use loading::{Loaded, OrMemory, Refusal};
use policy_trial::run_trial;
use spfc_words::{Input, Inputs, parse_number};
use std::alloc::{AllocError, Global};
use zone_answers::Questions;

/// The most networks of a trial.
const MOST_NETWORKS: u64 = 10_000;

/// What the policy of a zone that a number makes comes to.
#[derive(Debug, Drop)]
pub struct Trial {
    /// The number.
    pub start: u64,
    /// How many networks the zone has.
    pub networks: u32,
    /// No file is read.
    pub inputs: Inputs,
}

impl Job for Trial {
    ghost use Rattle.job_trial.specs.Words.{SpellsTrial};
    ghost use Rattle.job_trial.specs.Meaning.{meaning_of_trial};
    ghost use Rattle.job_trial.specs.Laws.{trial_ready, one_trial_spelled, trial_lawful};

    ghost spells = { SpellsTrial };

    ghost meaning = { meaning_of_trial };

    ghost ready = { trial_ready };

    ghost one_spelled = { one_trial_spelled };

    ghost lawful = { trial_lawful };

    fn read(alloc: Global, words: &[String]) -> Result<Option<Trial>, AllocError> {
        let [start, networks] = words else {
            return Ok(None);
        };
        let Some(start) = parse_number(start.as_str(), 0, u64::MAX) else {
            return Ok(None);
        };
        let Some(networks) = parse_number(networks.as_str(), 1, MOST_NETWORKS) else {
            return Ok(None);
        };
        Ok(Some(Trial {
            start,
            networks: networks as u32,
            inputs: Inputs::new(alloc),
        }))
    }

    fn inputs(&self) -> &[Input] {
        self.inputs.as_slice()
    }

    fn perform(&self, alloc: Global, _loaded: &Loaded) -> Result<Output, OrMemory<Refusal>> {
        let summary = run_trial(alloc, self.start, self.networks)?;
        let bytes = write_line(alloc, self.start, self.networks, &summary)?;
        Ok(Output {
            bytes,
            asked: Questions::new(alloc),
        })
    }
}
