//! The job.
ghost use Rattle.spfc_words.specs.Words.{texts};
ghost use Rattle.jobs.specs.Meaning.{Reads};
ghost use Rattle.job_join.specs.Words.{IsJoin, SpellsParts};

use crate::domains::{Domains, read_domains, split_domains};
use crate::verdicts::verdicts_of_all;
use jobs::{Job, Output};
use loading::{Loaded, OrMemory, Refusal};
use policy_join::join;
use publishing::{ChainSettings, LABEL, TTL, publish, read_settings};
use spf_model::Limits;
use spfc_words::{
    EXCHANGES, FlagRow, Group, Input, Inputs, LOOKUPS, Row, SIZE, VOIDS, behind_options,
    push_zone_words, read_flag, read_limits, split_first,
};
use std::alloc::{AllocError, Global};
use zone_answers::Questions;

/// `--weakest`: each address gets the weakest of its verdicts.
const WEAKEST: FlagRow = FlagRow { name: "--weakest" };

/// The options of the job: those of the reading limits, of a chain of records, and whether the weakest verdict is
/// taken.
const OPTIONS: &[Row] = &[
    Row::Number(LOOKUPS),
    Row::Number(VOIDS),
    Row::Number(EXCHANGES),
    Row::Number(SIZE),
    Row::Number(TTL),
    Row::Text(LABEL),
    Row::Flag(WEAKEST),
];

/// One policy for several domains, as the fewest terms in the fewest records of the first.
#[derive(Debug, Drop)]
pub struct Join {
    /// The domains.
    pub domains: Domains,
    /// The first domain, and how its records are written.
    pub settings: ChainSettings,
    /// The limits under which the zones are read.
    pub limits: Limits,
    /// Whether each address gets the weakest of its verdicts, and not the strongest.
    pub weakest: bool,
    /// The zones.
    pub inputs: Inputs,
}

impl Job for Join {
    ghost use Rattle.job_join.specs.Words.{SpellsJoin};
    ghost use Rattle.job_join.specs.Meaning.{meaning_of_join};
    ghost use Rattle.job_join.specs.Laws.{join_ready, one_join, join_lawful};

    ghost spells = { SpellsJoin };

    ghost meaning = { meaning_of_join };

    ghost ready = { join_ready };

    ghost one_spelled = { one_join };

    ghost lawful = { join_lawful };

    fn read(alloc: Global, words: &[String]) -> Result<Option<Join>, AllocError> {
        let (front, rest) = split_domains(words);
        read_parts(alloc, front, rest)
    }

    fn inputs(&self) -> &[Input] {
        self.inputs.as_slice()
    }

    fn perform(&self, alloc: Global, loaded: &Loaded) -> Result<Output, OrMemory<Refusal>> {
        let all = verdicts_of_all(alloc, &loaded.zones, self.limits, self.domains.as_slice())?;
        let joined = join(alloc, &all, self.weakest)?;
        let bytes = publish(alloc, &loaded.zones, &self.settings, &joined)?;
        Ok(Output {
            bytes,
            asked: Questions::new(alloc),
        })
    }
}

/// The job of the domains in front, and of the words behind them.
fn read_parts(alloc: Global, front: &[String], rest: &[String]) -> Result<Option<Join>, AllocError>
    ensures { Reads (SpellsParts (texts front.now)) (texts rest.now) result }
{
    match split_first(front) {
        Some((first, _)) => read_behind(alloc, first, front, rest),
        None => Ok(None),
    }
}

/// The job of the domains, of which this is the first, and the words behind them: options of the reading limits and of
/// a chain, perhaps `--weakest`, and zone words.
fn read_behind(
    alloc: Global,
    first: &str,
    front: &[String],
    rest: &[String],
) -> Result<Option<Join>, AllocError>
    ensures { Reads (IsJoin first.now (texts front.now)) (texts rest.now) result }
{
    let Some(domains) = read_domains(alloc, front)? else {
        return Ok(None);
    };
    let Some(settings) = read_settings(alloc, OPTIONS, first, rest)? else {
        return Ok(None);
    };
    let Some(limits) = read_limits(OPTIONS, rest) else {
        return Ok(None);
    };
    let Some(weakest) = read_flag(OPTIONS, rest, &WEAKEST) else {
        return Ok(None);
    };
    let mut inputs = Inputs::new(alloc);
    if !push_zone_words(
        alloc,
        &mut inputs,
        Group::Zones,
        behind_options(OPTIONS, rest),
    )? {
        return Ok(None);
    }
    Ok(Some(Join {
        domains,
        settings,
        limits,
        weakest,
        inputs,
    }))
}
