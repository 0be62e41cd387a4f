//! The job.
ghost use Rattle.std.specs.Prelude.{◌∷◌};
ghost use Rattle.spfc_words.specs.Words.{texts};
ghost use Rattle.jobs.specs.Meaning.{Reads};
ghost use Rattle.job_compile.specs.Words.{SpellsCompile};

use jobs::{Job, Output};
use loading::{Loaded, OrMemory, Refusal};
use publishing::{ChainSettings, LABEL, Publication, TTL, publish_policy, read_settings};
use spf_model::Limits;
use spfc_words::{
    EXCHANGES, FlagRow, Group, Input, Inputs, LOOKUPS, Row, SIZE, VOIDS, behind_options,
    push_zone_words, read_flag, read_limits, split_first,
};
use std::alloc::{AllocError, Global};
use zone_answers::Questions;

/// `--trace`: the questions are told to listeners.
const TRACE: FlagRow = FlagRow { name: "--trace" };

/// The options of the job: those of the reading limits, of a chain of records, and whether questions are told.
const OPTIONS: &[Row] = &[
    Row::Number(LOOKUPS),
    Row::Number(VOIDS),
    Row::Number(EXCHANGES),
    Row::Number(SIZE),
    Row::Number(TTL),
    Row::Text(LABEL),
    Row::Flag(TRACE),
];

/// The policy of a domain as the fewest terms in the fewest records.
#[derive(Debug, Drop)]
pub struct Compile {
    /// The domain, and how its records are written.
    pub settings: ChainSettings,
    /// The limits under which the zones are read.
    pub limits: Limits,
    /// Whether the questions are told to listeners.
    pub trace: bool,
    /// The zones.
    pub inputs: Inputs,
}

impl Job for Compile {
    ghost use Rattle.job_compile.specs.Words.{SpellsCompile};
    ghost use Rattle.job_compile.specs.Meaning.{meaning_of_compile};
    ghost use Rattle.job_compile.specs.Laws.{compile_ready, one_compile, compile_lawful};

    ghost spells = { SpellsCompile };

    ghost meaning = { meaning_of_compile };

    ghost ready = { compile_ready };

    ghost one_spelled = { one_compile };

    ghost lawful = { compile_lawful };

    fn read(alloc: Global, words: &[String]) -> Result<Option<Compile>, AllocError> {
        match split_first(words) {
            Some((domain, rest)) => read_behind(alloc, domain, rest),
            None => Ok(None),
        }
    }

    fn inputs(&self) -> &[Input] {
        self.inputs.as_slice()
    }

    fn perform(&self, alloc: Global, loaded: &Loaded) -> Result<Output, OrMemory<Refusal>> {
        match publish_policy(alloc, &loaded.zones, &self.settings, self.limits) {
            Ok(Publication { bytes, asked }) if self.trace => Ok(Output { bytes, asked }),
            Ok(Publication { bytes, .. }) => Ok(Output {
                bytes,
                asked: Questions::new(alloc),
            }),
            Err(why) => Err(why),
        }
    }
}

/// The job of a domain and the words behind it: options of the reading limits and of a chain, perhaps `--trace`, and
/// zone words.
fn read_behind(alloc: Global, domain: &str, rest: &[String]) -> Result<Option<Compile>, AllocError>
    ensures { Reads SpellsCompile (domain.now ∷ texts rest.now) result }
{
    let Some(settings) = read_settings(alloc, OPTIONS, domain, rest)? else {
        return Ok(None);
    };
    let Some(limits) = read_limits(OPTIONS, rest) else {
        return Ok(None);
    };
    let Some(trace) = read_flag(OPTIONS, rest, &TRACE) else {
        return Ok(None);
    };
    let mut inputs = Inputs::new(alloc);
    if !push_zone_words(
        alloc,
        &mut inputs,
        Group::Zones,
        behind_options(OPTIONS, rest),
    )? {
        return Ok(None);
    }
    Ok(Some(Compile {
        settings,
        limits,
        trace,
        inputs,
    }))
}
