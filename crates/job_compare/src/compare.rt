//! The job.
ghost use Rattle.std.specs.Prelude.{◌≡◌, ◌∷◌};
ghost use Rattle.spfc_words.specs.Words.{texts};
ghost use Rattle.jobs.specs.Meaning.{Reads};
ghost use Rattle.job_compare.specs.Words.{SpellsCompare};
ghost use Rattle.job_compare.specs.Meaning.{zones_in};

use crate::groups::{Groups, read_groups};
use crate::lines::write_changes;
use jobs::{Job, Output};
use loading::{Loaded, OrMemory, Refusal};
use policy_compare::compare;
use policy_verdicts::policy_verdicts;
use spf_model::Limits;
use spfc_words::{
    Domain, Group, Input, READING, behind_options, read_domain, read_limits, split_first,
};
use std::alloc::{AllocError, Global};
use zone_answers::{Questions, Zones};

/// What two policies say differently. The first is that of the one domain over the zones of the first group; the second
/// is that of the other domain over the zones of the second group, or over the same zones where there is none.
#[derive(Debug, Drop)]
pub struct Compare {
    /// The domain of the first policy.
    pub one: Domain,
    /// The domain of the second policy.
    pub two: Domain,
    /// The limits under which the zones are read.
    pub limits: Limits,
    /// The zones.
    pub groups: Groups,
}

impl Job for Compare {
    ghost use Rattle.job_compare.specs.Words.{SpellsCompare};
    ghost use Rattle.job_compare.specs.Meaning.{meaning_of_compare};
    ghost use Rattle.job_compare.specs.Laws.{compare_ready, one_compare, compare_lawful};

    ghost spells = { SpellsCompare };

    ghost meaning = { meaning_of_compare };

    ghost ready = { compare_ready };

    ghost one_spelled = { one_compare };

    ghost lawful = { compare_lawful };

    fn read(alloc: Global, words: &[String]) -> Result<Option<Compare>, AllocError> {
        let Some((one, rest)) = split_first(words) else {
            return Ok(None);
        };
        match split_first(rest) {
            Some((two, rest)) => read_behind(alloc, one, two, rest),
            None => Ok(None),
        }
    }

    fn inputs(&self) -> &[Input] {
        self.groups.inputs.as_slice()
    }

    fn perform(&self, alloc: Global, loaded: &Loaded) -> Result<Output, OrMemory<Refusal>> {
        let one = policy_verdicts(alloc, &loaded.zones, self.limits, self.one.text.as_slice())?;
        let others = zones_of(loaded, self.groups.second);
        let two = policy_verdicts(alloc, others, self.limits, self.two.text.as_slice())?;
        let changes = compare(alloc, &one.tries, &two.tries)?;
        let bytes = write_changes(alloc, changes.as_slice())?;
        Ok(Output {
            bytes,
            asked: Questions::new(alloc),
        })
    }
}

/// The zones of a group.
fn zones_of(loaded: &Loaded, group: Group) -> &Zones
    ensures { result.now ≡ zones_in loaded.now group }
{
    match group {
        Group::Zones => &loaded.zones,
        Group::Others => &loaded.others,
    }
}

/// The job of two domains, and the words behind them: options of the reading limits, and the zones of one group or two.
fn read_behind(
    alloc: Global,
    one: &str,
    two: &str,
    rest: &[String],
) -> Result<Option<Compare>, AllocError>
    ensures { Reads SpellsCompare (one.now ∷ two.now ∷ texts rest.now) result }
{
    let Some(one) = read_domain(alloc, one.as_bytes())? else {
        return Ok(None);
    };
    let Some(two) = read_domain(alloc, two.as_bytes())? else {
        return Ok(None);
    };
    let Some(limits) = read_limits(READING, rest) else {
        return Ok(None);
    };
    let Some(groups) = read_groups(alloc, behind_options(READING, rest))? else {
        return Ok(None);
    };
    Ok(Some(Compare {
        one,
        two,
        limits,
        groups,
    }))
}
