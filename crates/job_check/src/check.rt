//! The job.
ghost use Rattle.std.specs.Prelude.{◌≡◌, ◌∷◌, IfOk, IsOk};
ghost use Rattle.dns_name.specs.Name.{name_of_text};
ghost use Rattle.spf_model.specs.Result.{AreModest};
ghost use Rattle.spfc_words.specs.Words.{texts};
ghost use Rattle.jobs.specs.Meaning.{Reads};
ghost use Rattle.job_check.specs.Words.{SpellsCheck};
ghost use Rattle.job_check.specs.Meaning.{IsOutcomeLine};

use addr_bits::{Address, Bytes, read_address};
use jobs::{Job, Output};
use loading::{Loaded, OrMemory, Refusal};
use spf_model::{Limits, check_one, write_outcome};
use spfc_words::{
    Domain, Group, Input, Inputs, READING, behind_options, push_zone_words, read_domain,
    read_limits, split_first,
};
use std::alloc::{AllocError, Global};
use zone_answers::{Questions, Zones};

/// What check_host gives one address (RFC 7208, section 4).
#[derive(Debug, Drop)]
pub struct Check {
    /// The domain.
    pub domain: Domain,
    /// The address.
    pub address: Address,
    /// The limits under which the zones are read.
    pub limits: Limits,
    /// The zones.
    pub inputs: Inputs,
}

impl Job for Check {
    ghost use Rattle.job_check.specs.Words.{SpellsCheck};
    ghost use Rattle.job_check.specs.Meaning.{meaning_of_check};
    ghost use Rattle.job_check.specs.Laws.{check_ready, one_check, check_lawful};

    ghost spells = { SpellsCheck };

    ghost meaning = { meaning_of_check };

    ghost ready = { check_ready };

    ghost one_spelled = { one_check };

    ghost lawful = { check_lawful };

    fn read(alloc: Global, words: &[String]) -> Result<Option<Check>, AllocError> {
        let Some((domain, rest)) = split_first(words) else {
            return Ok(None);
        };
        match split_first(rest) {
            Some((address, rest)) => read_behind(alloc, domain, address, rest),
            None => Ok(None),
        }
    }

    fn inputs(&self) -> &[Input] {
        self.inputs.as_slice()
    }

    fn perform(&self, alloc: Global, loaded: &Loaded) -> Result<Output, OrMemory<Refusal>> {
        let bytes = outcome_line(
            alloc,
            &loaded.zones,
            self.domain.text.as_slice(),
            self.address,
            self.limits,
        )?;
        Ok(Output {
            bytes,
            asked: Questions::new(alloc),
        })
    }
}

/// The job of a domain, an address, and the words behind them: options of the reading limits, and zone words.
fn read_behind(
    alloc: Global,
    domain: &str,
    address: &str,
    rest: &[String],
) -> Result<Option<Check>, AllocError>
    ensures { Reads SpellsCheck (domain.now ∷ address.now ∷ texts rest.now) result }
{
    let Some(domain) = read_domain(alloc, domain.as_bytes())? else {
        return Ok(None);
    };
    let Ok(address) = read_address(address.as_bytes()) else {
        return Ok(None);
    };
    let Some(limits) = read_limits(READING, rest) else {
        return Ok(None);
    };
    let mut inputs = Inputs::new(alloc);
    if !push_zone_words(
        alloc,
        &mut inputs,
        Group::Zones,
        behind_options(READING, rest),
    )? {
        return Ok(None);
    }
    Ok(Some(Check {
        domain,
        address,
        limits,
        inputs,
    }))
}

/// The line of what check_host gives the address, over these zones.
fn outcome_line(
    alloc: Global,
    zones: &Zones,
    domain: &[u8],
    address: Address,
    limits: Limits,
) -> Result<Bytes, AllocError>
    requires named { IsOk (name_of_text domain.now) }
    requires modest { AreModest limits }
    ensures { IfOk result (IsOutcomeLine zones.now domain.now address limits) }
{
    let outcome = check_one(alloc, zones, limits, address, domain)?;
    let mut line = write_outcome(alloc, &outcome)?;
    line.push(b'\n')?;
    Ok(line)
}
