//! The job.
ghost use Rattle.std.specs.Prelude.{◌≡◌, ◌∷◌, IfOk};
ghost use Rattle.spfc_words.specs.Words.{texts};
ghost use Rattle.jobs.specs.Meaning.{Reads};
ghost use Rattle.job_verify.specs.Words.{SpellsVerify};
ghost use Rattle.job_verify.specs.Meaning as meaning;

use addr_bits::Bytes;
use cert_checker::{No, Yes, verify};
use itoa::Buffer;
use jobs::{Job, Output};
use loading::{Denial, Loaded, OrMemory, Refusal, line, push_part};
use spf_model::Limits;
use spfc_words::{
    Domain, EXCHANGES, Group, Input, Inputs, LOOKUPS, Row, SIZE, VOIDS, behind_options, push_file,
    push_zone_words, read_domain, read_limits, read_number, split_first,
};
use std::alloc::{AllocError, Global};
use zone_answers::Questions;

/// The options of the job: those of the reading limits, and the size of a record.
const OPTIONS: &[Row] = &[
    Row::Number(LOOKUPS),
    Row::Number(VOIDS),
    Row::Number(EXCHANGES),
    Row::Number(SIZE),
];

/// Whether a file shows that its records give each address its verdict (RFC 7208, section 4), by the fewest terms and
/// in the fewest records.
#[derive(Debug, Drop)]
pub struct Verify {
    /// The domain.
    pub domain: Domain,
    /// What a record takes is less than this, in octets.
    pub size: u32,
    /// The limits under which the zones are read.
    pub limits: Limits,
    /// The zones, and behind them the file.
    pub inputs: Inputs,
}

impl Job for Verify {
    ghost use Rattle.job_verify.specs.Words.{SpellsVerify};
    ghost use Rattle.job_verify.specs.Meaning.{meaning_of_verify};
    ghost use Rattle.job_verify.specs.Laws.{verify_ready, one_verify, verify_lawful};

    ghost spells = { SpellsVerify };

    ghost meaning = { meaning_of_verify };

    ghost ready = { verify_ready };

    ghost one_spelled = { one_verify };

    ghost lawful = { verify_lawful };

    fn read(alloc: Global, words: &[String]) -> Result<Option<Verify>, AllocError> {
        let Some((domain, rest)) = split_first(words) else {
            return Ok(None);
        };
        match split_first(rest) {
            Some((file, rest)) => read_behind(alloc, domain, file, rest),
            None => Ok(None),
        }
    }

    fn inputs(&self) -> &[Input] {
        self.inputs.as_slice()
    }

    fn perform(&self, alloc: Global, loaded: &Loaded) -> Result<Output, OrMemory<Refusal>> {
        let domain = self.domain.text.as_slice();
        match verify(
            alloc,
            &loaded.zones,
            self.limits,
            domain,
            self.size,
            loaded.file.as_slice(),
        ) {
            Ok(yes) => Ok(Output {
                bytes: yes_line(alloc, yes)?,
                asked: Questions::new(alloc),
            }),
            Err(no) => Err(refused(no)),
        }
    }
}

/// The job of a domain, a file, and the words behind them: options of the reading limits and of the size, and zone
/// words. The file is read behind the zones.
fn read_behind(
    alloc: Global,
    domain: &str,
    file: &str,
    rest: &[String],
) -> Result<Option<Verify>, AllocError>
    ensures { Reads SpellsVerify (domain.now ∷ file.now ∷ texts rest.now) result }
{
    if file.is_empty() {
        return Ok(None);
    }
    let Some(domain) = read_domain(alloc, domain.as_bytes())? else {
        return Ok(None);
    };
    let Some(size) = read_number(OPTIONS, rest, &SIZE) else {
        return Ok(None);
    };
    let Some(limits) = read_limits(OPTIONS, rest) else {
        return Ok(None);
    };
    let mut inputs = Inputs::new(alloc);
    if !push_zone_words(
        alloc,
        &mut inputs,
        Group::Zones,
        behind_options(OPTIONS, rest),
    )? {
        return Ok(None);
    }
    push_file(alloc, &mut inputs, file)?;
    Ok(Some(Verify {
        domain,
        size,
        limits,
        inputs,
    }))
}

/// The line of a file that is accepted.
fn yes_line(alloc: Global, yes: Yes) -> Result<Bytes, AllocError>
    ensures { IfOk result (λ bytes. bytes ≡ meaning.yes_line yes) }
{
    let mut numbers = Bytes::new(alloc);
    numbers.extend_from_slice(Buffer::new().format(yes.terms).as_bytes())?;
    push_part(&mut numbers, Buffer::new().format(yes.records).as_bytes())?;
    line(alloc, "yes ", numbers.as_slice())
}

/// The refusal of a reason, or want of memory.
fn refused(no: No) -> OrMemory<Refusal>
    ensures { result ≡ meaning.refused_by no }
{
    let denial = match no {
        No::Refused { address, outcome } => {
            return OrMemory::Error(Refusal::NoVerdict { address, outcome });
        }
        No::NotZone { line, kind } => Denial::NoZone { line, kind },
        No::NotChain => Denial::NoChain,
        No::Verdict { address } => Denial::NoVerdict { address },
        No::Table { line } => Denial::NoTable { line },
        No::Terms => Denial::NoTerms,
        No::Records => Denial::NoRecords,
        No::Memory => return OrMemory::Memory,
    };
    OrMemory::Error(Refusal::Denied(denial))
}
