//! The job.
ghost use Rattle.std.specs.Prelude.{◌≡◌, IfOk, IsOk};
ghost use Rattle.dns_name.specs.Name.{name_of_text};
ghost use Rattle.spf_model.specs.Result.{AreModest};
ghost use Rattle.job_deps.specs.Meaning.{question_lines, AreAskedLines};

use addr_bits::Bytes;
use jobs::{Job, Output};
use loading::{Loaded, OrMemory, Refusal};
use spf_model::Limits;
use spfc_words::{Input, Subject};
use std::alloc::{AllocError, Global};
use symbolic_check::evaluate;
use zone_answers::{Question, Questions, Zones};

/// The questions that check_host asks for some address (RFC 7208, section 4).
#[derive(Debug, Drop)]
pub struct Deps {
    /// What the policy is read from.
    pub subject: Subject,
}

impl Job for Deps {
    ghost use Rattle.job_deps.specs.Words.{SpellsDeps};
    ghost use Rattle.job_deps.specs.Meaning.{meaning_of_deps};
    ghost use Rattle.job_deps.specs.Laws.{deps_ready, one_deps, deps_lawful};

    ghost spells = { SpellsDeps };

    ghost meaning = { meaning_of_deps };

    ghost ready = { deps_ready };

    ghost one_spelled = { one_deps };

    ghost lawful = { deps_lawful };

    fn read(alloc: Global, words: &[String]) -> Result<Option<Deps>, AllocError> {
        let Some(subject) = Subject::read(alloc, words)? else {
            return Ok(None);
        };
        Ok(Some(Deps { subject }))
    }

    fn inputs(&self) -> &[Input] {
        self.subject.inputs.as_slice()
    }

    fn perform(&self, alloc: Global, loaded: &Loaded) -> Result<Output, OrMemory<Refusal>> {
        let bytes = asked_lines(
            alloc,
            &loaded.zones,
            self.subject.limits,
            self.subject.domain.text.as_slice(),
        )?;
        Ok(Output {
            bytes,
            asked: Questions::new(alloc),
        })
    }
}

/// The lines of what check_host asks for some address, over these zones.
fn asked_lines(
    alloc: Global,
    zones: &Zones,
    limits: Limits,
    domain: &[u8],
) -> Result<Bytes, AllocError>
    requires named { IsOk (name_of_text domain.now) }
    requires modest { AreModest limits }
    ensures { IfOk result (AreAskedLines zones.now limits domain.now) }
{
    let both = evaluate(alloc, zones, limits, domain)?;
    lines_of(alloc, both.asked.as_slice())
}

/// The line of each question.
fn lines_of(alloc: Global, questions: &[Question]) -> Result<Bytes, AllocError>
    ensures { IfOk result (λ bytes. bytes ≡ question_lines questions.now) }
{
    let mut lines = Bytes::new(alloc);
    for question in questions {
        lines.extend_from_slice(&question.text())?;
        lines.push(b'\n')?;
    }
    Ok(lines)
}
