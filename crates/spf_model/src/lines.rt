//! The words of an outcome.
ghost use Rattle.std.specs.Prelude.{◌≡◌, ◌++◌, IfOk, OnOk};
ghost use Rattle.spf_model.specs.Lines.{verdict_word as word_of_verdict, cause_word as word_of_cause, cause_words};
ghost use Rattle.spf_model.specs.Lines.{cause_text, outcome_words};

use crate::{Cause, Outcome, Place};
use addr_bits::Bytes;
use itoa::Buffer;
use spf_grammar::Verdict;
use std::alloc::{AllocError, Global};

fn verdict_word(verdict: Verdict) -> &'static str
    ensures { result.now ≡ word_of_verdict verdict }
{
    match verdict {
        Verdict::Fail => "fail",
        Verdict::SoftFail => "softfail",
        Verdict::Pass => "pass",
        Verdict::Neutral => "neutral",
    }
}

fn cause_word(cause: Cause) -> &'static str
    ensures { result.now ≡ word_of_cause cause }
{
    match cause {
        Cause::NoRecord => "norecord",
        Cause::Sender => "sender",
        Cause::Helo => "helo",
        Cause::Reverse => "reverse",
        Cause::Address => "address",
        Cause::Outside => "outside",
        Cause::Target => "target",
        Cause::Syntax => "syntax",
        Cause::Records => "records",
        Cause::Lookups => "lookups",
        Cause::Voids => "voids",
        Cause::Exchanges => "exchanges",
        Cause::Missing => "missing",
        Cause::Alias => "alias",
    }
}

/// Appends a cause and a place.
fn push_cause(
    alloc: Global,
    words: &mut Bytes,
    cause: Cause,
    place: &Place,
) -> Result<(), AllocError>
    ensures { OnOk result (words.new ≡ words.old ++ cause_words cause place.now) }
{
    words.extend_from_slice(cause_word(cause).as_bytes())?;
    words.push(b' ')?;
    words.extend_from_slice(&place.name.write_text(alloc)?)?;
    words.push(b' ')?;
    words.extend_from_slice(Buffer::new().format(place.term).as_bytes())
}

/// The words of an outcome: a verdict (RFC 7208, section 2.6), or `none`, `permerror`, `temperror` or `open` with the
/// cause, the printed name of the record, and the number of the term. `AllocError` where there is no memory.
pub fn write_outcome(alloc: Global, outcome: &Outcome) -> Result<Bytes, AllocError>
    ensures { IfOk result (λ words. words ≡ outcome_words outcome.now) }
{
    let mut words = Bytes::new(alloc);
    match outcome {
        Outcome::Is(verdict) => words.extend_from_slice(verdict_word(*verdict).as_bytes())?,
        Outcome::Nothing(place) => {
            words.extend_from_slice(b"none ")?;
            push_cause(alloc, &mut words, Cause::NoRecord, place)?;
        }
        Outcome::Perm(cause, place) => {
            words.extend_from_slice(b"permerror ")?;
            push_cause(alloc, &mut words, *cause, place)?;
        }
        Outcome::Temp(cause, place) => {
            words.extend_from_slice(b"temperror ")?;
            push_cause(alloc, &mut words, *cause, place)?;
        }
        Outcome::Unsettled(cause, place) => {
            words.extend_from_slice(b"open ")?;
            push_cause(alloc, &mut words, *cause, place)?;
        }
    }
    Ok(words)
}

/// Why an outcome is no verdict, and where: the cause, the printed name of the record, and the number of the term, as
/// in `lookups example.com 7`. Of a verdict there is nothing. `AllocError` where there is no memory.
pub fn write_cause(alloc: Global, outcome: &Outcome) -> Result<Bytes, AllocError>
    ensures { IfOk result (λ words. words ≡ cause_text outcome.now) }
{
    let mut words = Bytes::new(alloc);
    match outcome {
        Outcome::Is(_) => {}
        Outcome::Nothing(place) => push_cause(alloc, &mut words, Cause::NoRecord, place)?,
        Outcome::Perm(cause, place)
        | Outcome::Temp(cause, place)
        | Outcome::Unsettled(cause, place) => push_cause(alloc, &mut words, *cause, place)?,
    }
    Ok(words)
}
