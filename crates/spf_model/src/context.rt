//! The record that is evaluated, and the parts of its terms that every address of a family has alike (RFC 7208,
//! sections 4.6 and 4.8).
ghost use Rattle.std.specs.Prelude.{◌≡◌, ◌++◌, [], ◌∷◌, List, IfOk, OnOk, Some, option_map};
ghost use Rattle.spf_model.specs.Run.{says};
ghost use Rattle.spf_model.specs.Judging as judging;
ghost use Rattle.spf_model.specs.Leads.{site_of, TargetFits};
ghost use Rattle.spf_model.specs.Settling.{SettlesEach};
ghost use Rattle.spf_model.specs.declared.outcome.Halt.TheVariants.{Ended};
ghost use Rattle.spf_model.specs.declared.outcome.Outcome.TheVariants as outcome;
ghost use Rattle.spf_model.specs.declared.outcome.Cause.TheVariants as cause;
ghost use Rattle.zone_answers.specs.declared.answer.Question.{Question as Asked};
ghost use Rattle.addr_bits.specs.declared.address.Address.{Address as Told};

use crate::outcome::Halt;
use crate::{Cause, Limits, Outcome, Place};
use addr_bits::{Bytes, Family};
use dns_name::Name;
use spf_macros::{Expanded, MacroText, Need, target};
use std::alloc::{AllocError, Global};
use zone_answers::{Answer, AskKind, QKind, Question, Questions, Zones};

/// What the terms of a record are judged by, for every address of a family. What its methods ask is noted in `asked`.
#[derive(Clone, Copy)]
pub struct RecordContext<'a> {
    /// Where memory comes from.
    pub alloc: Global,
    /// The lent zones, which answer.
    pub zones: &'a Zones,
    /// The limits of the evaluation.
    pub limits: Limits,
    /// The family of the addresses.
    pub family: Family,
    /// The domain as a text, for macros and for terms without a domain-spec.
    pub domain: &'a [u8],
    /// The domain as a name.
    pub name: &'a Name,
}

/// The cause of what an expansion needs.
pub(crate) fn cause_of(need: Need) -> Cause
    ensures { result ≡ judging.cause_of need }
{
    match need {
        Need::Sender => Cause::Sender,
        Need::Helo => Cause::Helo,
        Need::Reverse => Cause::Reverse,
        Need::Address => Cause::Address,
    }
}

/// The name that a text writes (RFC 1034, section 3.1), if it writes one.
#[tactic(auto, unfolding(crate::specs::Judging::name_of))]
pub fn name_of(text: &[u8]) -> Option<Name>
    ensures { result ≡ judging.name_of text.now }
{
    Name::from_text(text).ok()
}

impl RecordContext<'_> {
    /// A term of this record.
    pub fn place(&self, term: u32) -> Place
        ensures { result ≡ judging.at (site_of self.now) term }
    {
        Place {
            name: self.name.clone().unwrap(),
            term,
        }
    }

    /// The end where there is no record.
    pub(crate) fn nothing(&self) -> Halt
        ensures { result ≡ Ended (outcome.Nothing (judging.at (site_of self.now) 0)) }
    {
        Halt::Ended(Outcome::Nothing(self.place(0)))
    }

    /// The end by an error in the record.
    pub(crate) fn error(&self, cause: Cause, term: u32) -> Halt
        ensures { result ≡ Ended (outcome.Perm cause (judging.at (site_of self.now) term)) }
    {
        Halt::Ended(Outcome::Perm(cause, self.place(term)))
    }

    /// The end by what is left open.
    pub(crate) fn open(&self, cause: Cause, term: u32) -> Halt
        ensures { result ≡ Ended (outcome.Unsettled cause (judging.at (site_of self.now) term)) }
    {
        Halt::Ended(Outcome::Unsettled(cause, self.place(term)))
    }

    /// The end by aliases that lead on.
    pub(crate) fn astray(&self, term: u32) -> Halt
        ensures { result ≡ Ended (outcome.Temp cause.Alias (judging.at (site_of self.now) term)) }
    {
        Halt::Ended(Outcome::Temp(Cause::Alias, self.place(term)))
    }

    /// The target text of a term (RFC 7208, section 4.8): what its domain-spec asks for, or the domain where it has
    /// none.
    fn target_text(&self, term: u32, spec: Option<&MacroText>) -> Result<Bytes, Halt>
        requires { TargetFits (option_map (λ s. s.now) spec) }
        ensures { (asked : List Asked) → SettlesEach (says self.now.zones.now)
            (λ counts. judging.with_target (site_of self.now) term counts
            (option_map (λ s. s.now) spec.entry)) asked asked result }
    {
        let Some(spec) = spec else {
            let mut domain = Bytes::new(self.alloc);
            domain.extend_from_slice(self.domain)?;
            return Ok(domain);
        };
        match target(self.alloc, spec, self.family, self.domain)? {
            Expanded::Out(text) => Ok(text),
            Expanded::Needs(need) => Err(self.open(cause_of(need), term)),
        }
    }

    /// The name of hosts that a term asks for (RFC 7208, section 4.8). Where the text is none, the term is left open.
    /// It asks nothing.
    pub(crate) fn host_name(&self, term: u32, spec: Option<&MacroText>) -> Result<Name, Halt>
        requires { TargetFits (option_map (λ s. s.now) spec) }
        ensures { (asked : List Asked) → SettlesEach (says self.now.zones.now)
            (judging.naming (site_of self.now) term (option_map (λ s. s.now) spec.entry)) asked asked result }
    {
        let text = self.target_text(term, spec)?;
        match name_of(text.as_slice()) {
            Some(name) => Ok(name),
            None => Err(self.open(Cause::Target, term)),
        }
    }

    /// The domain whose record a term asks for, as a text and as a name, once its lookup is counted (RFC 7208, sections
    /// 5.2 and 6.1). Where the text is none, that is an error. It asks nothing. `Halt::Memory` where there is no
    /// memory.
    pub fn target(&self, term: u32, spec: &MacroText) -> Result<(Bytes, Name), Halt>
        requires { TargetFits (Some spec.now) }
        ensures { (asked : List Asked) → SettlesEach (says self.now.zones.now)
            (judging.naming_target (site_of self.now) term spec.now) asked asked result }
    {
        let text = self.target_text(term, Some(spec))?;
        match name_of(text.as_slice()) {
            Some(name) => Ok((text, name)),
            None => Err(self.error(Cause::Missing, term)),
        }
    }

    /// The answer of the zones to a question, which is noted.
    pub(crate) fn answer(
        &self,
        name: &Name,
        kind: QKind,
        asked: &mut Questions,
    ) -> Result<Answer, AllocError>
        ensures answer { IfOk result (λ answer. (a : Told) → answer ≡ says self.now.zones.now a
            (judging.question_of kind name.now)) }
        ensures noted { OnOk result (asked.new ≡ asked.old ++ (judging.question_of kind name.now) ∷ []) }
    {
        let question = Question {
            name: name.clone()?,
            kind: AskKind::of(kind),
        };
        asked.push(question)?;
        self.zones.answer(name, kind)
    }

    /// The answer to a term's question. One that lies outside leaves the term open, and one that goes round is an
    /// error.
    pub(crate) fn ask(
        &self,
        term: u32,
        name: &Name,
        kind: QKind,
        asked: &mut Questions,
    ) -> Result<Answer, Halt>
        ensures { SettlesEach (says self.now.zones.now)
            (λ counts. judging.ask (site_of self.now) term counts
            (judging.question_of kind name.now)) asked.old asked.new result }
    {
        match self.answer(name, kind, asked)? {
            Answer::Outside => Err(self.open(Cause::Outside, term)),
            Answer::Loop => Err(self.astray(term)),
            answer => Ok(answer),
        }
    }
}
