//! The record of a name (RFC 7208, sections 4.3 to 4.6).
ghost use Rattle.std.specs.Prelude.{◌≡◌, [], ◌∷◌, List, IfOk, filter_map};
ghost use Rattle.std.specs.List.{concat};
ghost use Rattle.spf_model.specs.Run.{says};
ghost use Rattle.spf_model.specs.Check as check;
ghost use Rattle.spf_model.specs.Leads.{TermsFit};
ghost use Rattle.spf_model.specs.Settling.{SettlesEach};
ghost use Rattle.zone_answers.specs.declared.answer.Question.{Question as Asked};

use crate::Cause;
use crate::context::RecordContext;
use crate::outcome::Halt;
use addr_bits::Bytes;
use master_reader::{Body, Text};
use spf_grammar::{Terms, is_spf, parse};
use std::alloc::{AllocError, Global};
use zone_answers::{Answer, QKind, Questions};

/// The strings of a TXT record, with nothing between (RFC 7208, section 3.3).
fn join(alloc: Global, strings: &[Bytes]) -> Result<Bytes, AllocError>
    ensures { IfOk result (λ text. text ≡ concat strings.now) }
{
    let mut text = Bytes::new(alloc);
    for string in strings {
        text.extend_from_slice(string.as_slice())?;
    }
    Ok(text)
}

/// The text of a record that has an SPF text (RFC 7208, section 4.5).
fn spf_text_of(alloc: Global, body: &Body) -> Result<Option<Bytes>, AllocError>
    ensures { IfOk result (λ text. text ≡ check.spf_text_of body.now) }
{
    let Body::Txt(strings) = body else {
        return Ok(None);
    };
    let text = join(alloc, strings.as_slice())?;
    if is_spf(text.as_slice()) {
        Ok(Some(text))
    } else {
        Ok(None)
    }
}

/// The SPF texts of records, in order (RFC 7208, sections 3.3 and 4.5). `AllocError` where there is no memory.
pub fn spf_texts(alloc: Global, bodies: &[Body]) -> Result<Text, AllocError>
    ensures { IfOk result (λ texts. texts ≡ filter_map check.spf_text_of bodies.now) }
{
    let mut texts = Text::new(alloc);
    for body in bodies {
        if let Some(text) = spf_text_of(alloc, body)? {
            texts.push(text)?;
        }
    }
    Ok(texts)
}

impl RecordContext<'_> {
    /// The terms of a record (RFC 7208, section 4.6).
    fn read_record(&self, text: &[u8]) -> Result<Terms, Halt>
        ensures read { (asked : List Asked) → SettlesEach (says self.now.zones.now)
            (λ counts. check.with_texts self.now.name.now counts (text.now ∷ [])) asked asked result }
        ensures fit { IfOk result TermsFit }
    {
        match parse(self.alloc, text)? {
            Some(policy) => Ok(policy.terms),
            None => Err(self.error(Cause::Syntax, 0)),
        }
    }

    /// The terms of the one record that has an SPF text (RFC 7208, section 4.5).
    fn choose_record(&self, bodies: &[Body]) -> Result<Terms, Halt>
        ensures chosen { (asked : List Asked) → SettlesEach (says self.now.zones.now)
            (λ counts. check.with_texts self.now.name.now counts
            (filter_map check.spf_text_of bodies.now)) asked asked result }
        ensures fit { IfOk result TermsFit }
    {
        let texts = spf_texts(self.alloc, bodies)?;
        match texts.as_slice() {
            [] => Err(self.nothing()),
            [text] => self.read_record(text.as_slice()),
            _ => Err(self.error(Cause::Records, 0)),
        }
    }

    /// The terms of the record at the domain, which has two or more labels (RFC 7208, sections 4.3 to 4.6).
    /// `Halt::Memory` where there is no memory.
    pub fn find_record(&self, asked: &mut Questions) -> Result<Terms, Halt>
        ensures found { SettlesEach (says self.now.zones.now)
            (check.with_record self.now.name.now) asked.old asked.new result }
        ensures fit { IfOk result TermsFit }
    {
        if self.name.label_count() < 2 {
            return Err(self.nothing());
        }
        match self.answer(self.name, QKind::Txt, asked)? {
            Answer::Outside => Err(self.open(Cause::Outside, 0)),
            Answer::Loop => Err(self.astray(0)),
            Answer::NoName | Answer::NoData => Err(self.nothing()),
            Answer::Found(bodies) => self.choose_record(bodies.as_slice()),
        }
    }
}
