//! Kept lists.
ghost use Rattle.std.specs.Prelude.{◌≡◌, ◌∷◌, ◌++◌, [], decimal, IfOk, OnOk};
ghost use Rattle.std.specs.List.{AllByRecursion};
ghost use Rattle.bound_table.specs.Reading.{lines_of};
ghost use Rattle.zone_answers.specs.Questions.{question_text};
ghost use Rattle.kept_lists.specs.Lists.{HasRoom, header_text};
ghost use Rattle.kept_lists.specs.Reading.{AreLinesAnswer, IsKeptAnswer};

use crate::line::{read_header, read_line};
use addr_bits::{Bytes, Items};
use bound_table::cut_line;
use itoa::Buffer;
use spf_model::Limits;
use std::alloc::{AllocError, Global};
use zone_answers::Question;

/// A question, and what it was answered.
#[derive(Debug, Drop)]
pub struct KeptLine {
    /// The question.
    pub question: Question,
    /// The text of its answer.
    pub answer: Bytes,
}

/// Questions with their answers, in order.
pub type KeptLines = Items<KeptLine>;

/// What every question on which a policy rests was answered.
#[derive(Debug, Drop)]
pub struct Kept {
    /// The domain of the policy, in lower case.
    pub domain: Bytes,
    /// The limits under which the questions were asked.
    pub limits: Limits,
    /// The questions with their answers.
    pub lines: KeptLines,
}

/// Why bytes are no kept list.
#[derive(Clone, Copy, PartialEq, Eq, Debug, thiserror::Error, Drop)]
pub enum KeptFault {
    /// This line, counted from 1, is the first that is not as a kept list has it.
    #[error("no kept list: line {line}")]
    NotKept {
        /// The line.
        line: u64,
    },
    /// There is no memory.
    #[error("out of memory")]
    Memory,
}

impl From<AllocError> for KeptFault {
    ghost use Rattle.kept_lists.specs.declared.kept.KeptFault.{KeptFault};

    ghost from_gives = { λ _ fault. fault ≡ KeptFault.Memory };

    fn from(_: AllocError) -> KeptFault {
        KeptFault::Memory
    }
}

/// Appends a number behind a space.
fn push_number(list: &mut Bytes, number: u32) -> Result<(), AllocError>
    ensures { OnOk result (list.new ≡ list.old ++ 32 ∷ decimal number) }
{
    list.push(b' ')?;
    list.extend_from_slice(Buffer::new().format(number).as_bytes())
}

/// Appends the first line of a kept list.
pub fn push_header(list: &mut Bytes, domain: &[u8], limits: Limits) -> Result<(), AllocError>
    ensures { OnOk result (list.new ≡ list.old ++ header_text domain.now limits ++ 10 ∷ []) }
{
    list.extend_from_slice(b"; deps ")?;
    list.extend_from_slice(domain)?;
    push_number(list, limits.lookups)?;
    push_number(list, limits.voids)?;
    push_number(list, limits.exchanges)?;
    list.push(b'\n')
}

/// Appends the line of a question and the text of its answer.
pub fn push_line(list: &mut Bytes, question: &Question, answer: &[u8]) -> Result<(), AllocError>
    ensures { OnOk result (list.new ≡ list.old ++ question_text question.now ++ 32 ∷ answer.now ++ 10 ∷ []) }
{
    list.extend_from_slice(&question.text())?;
    list.push(b' ')?;
    list.extend_from_slice(answer)?;
    list.push(b'\n')
}

/// The lines behind the first.
fn read_lines(alloc: Global, bytes: &[u8]) -> Result<KeptLines, KeptFault>
    ensures { AreLinesAnswer (lines_of bytes.now) result }
{
    let mut lines = KeptLines::new(alloc);
    let mut rest = bytes;
    let mut line: u64 = 1;
    while !rest.is_empty() {
        let (text, after) = cut_line(rest);
        rest = after;
        line += 1;
        match read_line(alloc, text)? {
            Some(kept) => lines.push(kept)?,
            None => return Err(KeptFault::NotKept { line }),
        }
    }
    Ok(lines)
}

/// The kept list of a file. The first line has the domain and the limits; each later line the printed form of a name, a
/// space, the word of a kind, a space, and the text of an answer, which has one or more bytes and is not judged. At a
/// kind that reverses names, the name has at most 191 octets on the wire. `NotKept` names the first line that is not
/// so; of a file without a line, line 1. The work grows with the bytes.
pub fn read_kept(alloc: Global, bytes: &[u8]) -> Result<Kept, KeptFault>
    ensures kept { IsKeptAnswer (lines_of bytes.now) result }
    ensures room { IfOk result (λ kept. AllByRecursion (λ line. HasRoom line.question.kind line.question.name)
        kept.lines) }
{
    if bytes.is_empty() {
        return Err(KeptFault::NotKept { line: 1 });
    }
    let (first, rest) = cut_line(bytes);
    let Some((text, limits)) = read_header(first) else {
        return Err(KeptFault::NotKept { line: 1 });
    };
    let mut domain = Bytes::new(alloc);
    domain.extend_from_slice(text)?;
    let lines = read_lines(alloc, rest)?;
    Ok(Kept {
        domain,
        limits,
        lines,
    })
}
