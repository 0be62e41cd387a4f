//! The questions that were asked, in order.
ghost use Rattle.std.specs.Prelude.{◌≡◌, ◌↔◌, IfOk, Contains};
ghost use Rattle.std.specs.Map.{values_of};
ghost use Rattle.spf_model.specs.Result.{IsInOrder, kind_number};
ghost use Rattle.zone_answers.specs.declared.answer.Question.{Question as Asked};
ghost use Rattle.symbolic_check.specs.Keyed.{IsKeyOf};

use std::alloc::{AllocError, Global};
use std::collections::BTreeMap;
use std::vec::Vec;
use zone_answers::{AskKind, Question, Questions};

/// What questions are ordered by.
#[derive(PartialEq, Eq, PartialOrd, Ord, Drop)]
struct Key {
    /// The bytes of the printed name.
    text: Vec<u8>,
    /// The place of the kind among the kinds.
    kind: u32,
}

/// The place of a kind among the kinds.
fn number_of(kind: AskKind) -> u32
    ensures { result ≡ kind_number kind }
{
    match kind {
        AskKind::A => 0,
        AskKind::Aaaa => 1,
        AskKind::Mx => 2,
        AskKind::Txt => 3,
        AskKind::Reverse4 => 4,
        AskKind::Reverse6 => 5,
    }
}

/// The key of a question.
fn key_of(alloc: Global, question: &Question) -> Result<Key, AllocError>
    ensures { IfOk result (λ key. IsKeyOf question.now key) }
{
    let _labels = question.name.label_count();
    let text = question.name.write_text(alloc)?;
    Ok(Key {
        text,
        kind: number_of(question.kind),
    })
}

/// The questions by their keys.
fn by_key(alloc: Global, asked: Questions) -> Result<BTreeMap<Key, Question>, AllocError>
    ensures order { IfOk result (λ found. IsInOrder (values_of found.entries)) }
    ensures same { IfOk result (λ found. (question : Asked)
        → Contains (values_of found.entries) question ↔ Contains asked question) }
{
    let mut found = BTreeMap::new(alloc);
    for question in asked.into_vec() {
        let key = key_of(alloc, &question)?;
        found.insert(key, question)?;
    }
    Ok(found)
}

/// The questions, by rising key.
fn in_turn(alloc: Global, mut found: BTreeMap<Key, Question>) -> Result<Questions, AllocError>
    ensures { IfOk result (λ questions. questions ≡ values_of found.entries) }
{
    let mut questions = Questions::new(alloc);
    while let Some((_key, question)) = found.pop_first() {
        questions.push(question)?;
    }
    Ok(questions)
}

/// The questions, each once, by the bytes of the printed name and then by A, AAAA, MX, TXT, REVERSE4, REVERSE6.
pub(crate) fn in_order(alloc: Global, asked: Questions) -> Result<Questions, AllocError>
    ensures order { IfOk result IsInOrder }
    ensures same { IfOk result (λ questions. (question : Asked)
        → Contains questions question ↔ Contains asked question) }
{
    let found = by_key(alloc, asked)?;
    in_turn(alloc, found)
}
