//! Questions and answers.
ghost use Rattle.std.specs.Prelude.{◌≡◌, ◌≤◌, length};
ghost use Rattle.zone_answers.specs.Answers.{answer_bodies};

use crate::AskKind;
use addr_bits::{Family, Items};
use arrayvec::ArrayVec;
use dns_name::Name;
use master_reader::Body;

/// The kinds of records that are asked for at a name.
#[derive(Clone, Copy, Debug, PartialEq, Eq)]
pub enum QKind {
    A,
    Aaaa,
    Mx,
    Txt,
}

impl QKind {
    ghost use Rattle.zone_answers.specs.Answers.{kind_in};

    /// The kind of record that has the addresses of a family (RFC 1035, section 3.4.1, and RFC 3596, section 2.1).
    pub fn of_addresses(family: Family) -> QKind
        ensures { result ≡ kind_in family }
    {
        match family {
            Family::V4 => QKind::A,
            Family::V6 => QKind::Aaaa,
        }
    }
}

/// A name and what is asked of it.
#[derive(Drop, Debug)]
pub struct Question {
    pub name: Name,
    pub kind: AskKind,
}

impl Question {
    ghost use Rattle.zone_answers.specs.Questions.{question_text};

    /// The text of the question: the printed name, a space and the word of the kind. It takes no memory.
    pub fn text(&self) -> ArrayVec<u8, 1029>
        ensures { result.items ≡ question_text self.now }
    {
        let mut text = ArrayVec::new();
        text.try_extend_from_slice(&self.name.printed()).unwrap();
        text.push(b' ');
        text.try_extend_from_slice(self.kind.word().as_bytes())
            .unwrap();
        text
    }
}

/// Questions, in order.
pub type Questions = Items<Question>;

/// Bodies of records, in order.
pub type Bodies = Items<Body>;

/// The answer to a question.
#[derive(Drop, Debug)]
pub enum Answer {
    /// No lent zone holds the name, or it lies below a delegation (RFC 1034, section 4.3.2, steps 2 and 3 b).
    Outside,

    /// The name does not exist (RFC 1034, section 4.3.2, step 3 c).
    NoName,

    /// The name exists, and has no record of this kind.
    NoData,

    /// The aliases lead on after 8 steps.
    Loop,

    /// The bodies of the records of this kind, in the order of the file.
    Found(Bodies),
}

impl Answer {
    /// The bodies that were found; none where the answer is of another kind.
    pub fn bodies(&self) -> &[Body]
        ensures { result.now ≡ answer_bodies self.now }
    {
        match self {
            Answer::Found(bodies) => bodies.as_slice(),
            _ => &[],
        }
    }
}

/// What one zone says to a question.
#[derive(Drop)]
pub(crate) enum Step {
    /// The answer.
    Known(Answer),

    /// The name that the question is asked anew for.
    Alias(Name),
}
