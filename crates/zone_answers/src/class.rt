//! Classes of answers.
ghost use Rattle.std.specs.Prelude.{◌≡◌};
ghost use Rattle.zone_answers.specs.Reversed.{class_of};

use crate::Answer;

/// What an answer says of the existence of records, whichever they are.
#[derive(Clone, Copy, Debug, PartialEq, Eq)]
pub enum Class {
    /// There are records.
    Hit,
    /// The name does not exist, or has no such record: a void answer (RFC 7208, section 4.6.4).
    Void,
    /// The name lies outside the lent zones.
    Beyond,
    /// The aliases lead on.
    Round,
}

impl Class {
    /// The class of an answer.
    pub fn of(answer: &Answer) -> Class
        ensures { result ≡ class_of answer.now }
    {
        match answer {
            Answer::Found(_) => Class::Hit,
            Answer::NoName | Answer::NoData => Class::Void,
            Answer::Outside => Class::Beyond,
            Answer::Loop => Class::Round,
        }
    }
}
