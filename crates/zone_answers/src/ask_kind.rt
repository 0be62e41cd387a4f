//! Kinds of questions.
ghost use Rattle.std.specs.Prelude.{◌≡◌, ◌≤◌, length};
ghost use Rattle.zone_answers.specs.Questions.{ask_kind_of, kind_word, reversed_kind};

use crate::QKind;
use addr_bits::Family;

/// What is asked: for records of a kind at a name, or for A records at the reversed names of all addresses of a family
/// below a name.
#[derive(Clone, Copy, Debug, PartialEq, Eq)]
pub enum AskKind {
    /// A records at the name.
    A,
    /// AAAA records at the name.
    Aaaa,
    /// MX records at the name.
    Mx,
    /// TXT records at the name.
    Txt,
    /// A records at the reversed names of all IPv4 addresses below the name (RFC 1035, section 3.5).
    Reverse4,
    /// A records at the reversed names of all IPv6 addresses below the name (RFC 3596, section 2.5).
    Reverse6,
}

impl AskKind {
    /// Asking for records of a kind at a name.
    pub fn of(kind: QKind) -> AskKind
        ensures { result ≡ ask_kind_of kind }
    {
        match kind {
            QKind::A => AskKind::A,
            QKind::Aaaa => AskKind::Aaaa,
            QKind::Mx => AskKind::Mx,
            QKind::Txt => AskKind::Txt,
        }
    }

    /// Asking at the reversed names of all addresses of a family.
    pub fn reversed(family: Family) -> AskKind
        ensures { result ≡ reversed_kind family }
    {
        match family {
            Family::V4 => AskKind::Reverse4,
            Family::V6 => AskKind::Reverse6,
        }
    }

    /// The word of the kind (RFC 1035, section 3.2.2, and RFC 3596, section 2.1); `REVERSE4` and `REVERSE6` are the
    /// project's own.
    pub fn word(self) -> &'static str
        ensures word { result.now ≡ kind_word self }
        ensures short { length result.now ≤ 8 }
    {
        match self {
            AskKind::A => "A",
            AskKind::Aaaa => "AAAA",
            AskKind::Mx => "MX",
            AskKind::Txt => "TXT",
            AskKind::Reverse4 => "REVERSE4",
            AskKind::Reverse6 => "REVERSE6",
        }
    }
}
