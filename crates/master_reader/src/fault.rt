//! Why a file has no reading.

use master_lex::{LexFault, LexKind};
use std::alloc::AllocError;
use thiserror::Error;

/// Why an entry is broken or has no meaning.
#[derive(Clone, Copy, Debug, PartialEq, Eq, Error)]
pub enum Kind {
    /// A line feed or the end of the file stands within quotes.
    #[error("an open quote")]
    OpenQuote,

    /// The file ends within parentheses.
    #[error("an open parenthesis")]
    OpenParen,

    /// A parenthesis closes that none opened.
    #[error("a stray parenthesis")]
    StrayParen,

    /// A `\` begins no escape.
    #[error("a bad escape")]
    BadEscape,

    /// An entry begins with a blank, and no owner was stated before it.
    #[error("no owner")]
    NoOwner,

    /// A token is no name.
    #[error("a bad name")]
    BadName,

    /// A token in the place of a TTL is none, or a second one.
    #[error("a bad TTL")]
    BadTtl,

    /// A class other than IN, or a second one.
    #[error("a class")]
    Class,

    /// There is no type.
    #[error("no type")]
    NoType,

    /// The data are not those of the type.
    #[error("bad data")]
    BadData,

    /// A string has more than 255 octets, or the strings of a TXT record more than 65,535 with their length octets.
    #[error("a long text")]
    LongText,

    /// The directive `$INCLUDE`.
    #[error("an inclusion")]
    Include,

    /// A DNAME record.
    #[error("a DNAME record")]
    Dname,

    /// A type by its number, or data in the form of RFC 3597, section 5, where the type is one that is read.
    #[error("a number of a type")]
    TypeNumber,

    /// A directive of another name.
    #[error("an unknown directive")]
    UnknownDirective,
}

impl From<LexKind> for Kind {
    ghost use Rattle.std.specs.Prelude.{◌≡◌};
    ghost use Rattle.master_reader.specs.Reading.{kind_of};

    ghost from_gives = { λ broken kind. kind ≡ kind_of broken };

    fn from(broken: LexKind) -> Kind {
        match broken {
            LexKind::OpenQuote => Kind::OpenQuote,
            LexKind::OpenParen => Kind::OpenParen,
            LexKind::StrayParen => Kind::StrayParen,
            LexKind::BadEscape => Kind::BadEscape,
        }
    }
}

/// Why a file has no reading.
#[derive(Clone, Copy, Debug, PartialEq, Eq, Error)]
pub enum ZoneFault {
    /// The first broken or faulty entry begins on this line.
    #[error("line {line}: {kind}")]
    Bad { line: u64, kind: Kind },

    /// There is no memory.
    #[error("out of memory")]
    Memory,
}

impl From<AllocError> for ZoneFault {
    ghost use Rattle.std.specs.Prelude.{◌≡◌};
    ghost use Rattle.master_reader.specs.declared.fault.ZoneFault.TheVariants.{Memory};

    ghost from_gives = { λ _ fault. fault ≡ Memory };

    fn from(_: AllocError) -> ZoneFault {
        ZoneFault::Memory
    }
}

impl From<LexFault> for ZoneFault {
    ghost use Rattle.std.specs.Prelude.{◌≡◌};
    ghost use Rattle.master_reader.specs.Readers.{zone_fault_of};

    ghost from_gives = { λ broken fault. fault ≡ zone_fault_of broken };

    fn from(broken: LexFault) -> ZoneFault {
        match broken {
            LexFault::Bad { line, kind } => ZoneFault::Bad {
                line,
                kind: kind.into(),
            },
            LexFault::Memory => ZoneFault::Memory,
        }
    }
}

/// Why an entry has no meaning: a fault of its own, or want of memory.
#[derive(Clone, Copy, Debug)]
pub(crate) enum Refusal {
    Faulty(Kind),
    Memory,
}

impl From<AllocError> for Refusal {
    ghost use Rattle.std.specs.Prelude.{◌≡◌};
    ghost use Rattle.master_reader.specs.declared.fault.Refusal.TheVariants.{Memory};

    ghost from_gives = { λ _ refusal. refusal ≡ Memory };

    fn from(_: AllocError) -> Refusal {
        Refusal::Memory
    }
}

impl From<Kind> for Refusal {
    ghost use Rattle.std.specs.Prelude.{◌≡◌};
    ghost use Rattle.master_reader.specs.declared.fault.Refusal.TheVariants.{Faulty};

    ghost from_gives = { λ kind refusal. refusal ≡ Faulty kind };

    fn from(kind: Kind) -> Refusal {
        Refusal::Faulty(kind)
    }
}
