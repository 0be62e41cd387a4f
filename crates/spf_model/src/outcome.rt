//! Limits, and how the evaluation of an address ends.

use dns_name::Name;
use spf_grammar::Verdict;
use std::alloc::AllocError;

/// The limits of an evaluation (RFC 7208, section 4.6.4).
#[derive(Clone, Copy, Debug, PartialEq, Eq)]
pub struct Limits {
    /// The most terms that ask the DNS.
    pub lookups: u32,
    /// The most of these terms that got a void answer.
    pub voids: u32,
    /// The most exchanges of an `mx` term.
    pub exchanges: u32,
}

/// What an evaluation has counted so far (RFC 7208, section 4.6.4).
#[derive(Clone, Copy, Debug, PartialEq, Eq)]
pub struct Counts {
    /// The terms that ask the DNS.
    pub lookups: u32,
    /// Those of them that got a void answer.
    pub voids: u32,
}

/// Why an address has no verdict.
#[derive(Clone, Copy, Debug, PartialEq, Eq)]
pub enum Cause {
    /// The name has no SPF record.
    NoRecord,
    /// A macro needs the sender.
    Sender,
    /// A macro needs the HELO name.
    Helo,
    /// The term or a macro needs the name of the address.
    Reverse,
    /// A macro needs the address.
    Address,
    /// An answer lies outside the zones.
    Outside,
    /// The target of `a`, `mx` or `exists` is no legal name.
    Target,
    /// The record breaks the grammar.
    Syntax,
    /// The name has more than one SPF record.
    Records,
    /// More terms ask the DNS than the limit.
    Lookups,
    /// More terms got a void answer than the limit.
    Voids,
    /// An `mx` term has more exchanges than the limit.
    Exchanges,
    /// The target of `include` or `redirect` is no legal name, or has no record.
    Missing,
    /// The aliases of a name lead on after 8 steps.
    Alias,
}

/// A term of the record at a name, counted from 1 with the modifiers; 0 is the record as a whole.
#[derive(Clone, Debug, Drop, PartialEq, Eq)]
pub struct Place {
    /// The name of the record.
    pub name: Name,
    /// The number of the term, or 0.
    pub term: u32,
}

/// How the evaluation of an address ends (RFC 7208, section 2.6).
#[derive(Clone, Debug, Drop, PartialEq, Eq)]
pub enum Outcome {
    /// There is no record: `none`.
    Nothing(Place),
    /// A verdict.
    Is(Verdict),
    /// The record is in error: `permerror`.
    Perm(Cause, Place),
    /// The answers lead nowhere: `temperror`.
    Temp(Cause, Place),
    /// What the zones and the address alone don't settle.
    Unsettled(Cause, Place),
}

/// Why a part of an evaluation hands nothing on.
#[derive(Drop)]
pub enum Halt {
    /// The evaluation has ended.
    Ended(Outcome),
    /// There is no memory.
    Memory,
}

impl From<AllocError> for Halt {
    ghost use Rattle.std.specs.Prelude.{◌≡◌};
    ghost use Rattle.spf_model.specs.declared.outcome.Halt.TheVariants.{Memory};

    ghost from_gives = { λ _ halt. halt ≡ Memory };

    fn from(_: AllocError) -> Halt {
        Halt::Memory
    }
}
