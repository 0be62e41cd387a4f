//! What a certificate comes to.

use addr_bits::Address;
use bound_table::TableFault;
use master_reader::{Kind, ZoneFault};
use spf_model::Outcome;
use std::alloc::AllocError;
use verdict_map::VerdictFault;

/// The records of a fragment give each address its verdict, by the fewest terms, and in the fewest records that fit.
#[derive(Clone, Copy, Debug, PartialEq, Eq)]
pub struct Yes {
    /// How many terms the list has that the records spell.
    pub terms: u64,
    /// How many records there are.
    pub records: u32,
}

/// The first reason why a fragment is not accepted, in this order.
#[derive(Debug, Drop)]
pub enum No {
    /// Some address has no verdict over the zones: the least IPv4 address, or where each of these has one, the least
    /// IPv6 address; and its outcome.
    Refused { address: Address, outcome: Outcome },

    /// The bytes are no master file (RFC 1035, section 5): the line, counted from 1, and the kind of the first fault.
    NotZone { line: u64, kind: Kind },

    /// The records are no chain of flat records (RFC 7208, section 6.1).
    NotChain,

    /// The list gives an address another verdict than the zones do: the least IPv4 address, or where there is none
    /// the least IPv6 address.
    Verdict { address: Address },

    /// The table is not good: the line, counted from 1, that the first round with a fault names.
    Table { line: u64 },

    /// The number of terms is not the total of the table.
    Terms,

    /// A record does not fit, or the list fits into fewer records.
    Records,

    /// There is no memory.
    Memory,
}

impl From<AllocError> for No {
    ghost use Rattle.std.specs.Prelude.{◌≡◌};
    ghost use Rattle.cert_checker.specs.declared.answer.No.TheVariants.{Memory};

    ghost from_gives = { λ _ fault. fault ≡ Memory };

    fn from(_: AllocError) -> No {
        No::Memory
    }
}

impl From<VerdictFault> for No {
    ghost use Rattle.std.specs.Prelude.{◌≡◌};
    ghost use Rattle.cert_checker.specs.Steps.{no_of_verdicts};

    ghost from_gives = { λ fault no. no ≡ no_of_verdicts fault };

    fn from(fault: VerdictFault) -> No {
        match fault {
            VerdictFault::Refused { address, outcome } => No::Refused { address, outcome },
            VerdictFault::Memory => No::Memory,
        }
    }
}

impl From<ZoneFault> for No {
    ghost use Rattle.std.specs.Prelude.{◌≡◌};
    ghost use Rattle.cert_checker.specs.Steps.{no_of_zone};

    ghost from_gives = { λ fault no. no ≡ no_of_zone fault };

    fn from(fault: ZoneFault) -> No {
        match fault {
            ZoneFault::Bad { line, kind } => No::NotZone { line, kind },
            ZoneFault::Memory => No::Memory,
        }
    }
}

impl From<TableFault> for No {
    ghost use Rattle.std.specs.Prelude.{◌≡◌};
    ghost use Rattle.cert_checker.specs.Steps.{no_of_table};

    ghost from_gives = { λ fault no. no ≡ no_of_table fault };

    fn from(fault: TableFault) -> No {
        match fault {
            TableFault::NotTable { line } => No::Table { line },
            TableFault::Memory => No::Memory,
        }
    }
}
