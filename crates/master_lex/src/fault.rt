//! Why bytes are no entry.

use std::alloc::AllocError;
use thiserror::Error;

/// Why bytes are no entry.
#[derive(Clone, Copy, Debug, PartialEq, Eq, Error)]
pub enum LexKind {
    /// A line feed or the end of the file stands within quotes.
    #[error("an open quote")]
    OpenQuote,

    /// The file ends within parentheses.
    #[error("an open parenthesis")]
    OpenParen,

    /// A parenthesis closes that none opened.
    #[error("a stray parenthesis")]
    StrayParen,

    /// A `\` begins no escape.
    #[error("a bad escape")]
    BadEscape,
}

/// Why there is no next entry.
#[derive(Clone, Copy, Debug, PartialEq, Eq, Error)]
pub enum LexFault {
    /// The entry that begins on this line is broken.
    #[error("line {line}: {kind}")]
    Bad { line: u64, kind: LexKind },

    /// There is no memory.
    #[error("out of memory")]
    Memory,
}

impl From<AllocError> for LexFault {
    ghost use Rattle.std.specs.Prelude.{◌≡◌};
    ghost use Rattle.master_lex.specs.declared.fault.LexFault.TheVariants.{Memory};

    ghost from_gives = { λ _ fault. fault ≡ Memory };

    fn from(_: AllocError) -> LexFault {
        LexFault::Memory
    }
}
