//! How far the bytes of an open entry have come.

use crate::entry::{Tokens, Units};
use crate::fault::LexKind;

/// What has come of an escape (RFC 1035, section 5.1).
#[derive(Clone, Copy, Debug)]
pub(crate) enum Escape {
    Unescaped,
    Slash,
    OneDigit(u8),
    TwoDigits(u8, u8),
}

/// Where in an entry its bytes have come to.
#[derive(Drop, Debug)]
pub(crate) enum Part {
    Outside,
    InComment,
    InToken {
        quoted: bool,
        units: Units,
        escape: Escape,
    },
}

/// What a byte does: the entry goes on, or it is closed, or it is broken.
#[derive(Drop, Debug)]
pub(crate) enum Step {
    Goes {
        depth: u64,
        tokens: Tokens,
        part: Part,
    },
    Closes {
        tokens: Tokens,
    },
    Fails {
        kind: LexKind,
    },
}
