//! Entries out of bytes that come one by one.
ghost use Rattle.master_lex.specs.Steps.{given_of, line_behind};
ghost use Rattle.std.specs.Prelude.{◌≡◌, ℕ, ◌+◌, ◌<◌, ◌^◌, List, [], ◌∷◌, ◌++◌, length, IfOk, IfErr, IfSome, OnOk};
ghost use Rattle.std.specs.Prelude.{option_to_list};

use crate::entry::{Entry, Tokens};
use crate::fault::LexFault;
use crate::part::{Part, Step};
use crate::step::{end, is_blank, step};
use std::alloc::Global;
use std::marker::Model;

/// Cuts the bytes of a master file into entries (RFC 1035, section 5.1), byte by byte. It keeps the open entry alone,
/// and the numbers of lines, which stop at the last `u64`.
#[derive(Drop, Debug)]
pub struct Cutter {
    alloc: Global,
    line: u64,
    here: u64,
    lead: Option<bool>,
    depth: u64,
    tokens: Tokens,
    part: Part,
}

impl Model for Cutter {
    ghost use Rattle.master_lex.specs.Pieces.{Kept};

    ghost Value = { Kept };

    ghost view = { λ a. record {
      line = a.line;
      here = a.here;
      lead = a.lead;
      depth = a.depth;
      tokens = a.tokens;
      part = a.part;
    } };
}

/// The entry, if it has a token.
fn entry_of(line: u64, blank: bool, tokens: Tokens) -> Option<Entry>
    ensures { result ≡ given_of (record { line = line; blank = blank; tokens = tokens }) }
{
    if tokens.is_empty() {
        return None;
    }
    Some(Entry {
        line,
        blank,
        tokens,
    })
}

/// The number of the line behind a byte.
fn line_behind(line: u64, byte: u8) -> u64
    ensures { result ≡ line_behind line byte }
{
    if byte == b'\n' {
        line.saturating_add(1)
    } else {
        line
    }
}

impl Cutter {
    ghost use Rattle.master_lex.specs.declared.entry.Entry.{Entry};
    ghost use Rattle.master_lex.specs.declared.fault.LexKind.{LexKind};
    ghost use Rattle.master_lex.specs.Pieces.{StandsFor, IsBrokenAt, IsDecidedAt, Closes, EndsWith, AreAll, FaultIs};
    ghost use Rattle.master_lex.specs.Pieces.{Kept};
    ghost use Rattle.master_lex.specs.declared.part.Part.TheVariants.{Outside};

    /// A cutter of no bytes, at line 1. It keeps the allocator and takes no memory.
    pub fn new(alloc: Global) -> Cutter
        ensures { StandsFor 1 result [] [] }
    {
        Cutter::from_line(alloc, 1)
    }

    /// A cutter of no bytes, at the line.
    pub(crate) fn from_line(alloc: Global, line: u64) -> Cutter
        ensures fresh { result
            ≡ record { line = line; here = line; lead = None; depth = 0; tokens = []; part = Outside } }
        ensures none { 0 < line → StandsFor line result [] [] }
    {
        Cutter {
            alloc,
            line,
            here: line,
            lead: None,
            depth: 0,
            tokens: Tokens::new(alloc),
            part: Part::Outside,
        }
    }

    /// The line on which the open entry begins.
    pub(crate) fn line(&self) -> u64
        ensures { result ≡ self.now.line }
    {
        self.line
    }

    /// The line of the next byte.
    pub(crate) fn here(&self) -> u64
        ensures { result ≡ self.now.here }
    {
        self.here
    }

    /// Takes a byte, and gives the entry that it closes, if that has a token. `Bad` comes with the byte that decides
    /// that an entry is broken, and names the line on which that entry begins.
    pub fn step(self, byte: u8) -> Result<(Cutter, Option<Entry>), LexFault>
        ensures taken { (first : ℕ) (bytes : List ℕ) (given : List Entry) → StandsFor first self bytes given
            → first + length bytes < 2 ^ 64
            → IfOk result (λ r. StandsFor first r.0 (bytes ++ byte ∷ []) (given ++ option_to_list r.1)) }
        ensures closed { (first : ℕ) (bytes : List ℕ) (given : List Entry) → StandsFor first self bytes given
            → first + length bytes < 2 ^ 64
            → IfOk result (λ r. IfSome r.1 (λ entry. Closes first bytes given byte entry r.0.line)) }
        ensures bad { (first : ℕ) (bytes : List ℕ) (given : List Entry) → StandsFor first self bytes given
            → first + length bytes < 2 ^ 64
            → IfErr result (FaultIs (IsDecidedAt first (bytes ++ byte ∷ []) given)) }
        ensures not_bad { (first : ℕ) (bytes : List ℕ) (given : List Entry) → StandsFor first self bytes given
            → first + length bytes < 2 ^ 64
            → OnOk result ((before : List Entry) (line : ℕ) (kind : LexKind)
            → ¬ IsDecidedAt first (bytes ++ byte ∷ []) before line kind) }
    {
        let Cutter {
            alloc,
            line,
            here,
            lead,
            depth,
            tokens,
            part,
        } = self;
        let blank = lead.unwrap_or(is_blank(byte));
        let here = line_behind(here, byte);
        match step(alloc, depth, tokens, part, byte)? {
            Step::Goes {
                depth,
                tokens,
                part,
            } => {
                let cutter = Cutter {
                    alloc,
                    line,
                    here,
                    lead: Some(blank),
                    depth,
                    tokens,
                    part,
                };
                Ok((cutter, None))
            }
            Step::Closes { tokens } => {
                let entry = entry_of(line, blank, tokens);
                Ok((Cutter::from_line(alloc, here), entry))
            }
            Step::Fails { kind } => Err(LexFault::Bad { line, kind }),
        }
    }

    /// Ends the bytes, and gives the entry that they leave open, if that has a token. `Bad` comes where the open entry
    /// is broken.
    pub fn finish(self) -> Result<Option<Entry>, LexFault>
        ensures last { (first : ℕ) (bytes : List ℕ) (given : List Entry) → StandsFor first self bytes given
            → IfOk result (λ r. AreAll first bytes (given ++ option_to_list r)) }
        ensures entry { (first : ℕ) (bytes : List ℕ) (given : List Entry) → StandsFor first self bytes given
            → IfOk result (λ r. IfSome r (λ entry. EndsWith first bytes given entry self.here)) }
        ensures bad { (first : ℕ) (bytes : List ℕ) (given : List Entry) → StandsFor first self bytes given
            → IfErr result (FaultIs (IsBrokenAt first bytes given)) }
        ensures not_bad { (first : ℕ) (bytes : List ℕ) (given : List Entry) → StandsFor first self bytes given
            → OnOk result ((before : List Entry) (line : ℕ) (kind : LexKind)
            → ¬ IsBrokenAt first bytes before line kind) }
    {
        let Cutter {
            alloc: _,
            line,
            here: _,
            lead,
            depth,
            tokens,
            part,
        } = self;
        match end(depth, tokens, part)? {
            Ok(tokens) => Ok(entry_of(line, lead.unwrap_or(false), tokens)),
            Err(kind) => Err(LexFault::Bad { line, kind }),
        }
    }
}
