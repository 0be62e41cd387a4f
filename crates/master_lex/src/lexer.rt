//! The entries of a file from its whole bytes.
ghost use Rattle.std.specs.Prelude.{◌≡◌, [], ◌+◌, ◌<◌, ◌≤◌, ◌^◌, length, IfOk, IfErr, IfNone, OnErr, MatchOption};
ghost use Rattle.master_lex.specs.File.{IsNext, IsNoneLeft, IsNextBroken};
ghost use Rattle.master_lex.specs.Pieces.{FaultIs};

use crate::cutter::Cutter;
use crate::entry::Entry;
use crate::fault::LexFault;
use std::alloc::Global;
use std::marker::Model;

/// The next entry that has a token, the line of what is behind it, and the bytes behind it.
fn next_entry(
    alloc: Global,
    line: u64,
    bytes: &[u8],
) -> Result<(Option<Entry>, u64, &[u8]), LexFault>
    requires counted { 0 < line }
    requires few { line + length bytes.now ≤ 2 ^ 63 }
    ensures entry { IfOk result (λ r. MatchOption r.0 (IsNoneLeft line bytes.now)
        (λ entry. IsNext line bytes.now entry r.1 r.2.now)) }
    ensures none { IfOk result (λ r. IfNone r.0 (r.2.now ≡ [])) }
    ensures counted { IfOk result (λ r. (0 < r.1) × (r.1 + length r.2.now ≤ 2 ^ 63)) }
    ensures bad { IfErr result (FaultIs (IsNextBroken line bytes.now)) }
{
    let mut cutter = Cutter::from_line(alloc, line);
    for (place, byte) in bytes.iter().enumerate() {
        let (next, entry) = cutter.step(*byte)?;
        cutter = next;
        if let Some(entry) = entry {
            return Ok((Some(entry), cutter.line(), &bytes[place + 1..]));
        }
    }
    let line = cutter.here();
    let entry = cutter.finish()?;
    Ok((entry, line, &bytes[bytes.len()..]))
}

/// Gives the entries of a master file (RFC 1035, section 5.1) that have a token, from its whole bytes.
#[derive(Drop, Debug)]
pub struct Lexer<'a> {
    alloc: Global,
    line: u64,
    rest: &'a [u8],
}

impl<'a> Model for Lexer<'a> {
    ghost use Rattle.std.specs.Prelude.{◌+◌, ◌<◌, ◌≤◌, ◌^◌, length};
    ghost use Rattle.master_lex.specs.File.{Left};

    ghost Value = { Left };

    ghost view = { λ a. record { line = a.line; bytes = a.rest.now } };

    ghost invariant = { λ a. (0 < a.line) × (a.line + length a.rest.now ≤ 2 ^ 63) };
}

impl<'a> Lexer<'a> {
    /// A lexer of these bytes, the first of which stands on line 1. It keeps the allocator and takes no memory.
    pub fn new(alloc: Global, bytes: &'a [u8]) -> Lexer<'a>
        ensures { result ≡ record { line = 1; bytes = bytes.now } }
    {
        Lexer {
            alloc,
            line: 1,
            rest: bytes,
        }
    }

    /// The next entry that has a token, or `None` where no such entry is left. `Bad` comes where the next entry is
    /// broken, with the line on which it begins. A refusal leaves the lexer as it was, so a `Bad` comes again.
    pub fn next(&mut self) -> Result<Option<Entry>, LexFault>
        ensures entry { IfOk result (λ r. MatchOption r (IsNoneLeft self.old.line self.old.bytes)
            (λ entry. IsNext self.old.line self.old.bytes entry self.new.line self.new.bytes)) }
        ensures none { IfOk result (λ r. IfNone r (self.new.bytes ≡ [])) }
        ensures bad { IfErr result (FaultIs (IsNextBroken self.old.line self.old.bytes)) }
        ensures err { OnErr result (self.new ≡ self.old) }
    {
        let (entry, line, rest) = next_entry(self.alloc, self.line, self.rest)?;
        self.line = line;
        self.rest = rest;
        Ok(entry)
    }
}
