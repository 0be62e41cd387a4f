//! A listener that writes what it hears.
ghost use Rattle.std.specs.Prelude.{◌≡◌, OnOk, OnErr};
ghost use Rattle.std.specs.Io.KnownBytes.{Appends};
ghost use Rattle.spfc_outer.specs.Auditors.{asked_line};
ghost use Rattle.spfc_outer.specs.Causes.{HasCause};
ghost use Rattle.spfc_outer.specs.Moved.{AppendsPart};

use crate::{Auditor, Failed, Keep, Sink, write_whole};
use arrayvec::ArrayVec;
use std::alloc::AllocError;
use zone_answers::Question;

/// A listener that writes the line `asked NAME KIND` for each question, and is done at a question whose line it cannot
/// write whole.
#[derive(Drop)]
pub struct LineAuditor<S> {
    sink: S,
    count: u64,
}

impl<S: Sink + Drop> LineAuditor<S> {
    ghost use Rattle.spfc_outer.specs.LineAuditor.{line_seen, line_sink};

    /// A listener that heard nothing, and writes to this sink.
    pub fn new(sink: S) -> LineAuditor<S>
        ensures count { (line_seen result).count ≡ 0 }
        ensures sink { line_sink result ≡ sink }
    {
        LineAuditor { sink, count: 0 }
    }
}

impl<S: Sink + Drop> Auditor for LineAuditor<S> {
    ghost use Rattle.std.specs.Prelude.{◌≡◌, Ok, IfOk, IsOk, OnErr};
    ghost use Rattle.std.specs.Io.KnownBytes.{Appends};
    ghost use Rattle.spfc_outer.specs.Auditors.{HasHeard, asked_line};
    ghost use Rattle.spfc_outer.specs.Causes.{Rose};
    ghost use Rattle.spfc_outer.specs.LineAuditor.{line_seen, line_sink};
    ghost use Rattle.spfc_outer.specs.Moved.{AppendsPart};

    ghost hears = { line_seen };

    fn tell(&mut self, question: &Question) -> Result<Keep, AllocError>
        ensures heard { IfOk result (HasHeard (line_seen self.old) question.now (line_seen self.new)) }
        ensures unheard { OnErr result (line_seen self.new ≡ line_seen self.old) }
        ensures answers { IsOk result }
        ensures line { result ≡ Ok Keep.Go → Appends (S.seen (line_sink self.old)).bytes
            (S.seen (line_sink self.new)).bytes (asked_line question.now) }
        ensures part { result ≡ Ok Keep.Done → AppendsPart (S.seen (line_sink self.old)).bytes
            (S.seen (line_sink self.new)).bytes (asked_line question.now) }
        ensures cause { result ≡ Ok Keep.Done → Rose (S.seen (line_sink self.old)).faults
            (S.seen (line_sink self.new)).faults }
    {
        self.count = self.count.saturating_add(1);
        match write_line(&mut self.sink, question) {
            Ok(()) => Ok(Keep::Go),
            Err(Failed) => Ok(Keep::Done),
        }
    }
}

/// Writes the line of the question.
fn write_line<S: Sink>(sink: &mut S, question: &Question) -> Result<(), Failed>
    ensures whole { OnOk result (Appends (S.seen sink.old).bytes (S.seen sink.new).bytes (asked_line question.now)) }
    ensures part { OnErr result
        (AppendsPart (S.seen sink.old).bytes (S.seen sink.new).bytes (asked_line question.now)) }
    ensures cause { HasCause (S.seen sink.old).faults (S.seen sink.new).faults result }
{
    let mut line: ArrayVec<u8, 1036> = ArrayVec::new();
    line.try_extend_from_slice(b"asked ").unwrap();
    line.try_extend_from_slice(&question.text()).unwrap();
    line.push(b'\n');
    write_whole(sink, &line)
}
