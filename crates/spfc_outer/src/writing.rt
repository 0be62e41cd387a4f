//! Writes to a sink until all is written.
ghost use Rattle.std.specs.Prelude.{◌≤◌, length, IsOk, OnOk, OnErr};
ghost use Rattle.std.specs.Io.KnownBytes.{Appends};
ghost use Rattle.spfc_outer.specs.Causes.{HasCause};
ghost use Rattle.spfc_outer.specs.Moved.{AppendsPart};

use crate::{Failed, Sink};

/// Writes all the bytes; each call of the sink is handed all that are left. After `Failed` some of the first bytes may
/// be written, but not all.
pub fn write_whole<K: Sink>(sink: &mut K, bytes: &[u8]) -> Result<(), Failed>
    ensures whole { OnOk result (Appends (K.seen sink.old).bytes (K.seen sink.new).bytes bytes.now) }
    ensures part { OnErr result (AppendsPart (K.seen sink.old).bytes (K.seen sink.new).bytes bytes.now) }
    ensures cause { HasCause (K.seen sink.old).faults (K.seen sink.new).faults result }
    ensures assured { length bytes.now ≤ (K.seen sink.old).assured → IsOk result }
{
    let mut at = 0;
    while at < bytes.len() {
        at += sink.write(&bytes[at..])?;
    }
    Ok(())
}
