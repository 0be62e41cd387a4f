//! A place that bytes are written to.
ghost use Rattle.std.specs.Prelude.{◌≡◌, ◌<◌, ◌≤◌, ◌+◌, [], IfOk, OnErr};
ghost use Rattle.std.specs.Io.{WritesAtMost};
ghost use Rattle.std.specs.Io.KnownBytes.{WriteAppends};
ghost use Rattle.spfc_outer.specs.Causes.{HasCause};
ghost use Rattle.spfc_outer.specs.Seen.{SinkSeen};

use crate::Failed;

/// A place that takes bytes, in pieces.
pub trait Sink {
    /// What is seen from outside: the bytes, where they are told, the faults, and the room that is sure.
    ghost seen: { Self → SinkSeen };

    /// Appends the first bytes of the piece, and answers how many. After `Failed` nothing was appended; to take nothing
    /// of a piece that has bytes is such a failure.
    fn write(&mut self, piece: &[u8]) -> Result<usize, Failed>
        ensures bound { WritesAtMost result piece.now }
        ensures bytes { WriteAppends (seen self.old).bytes (seen self.new).bytes result piece.now }
        ensures some { result ≡ Ok 0 → piece.now ≡ [] }
        ensures cause { HasCause (seen self.old).faults (seen self.new).faults result }
        ensures assured { IfOk result (λ n. (seen self.old).assured ≤ (seen self.new).assured + n) }
        ensures never_fails { 0 < (seen self.old).assured → OnErr result ⊥ };
}
