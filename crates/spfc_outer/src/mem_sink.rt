//! A sink in memory, with the calls that are to fail.
ghost use Rattle.std.specs.Prelude.{◌≡◌, ◌≤◌, IfOk, vec_len, vec_capacity};

use crate::calls::count_call;
use crate::{Calls, Failed, Sink};
use std::alloc::{AllocError, Global};

/// A sink in memory, with room for a number of bytes.
#[derive(Drop)]
pub struct MemSink {
    bytes: Vec<u8>,
    room: usize,
    most: usize,
    fails: Calls,
    calls: u64,
    faults: u64,
    ghost some: { 1 ≤ most },
    ghost within: { vec_len bytes ≤ room },
    ghost fits: { room ≤ vec_capacity bytes },
}

impl MemSink {
    ghost use Rattle.spfc_outer.specs.MemSink.{sink_bytes, IsNewSink};

    /// A sink with room for `room` bytes, which takes at most `most` of them in a call. The writes are numbered from 1,
    /// and those whose number is in `fails` fail, as does one of some bytes where no room is left. It takes all its
    /// memory here.
    pub fn new(alloc: Global, room: usize, most: usize, fails: Calls) -> Result<MemSink, AllocError>
        requires { 1 ≤ most }
        ensures { IfOk result (λ s. IsNewSink s room most fails) }
    {
        Ok(MemSink {
            bytes: Vec::with_capacity(alloc, room)?,
            room,
            most,
            fails,
            calls: 0,
            faults: 0,
        })
    }

    /// The bytes that it holds.
    pub fn bytes(&self) -> &[u8]
        ensures { result.now ≡ sink_bytes self.now }
    {
        self.bytes.as_slice()
    }
}

impl Sink for MemSink {
    ghost use Rattle.std.specs.Prelude.{◌≡◌, ◌<◌, ◌≤◌, ◌+◌, [], Some, IfOk, OnErr};
    ghost use Rattle.std.specs.Io.{WritesAtMost};
    ghost use Rattle.std.specs.Io.KnownBytes.{WriteAppends};
    ghost use Rattle.spfc_outer.specs.Causes.{HasCause};
    ghost use Rattle.spfc_outer.specs.MemSink.{sink_bytes, sure_room, mem_sink_seen, WritesAsMade};

    ghost seen = { mem_sink_seen };

    fn write(&mut self, piece: &[u8]) -> Result<usize, Failed>
        ensures bound { WritesAtMost result piece.now }
        ensures bytes { WriteAppends (Some (sink_bytes self.old)) (Some (sink_bytes self.new)) result piece.now }
        ensures some { result ≡ Ok 0 → piece.now ≡ [] }
        ensures cause { HasCause self.old.faults self.new.faults result }
        ensures assured { IfOk result (λ n. sure_room self.old ≤ sure_room self.new + n) }
        ensures never_fails { 0 < sure_room self.old → OnErr result ⊥ }
        ensures as_made { WritesAsMade self.old self.new piece.now result }
    {
        let fails = count_call(self.fails.as_slice(), &mut self.calls);
        let left = self.room - self.bytes.len();
        if fails || (!piece.is_empty() && left == 0) {
            self.faults = self.faults.saturating_add(1);
            return Err(Failed);
        }
        let count = piece.len().min(self.most).min(left);
        self.bytes.extend_from_slice(&piece[..count]).unwrap();
        Ok(count)
    }
}
