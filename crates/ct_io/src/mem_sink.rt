ghost use Rattle.std.specs.Prelude.{◌≡◌, ℕ, ◌<◌, ◌≤◌, [], Some, max, length, IfOk, IsOk, OnOk, OnErr};
ghost use Rattle.std.specs.Io.KnownBytes.{WriteAppends};
ghost use Rattle.ct_word.specs.Causes.{HasCause, end_of_u64};
ghost use Rattle.ct_io.specs.Memory.{WritesMemory};

use crate::call_log::CallLog;
use crate::sink::Sink;
use ct_word::{Failed, NoMemory};
use std::alloc::Global;
use std::marker::Model;

/// A sink over memory that was reserved before, whose calls fail as a list says.
#[derive(Debug, Drop)]
pub struct MemSink {
    held: Vec<u8>,
    room: usize,
    most: usize,
    log: CallLog,
}

impl Model for MemSink {
    ghost use Rattle.std.specs.Prelude.{◌≤◌, ◌+◌, vec_len, vec_capacity};
    ghost use Rattle.ct_io.specs.Memory.{SinkState};

    ghost Value = { SinkState };

    ghost view = { λ s. record { held = s.held.items; most = s.most; room = s.room; calls = s.log } };

    ghost invariant = { λ s. (vec_len s.held + s.room ≤ vec_capacity s.held) × (1 ≤ s.most) };
}

impl MemSink {
    /// A sink with no room yet that takes at most `most` bytes at a call.
    /// The calls with the numbers in `fails`, from 0, fail.
    pub fn new(most: usize, fails: Vec<u64>) -> MemSink
        requires { 1 ≤ most }
        ensures { result ≡ record {
          held = [];
          most = most;
          room = 0;
          calls = record { fails = fails.items; made = 0; faults = 0 };
        } }
    {
        let alloc = *fails.allocator();
        MemSink {
            held: Vec::new(alloc),
            room: 0,
            most,
            log: CallLog::new(fails),
        }
    }

    /// Reserves memory for at least `n` more bytes. Where that fails, nothing changes.
    pub fn reserve(&mut self, _alloc: Global, n: usize) -> Result<(), NoMemory>
        ensures ok { OnOk result (self.new ≡ record self.old { room = max self.old.room n }) }
        ensures err { OnErr result (self.new ≡ self.old) }
        ensures succeeds { n ≤ self.old.room → IsOk result }
    {
        self.held.reserve(n)?;
        self.room = self.room.max(n);
        Ok(())
    }

    /// The bytes that it took so far.
    pub fn bytes(&self) -> &[u8]
        ensures { result.now ≡ self.now.held }
    {
        self.held.as_slice()
    }
}

impl Sink for MemSink {
    ghost held = { λ s. Some s.held };

    ghost faults = { λ s. s.calls.faults };

    fn write(&mut self, piece: &[u8]) -> Result<usize, Failed>
        requires { 0 < length piece.now }
        ensures taken { IfOk result (λ n. (0 < n) × (n ≤ length piece.now)) }
        ensures bytes { WriteAppends (Some self.old.held) (Some self.new.held) result piece.now }
        ensures cause { HasCause end_of_u64 self.old.calls.faults self.new.calls.faults result }
        ensures exact { WritesMemory self.old self.new piece.now result }
    {
        let is_listed = self.log.begin_call();
        let count = self.most.min(piece.len());
        if is_listed || self.room < count {
            return Err(self.log.fault());
        }
        self.held.extend_from_slice(&piece[..count]).unwrap();
        self.room -= count;
        Ok(count)
    }
}
