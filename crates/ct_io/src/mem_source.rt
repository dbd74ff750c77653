ghost use Rattle.std.specs.Prelude.{◌≡◌, ℕ, ◌<◌, ◌≤◌, ◌++◌, Some, min, length, take, drop, IfOk};
ghost use Rattle.std.specs.Io.KnownBytes.{ReadConsumes};
ghost use Rattle.ct_word.specs.Causes.{HasCause, Rose, end_of_u64};
ghost use Rattle.ct_io.specs.Memory.{ReadsMemory, reads_of};

use crate::call_log::CallLog;
use crate::source::Source;
use ct_word::Failed;
use std::marker::Model;

/// A source over memory, whose calls fail as a list says.
#[derive(Debug, Drop)]
pub struct MemSource {
    bytes: Vec<u8>,
    at: usize,
    most: usize,
    log: CallLog,
}

impl Model for MemSource {
    ghost use Rattle.std.specs.Prelude.{◌≤◌, drop, length};
    ghost use Rattle.ct_io.specs.Memory.{SourceState};

    ghost Value = { SourceState };

    ghost view = { λ s. record { left = drop s.at s.bytes.items; most = s.most; calls = s.log } };

    ghost invariant = { λ s. (s.at ≤ length s.bytes.items) × (1 ≤ s.most) };
}

impl MemSource {
    /// A source of these bytes that gives at most `most` of them at a call.
    /// The calls with the numbers in `fails`, from 0, fail.
    pub fn new(bytes: Vec<u8>, most: usize, fails: Vec<u64>) -> MemSource
        requires { 1 ≤ most }
        ensures { result ≡ record {
          left = bytes.items;
          most = most;
          calls = record { fails = fails.items; made = 0; faults = 0 };
        } }
    {
        MemSource {
            bytes,
            at: 0,
            most,
            log: CallLog::new(fails),
        }
    }
}

impl Source for MemSource {
    ghost left = { λ s. Some s.left };

    ghost reads = { λ s. reads_of s.calls };

    ghost faults = { λ s. s.calls.faults };

    fn read(&mut self, into: &mut [u8]) -> Result<usize, Failed>
        requires { 0 < length into.old }
        ensures bound { IfOk result (λ n. n ≤ length into.new) }
        ensures bytes { ReadConsumes (Some self.old.left) (Some self.new.left) result into.new }
        ensures counted { Rose end_of_u64 (reads_of self.old.calls) (reads_of self.new.calls) }
        ensures cause { HasCause end_of_u64 self.old.calls.faults self.new.calls.faults result }
        ensures exact { ReadsMemory self.old self.new into.old into.new result }
    {
        if self.log.begin_call() {
            return Err(self.log.fault());
        }
        let count = copy_up_to(self.most, &self.bytes[self.at..], into);
        self.at += count;
        Ok(count)
    }
}

/// Copies `most` bytes, or as many as there are and have a place, and says how many.
fn copy_up_to(most: usize, from: &[u8], to: &mut [u8]) -> usize
    ensures count { result ≡ min most (min (length from.now) (length to.old)) }
    ensures copied { to.new ≡ take result from.now ++ drop result to.old }
{
    let count = most.min(from.len()).min(to.len());
    to[..count].copy_from_slice(&from[..count]);
    count
}
