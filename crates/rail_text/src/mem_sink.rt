//! A sink in memory, whose calls fail where its maker says so.

ghost use Rattle.std.specs.Prelude.{◌≡◌, ◌<◌, ◌≤◌, [], ◌++◌, take, length, Some, None, IfOk, OnErr, MatchResult};
ghost use Rattle.rail_text.specs.Causes.{Rose};
ghost use Rattle.rail_text.specs.MemSink.{taken_next, sink_after};

use crate::{NoMemory, Sink, SinkFault};
use std::alloc::Global;
use std::marker::Model;

/// Takes at most `cap` bytes in a put, and `room` in all. Its calls are counted from 1, and those
/// that `fails` lists fail. A put of a byte with no room left is a fault too.
#[derive(Drop)]
pub struct MemSink {
    taken: Vec<u8>,
    room: usize,
    cap: usize,
    fails: Vec<u64>,
    calls: u64,
    faults: u64,
}

impl Model for MemSink {
    ghost use Rattle.std.specs.Prelude.{◌≤◌, vec_len, vec_capacity};
    ghost use Rattle.rail_text.specs.MemSink.{SinkState};
    ghost use Rattle.rail_text.specs.MemSinkFields.{IsMemSink};

    ghost Value = { SinkState };

    ghost view = { λ s. record {
      taken = s.taken.items;
      room = s.room;
      cap = s.cap;
      fails = s.fails.items;
      calls = s.calls;
      faults = s.faults;
    } };

    ghost invariant = { λ s. IsMemSink s.cap s.room (vec_len s.taken) (vec_capacity s.taken) };
}

impl MemSink {
    /// A sink that has taken nothing, before any call. Its memory is taken here, for all of `room`.
    pub fn new(alloc: Global, room: usize, cap: usize, fails: Vec<u64>) -> Result<MemSink, NoMemory>
        requires { 1 ≤ cap }
        ensures { IfOk result (λ s. s ≡ record {
          taken = [];
          room = room;
          cap = cap;
          fails = fails.items;
          calls = 0;
          faults = 0;
        }) }
    {
        Ok(MemSink {
            taken: Vec::with_capacity(alloc, room)?,
            room,
            cap,
            fails,
            calls: 0,
            faults: 0,
        })
    }

    /// All bytes taken so far.
    pub fn taken(&self) -> &[u8]
        ensures bytes { result.now ≡ self.now.taken }
        ensures within { length result.now ≤ self.now.room }
    {
        &self.taken
    }
}

impl Sink for MemSink {
    ghost taken = { λ s. Some s.taken };

    ghost faults = { λ s. s.faults };

    fn put(&mut self, piece: &[u8]) -> Result<usize, SinkFault>
        // What this call answers, and the sink after it, exactly.
        ensures answer { MatchResult result
            (λ n. taken_next self.old piece.now ≡ Some n)
            (λ _. taken_next self.old piece.now ≡ None) }
        ensures after { self.new ≡ sink_after self.old piece.now }

        // What every sink says.
        ensures bound { IfOk result (λ n. n ≤ length piece.now) }
        ensures some { IfOk result (λ n. 0 < length piece.now → 0 < n) }
        ensures took { IfOk result (λ n. self.new.taken ≡ self.old.taken ++ take n piece.now) }
        ensures took_none { OnErr result (self.new.taken ≡ self.old.taken) }
        ensures later { self.old.faults ≤ self.new.faults }
        ensures cause { OnErr result (Rose self.old.faults self.new.faults) }
    {
        self.calls = self.calls.saturating_add(1);
        if self.fails.contains(&self.calls) {
            self.faults = self.faults.saturating_add(1);
            return Err(SinkFault::Failed);
        }
        if piece.is_empty() {
            return Ok(0);
        }
        let left = self.room - self.taken.len();
        if left == 0 {
            self.faults = self.faults.saturating_add(1);
            return Err(SinkFault::Failed);
        }
        let n = piece.len().min(self.cap).min(left);
        self.taken.extend_from_slice(&piece[..n]).unwrap();
        Ok(n)
    }
}
