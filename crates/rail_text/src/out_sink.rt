//! A writer, as standard output, as a sink. What it took is not told: that the bytes reach the
//! terminal is trusted.

ghost use Rattle.std.specs.Prelude.{◌≡◌, ◌<◌, ◌≤◌, length, IfOk, OnErr, Ok, None};
ghost use Rattle.rail_text.specs.Causes.{Rose};
ghost use Rattle.rail_text.specs.Adapters.{after_put};

use crate::{Sink, SinkFault};
use std::io::Write;
use std::marker::Model;

/// A writer. A refused write is a fault, and so is one that takes nothing of a piece that isn't
/// empty. Contracts see it as its count of faults.
#[derive(Drop)]
pub struct OutSink<W> {
    writer: W,
    faults: u64,
}

impl<W> Model for OutSink<W> {
    ghost use Rattle.std.specs.Prelude.{ℕ};

    ghost Value = { ℕ };

    ghost view = { λ s. s.faults };
}

impl<W: Write> OutSink<W> {
    /// The sink, with no fault so far.
    pub fn new(writer: W) -> OutSink<W>
        ensures { result ≡ 0 }
    {
        OutSink { writer, faults: 0 }
    }
}

impl<W: Write> Sink for OutSink<W> {
    ghost taken = { λ s. None };

    ghost faults = { λ s. s };

    fn put(&mut self, piece: &[u8]) -> Result<usize, SinkFault>
        ensures nothing { length piece.now ≡ 0 → result ≡ Ok 0 }
        ensures counted { self.new ≡ after_put result self.old }

        // What every sink says, but for what it took.
        ensures bound { IfOk result (λ n. n ≤ length piece.now) }
        ensures some { IfOk result (λ n. 0 < length piece.now → 0 < n) }
        ensures later { self.old ≤ self.new }
        ensures cause { OnErr result (Rose self.old self.new) }
    {
        if piece.is_empty() {
            return Ok(0);
        }
        match self.writer.write(piece) {
            Ok(n) if n > 0 => Ok(n),
            _ => {
                self.faults = self.faults.saturating_add(1);
                Err(SinkFault::Failed)
            }
        }
    }
}
