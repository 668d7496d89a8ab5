//! The positions of the instruments.

ghost use Rattle.std.specs.Prelude.{◌≡◌, ◌<◌, IfOk, length, replicate};
ghost use Rattle.line_races.specs.Scans.{IsTurnedTo, both_normal, shown_at};

use block_words::{Position, Way};
use line_law::ByWay;
use rail_text::NoMemory;
use std::alloc::Global;

/// The positions of the instruments of each pair.
#[derive(Drop)]
pub struct Shown {
    pub instruments: Vec<ByWay<Position>>,
}

impl Shown {
    /// All at Normal.
    pub fn new(alloc: Global, pairs: usize) -> Result<Shown, NoMemory>
        ensures { IfOk result (λ shown. shown.instruments.items ≡ replicate pairs both_normal) }
    {
        let mut instruments = Vec::with_capacity(alloc, pairs)?;
        for _ in 0..pairs {
            instruments.push(ByWay {
                up: Position::Normal,
                down: Position::Normal,
            })?;
        }
        Ok(Shown { instruments })
    }

    /// The position of the instrument of this pair and way.
    pub fn get(&self, pair: usize, way: Way) -> Position
        requires { pair < length self.now.instruments.items }
        ensures { result ≡ shown_at self.now.instruments.items pair way }
    {
        self.instruments[pair].get(way)
    }

    /// Turns the instrument of this pair and way to a position.
    pub fn turn(&mut self, pair: usize, way: Way, position: Position)
        requires { pair < length self.old.instruments.items }
        ensures length { length self.new.instruments.items ≡ length self.old.instruments.items }
        ensures turned { IsTurnedTo pair way position self.old.instruments.items self.new.instruments.items }
    {
        self.instruments[pair].set(way, position);
    }
}
