//! When a box last rang, turned its commutators and sent trains: what made an entry of a neighbour possible.

ghost use Rattle.std.specs.Prelude.{◌≡◌, IfOk, replicate};
ghost use Rattle.box_marking.specs.Clocks.{cause_from, clock_beside, clocks_at, clocks_set, opening_clocks, sent_at};
ghost use Rattle.box_marking.specs.Clocks.{with_sent};

use crate::doing::Doing;
use block_words::Way;
use line_law::ByWay;
use rail_text::NoMemory;
use reg_audit::BellKind;
use std::alloc::Global;

/// An entry, by its number, with its moment.
#[derive(Clone, Copy, Debug)]
pub struct Timed {
    pub entry: u32,
    pub moment: u32,
}

/// What a box last did on one side.
#[derive(Clone, Copy, Debug)]
pub struct SideClock {
    /// The last code that it rang towards there.
    pub rung: Option<Timed>,
    /// The last turn of the commutator of the line that comes in from there.
    pub turned: Option<Timed>,
    /// The last trains that it sent into the section towards there, the `k`th at the place `k` modulo 4: no more are on
    /// a plain line.
    pub sent: [Option<Timed>; 4],
}

/// Nothing was done.
pub const EMPTY_CLOCK: SideClock = SideClock {
    rung: None,
    turned: None,
    sent: [None, None, None, None],
};

impl SideClock {
    // The train of this number was sent.
    fn send(&mut self, number: u64, now: Timed)
        ensures { self.new ≡ with_sent number now self.old }
    {
        let at = (number % 4) as usize;
        if at < self.sent.len() {
            self.sent[at] = Some(now);
        }
    }

    // When the train of this number was sent.
    fn sent_at(&self, number: u64) -> Option<Timed>
        ensures { result ≡ sent_at number self.now }
    {
        match self.sent.get((number % 4) as usize) {
            Some(sent) => *sent,
            None => None,
        }
    }
}

/// So many boxes that have done nothing.
pub fn empty_clocks(alloc: Global, boxes: usize) -> Result<Vec<ByWay<SideClock>>, NoMemory>
    ensures { IfOk result (λ clocks. clocks.items ≡ replicate boxes opening_clocks) }
{
    let empty = ByWay {
        up: EMPTY_CLOCK,
        down: EMPTY_CLOCK,
    };
    Ok(vec![in alloc; empty; boxes]?)
}

/// Writes down, in place, when something was done at a box.
pub fn set_clocks(now: Timed, doing: &Doing, clocks: &mut ByWay<SideClock>)
    ensures { clocks.new ≡ clocks_set now doing.now clocks.old }
{
    match *doing {
        Doing::Bell { side, bell } if bell.kind == BellKind::Rung => {
            let clock = clocks.get(side);
            let rung = Some(now);
            clocks.set(side, SideClock { rung, ..clock });
        }
        Doing::Turned { way, .. } => {
            let clock = clocks.get(way.opposite());
            let turned = Some(now);
            clocks.set(way.opposite(), SideClock { turned, ..clock });
        }
        Doing::PassedStarter { way, number, .. } | Doing::Overran { way, number } => {
            let mut clock = clocks.get(way);
            clock.send(number, now);
            clocks.set(way, clock);
        }
        _ => {}
    }
}

// The clock of the neighbour on a side, on the side of this box.
fn clock_beside(clocks: &[ByWay<SideClock>], box_no: u32, side: Way) -> SideClock
    ensures { result ≡ clock_beside (clocks_at clocks.now) box_no side }
{
    let here = box_no as usize;
    let neighbour = match side {
        Way::Up => here.saturating_sub(1),
        Way::Down => here + 1,
    };
    match clocks.get(neighbour) {
        Some(clocks) => clocks.get(side.opposite()),
        None => EMPTY_CLOCK,
    }
}

/// The entry of a neighbour that made possible what was done at a box: the code that was heard was rung, the instrument
/// that was seen or met was turned, the train that was found was sent.
pub fn cause_of(clocks: &[ByWay<SideClock>], box_no: u32, doing: &Doing) -> Option<Timed>
    ensures { result ≡ cause_from (clocks_at clocks.now) box_no doing.now }
{
    match *doing {
        Doing::Bell { side, bell } if bell.kind == BellKind::Heard => {
            clock_beside(clocks, box_no, side).rung
        }
        Doing::Saw { way } | Doing::PulledStarter { way } => {
            clock_beside(clocks, box_no, way).turned
        }
        Doing::Found { way, number } | Doing::Berthed { way, number } => {
            clock_beside(clocks, box_no, way.opposite()).sent_at(number)
        }
        _ => None,
    }
}
