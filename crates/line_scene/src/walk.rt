//! A walk over the places of a box, in the order of travel.

ghost use Rattle.std.specs.Prelude.{◌≡◌, ◌<◌, ◌+◌, ◌^◌, IfOk, false, length};
ghost use Rattle.line_scene.specs.Diagrams.{begins_row, first_start, goes_on, is_drawn, leads_on, place_behind};
ghost use Rattle.line_scene.specs.Diagrams.{place_to, spot_in, walk_begun, walk_on, walk_to, with_place};

use line_plan::{Items, Signal, To};
use rail_text::NoMemory;
use std::alloc::Global;

// How many places stand in a row of a diagram at most.
const ROW: u32 = 5;

/// Where a place stands in the diagram of its box: rows are numbered from the top, columns from the left, from 0.
#[derive(Clone, Copy, Debug, PartialEq, Eq)]
pub struct Spot {
    pub row: u32,
    pub column: u32,
}

/// What is drawn of a box's diagram: where its places stand, which of them are drawn, where the road goes on, how many
/// rows there are, and how many places the last of these has.
#[derive(Debug, Drop)]
pub struct Walk {
    pub spots: Items<Spot>,
    pub drawn: Items<bool>,
    pub next: Option<u32>,
    pub rows: u32,
    pub columns: u32,
}

// Whether a place is drawn; what is no place of the box counts as one that is.
fn is_drawn(drawn: &[bool], place: u32) -> bool
    ensures value { result ≡ is_drawn drawn.now place }
    ensures there { result ≡ false → place < length drawn.now }
{
    match drawn.get(place as usize) {
        Some(drawn) => *drawn,
        None => true,
    }
}

// The place to which a signal leads on, if that isn't drawn yet.
fn leads_on(drawn: &[bool], to: To) -> Option<u32>
    ensures { result ≡ leads_on drawn.now to }
{
    match to {
        To::Place(place) if !is_drawn(drawn, place) => Some(place),
        _ => None,
    }
}

// The same of a signal, if it stands at that place.
fn goes_on(drawn: &[bool], place: u32, signal: &Signal) -> Option<u32>
    ensures { result ≡ goes_on drawn.now place signal.now }
{
    if signal.from == place {
        leads_on(drawn, signal.to)
    } else {
        None
    }
}

// The place behind a place in the order of travel.
fn place_behind(drawn: &[bool], place: u32, signals: &[Signal]) -> Option<u32>
    ensures { result ≡ place_behind drawn.now place signals.now }
{
    for signal in signals {
        if let Some(next) = goes_on(drawn, place, signal) {
            return Some(next);
        }
    }
    None
}

// The first of these places that isn't drawn yet.
fn first_start(drawn: &[bool], starts: &[u32]) -> Option<u32>
    ensures { result ≡ first_start drawn.now starts.now }
{
    for start in starts {
        if !is_drawn(drawn, *start) {
            return Some(*start);
        }
    }
    None
}

impl Walk {
    /// Nothing is drawn of so many places.
    pub fn begin(alloc: Global, places: usize) -> Result<Walk, NoMemory>
        ensures { IfOk result (λ walk. walk ≡ walk_begun places) }
    {
        let corner = Spot { row: 0, column: 0 };
        Ok(Walk {
            spots: Items::from_vec(vec![in alloc; corner; places]?),
            drawn: Items::from_vec(vec![in alloc; false; places]?),
            next: None,
            rows: 0,
            columns: 0,
        })
    }

    // Whether the next place begins a row: where a road begins, or the row is full.
    fn begins_row(&self) -> bool
        ensures { result ≡ begins_row self.now.next self.now.columns }
    {
        self.next.is_none() || self.columns == ROW
    }

    // Draws a place that isn't drawn yet.
    fn draw(&mut self, signals: &[Signal], place: u32, begins: bool)
        requires drawn { place < length self.old.drawn }
        requires spots { place < length self.old.spots }
        requires rows { self.old.rows + 1 < 2 ^ 32 }
        requires columns { self.old.columns + 1 < 2 ^ 32 }
        ensures { self.new ≡ with_place signals.now self.old place begins }
    {
        if begins {
            self.rows += 1;
            self.columns = 0;
        }
        let spot = Spot {
            row: self.rows.saturating_sub(1),
            column: self.columns,
        };
        self.columns += 1;
        self.spots.set(place as usize, spot);
        self.drawn.set(place as usize, true);
        self.next = place_behind(self.drawn.as_slice(), place, signals);
    }

    // Draws a place, if there is one and it isn't drawn yet.
    fn draw_new(&mut self, signals: &[Signal], place: Option<u32>)
        requires same { length self.old.spots ≡ length self.old.drawn }
        requires rows { self.old.rows + 1 < 2 ^ 32 }
        requires columns { self.old.columns + 1 < 2 ^ 32 }
        ensures { self.new ≡ walk_to signals.now self.old place }
    {
        if let Some(place) = place {
            if !is_drawn(self.drawn.as_slice(), place) {
                let begins = self.begins_row();
                self.draw(signals, place, begins);
            }
        }
    }

    // The place that is drawn next: the next of the road, else the first of these starts that isn't drawn yet.
    fn place_to(&self, starts: &[u32]) -> Option<u32>
        ensures { result ≡ place_to starts.now self.now.drawn self.now.next }
    {
        match self.next {
            Some(place) => Some(place),
            None => first_start(self.drawn.as_slice(), starts),
        }
    }

    /// Draws the next place.
    pub fn go_on(&mut self, starts: &[u32], signals: &[Signal])
        requires same { length self.old.spots ≡ length self.old.drawn }
        requires rows { self.old.rows + 1 < 2 ^ 32 }
        requires columns { self.old.columns + 1 < 2 ^ 32 }
        ensures { self.new ≡ walk_on starts.now signals.now self.old }
    {
        let place = self.place_to(starts);
        self.draw_new(signals, place);
    }
}
