//! The indicator board.

ghost use Rattle.std.specs.Prelude.{◌≡◌, ◌-◌, ◌+◌, ◌<◌, ◌≤◌, ℕ, List, [], ◌∷◌, ◌++◌, IfOk, IsTrue, All, length};
ghost use Rattle.std.specs.Prelude.{map, slice_index_or};
ghost use Rattle.line_plan.specs.Sections.{sections_from, sections_of};
ghost use Rattle.line_plan.specs.Ways.{leaves};
ghost use Rattle.line_plan.specs.declared.section.Section.{Section};
ghost use Rattle.line_law.specs.History.{IsLegal};
ghost use Rattle.line_watch.specs.declared.sight.Sight.{Sight};
ghost use Rattle.line_watch.specs.Boards.{blank_round, section_count, section_number};
ghost use Rattle.line_watch.specs.Shown.{IsBoardOf, IsRoundAfter};
ghost use Rattle.line_watch.specs.Watching.{LooksInTurn, RoundsInTurn, Watches};

use crate::numbers::section_number;
use crate::round::Round;
use crate::sight::Sight;
use crate::told::sights_after;
use crate::watcher::Watcher;
use instrument_rule::Line;
use line_law::Journal;
use line_plan::{Plan, Section};
use rail_text::NoMemory;
use std::alloc::Global;
use std::marker::Model;

/// The board on which an observer keeps what he saw of a line, round after round. All its memory is taken when it is
/// made. Contracts see it as a `BoardFields`.
#[derive(Drop)]
pub struct Board {
    boxes: u32,
    rounds: Vec<Round>,
    blank: Vec<Round>,
}

impl Model for Board {
    ghost use Rattle.std.specs.Prelude.{map, vec_capacity, vec_len};
    ghost use Rattle.line_watch.specs.Boards.{BoardFields, IsBoard, RoundFields};

    ghost Value = { BoardFields };

    ghost view = { λ board. record {
      boxes = board.boxes;
      left = vec_len board.blank;
      rounds = map (λ round. round.sights) board.rounds.items;
    } };

    ghost invariant = { λ board. IsBoard board.boxes board.rounds.items board.blank.items
        (vec_capacity board.rounds) };
}

// So many blank rounds.
fn blank_rounds(alloc: Global, boxes: u32, count: u32) -> Result<Vec<Round>, NoMemory>
    requires { 1 ≤ boxes }
    ensures count { IfOk result (λ blank. length blank.items ≡ count) }
    ensures blank { IfOk result (λ blank. All (λ round. round ≡ blank_round boxes) blank.items) }
{
    let mut blank = Vec::new(alloc);
    for _ in 0..count {
        blank.push(Round::blank(alloc, boxes)?)?;
    }
    Ok(blank)
}

// So many rounds, each of these sights.
fn same_rounds(alloc: Global, sights: &[Sight], count: u32) -> Result<Vec<Round>, NoMemory>
    requires { count ≤ 1000 }
    ensures count { IfOk result (λ rounds. length rounds.items ≡ count) }
    ensures same { IfOk result (λ rounds. All (λ round. round.sights ≡ sights.now) rounds.items) }
{
    let mut rounds = Vec::new(alloc);
    for _ in 0..count {
        rounds.push(Round::of_sights(alloc, sights)?)?;
    }
    Ok(rounds)
}

impl Board {
    /// A board for so many rounds of looks at the line of a plan, none of them filled.
    pub fn new(alloc: Global, plan: &Plan, rounds: u32) -> Result<Board, NoMemory>
        requires { (1 ≤ rounds) × (rounds ≤ 1000) }
        ensures { IfOk result (λ board.
            board ≡ record { boxes = length plan.now.boxes; left = rounds; rounds = [] }) }
    {
        plan.meets_conditions();
        let boxes = plan.boxes.len() as u32;
        let blank = blank_rounds(alloc, boxes, rounds)?;
        let rounds = Vec::with_capacity(alloc, rounds as usize)?;
        Ok(Board {
            boxes,
            rounds,
            blank,
        })
    }

    /// A board of so many rounds, each of which shows the instruments as they stand after a whole journal. So it is
    /// where nobody could look at the line while it was worked.
    pub fn of_journal(
        alloc: Global,
        plan: &Plan,
        rounds: u32,
        journal: &Journal,
    ) -> Result<Board, NoMemory>
        requires rounds { (1 ≤ rounds) × (rounds ≤ 1000) }
        requires legal { IsLegal plan.now journal.now.entries }
        ensures boxes { IfOk result (λ board. board.boxes ≡ length plan.now.boxes) }
        ensures filled { IfOk result (λ board. (board.left ≡ 0) × (length board.rounds ≡ rounds)) }
        ensures whole { IfOk result (λ board. All (IsRoundAfter plan.now journal.now.entries) board.rounds) }
        ensures shown { IfOk result (λ board. IsBoardOf plan.now journal.now.entries board.rounds) }
    {
        plan.meets_conditions();
        let boxes = plan.boxes.len() as u32;
        let sights = sights_after(alloc, plan, journal.entries.as_slice())?;
        let rounds = same_rounds(alloc, &sights, rounds)?;
        Ok(Board {
            boxes,
            rounds,
            blank: Vec::new(alloc),
        })
    }

    /// How many rounds are still to be filled.
    pub fn left(&self) -> u32
        ensures { result ≡ self.now.left }
    {
        self.blank.len() as u32
    }

    /// Fills one round: the watcher looks once at each section, in the order in which sections are printed, and his
    /// sights are kept as the next round. It takes no memory and waits for nobody.
    pub fn fill(&mut self, line: &Line, watcher: &mut Watcher)
        requires left { 0 < self.old.left }
        requires plan { self.old.boxes ≡ length line.now.table.shared.key.boxes }
        requires line { Watches line.now.table.shared.table_id line.now.table.shared.key watcher.old }
        ensures line { Watches line.now.table.shared.table_id line.now.table.shared.key watcher.new }
        ensures filled { (round : List Sight)
            × (self.new ≡ record {
              boxes = self.old.boxes;
              left = self.old.left - 1;
              rounds = self.old.rounds ++ round ∷ [];
            })
            × LooksInTurn line.now.table.shared.key (sections_of line.now.table.shared.key) round
            watcher.old.view.seen watcher.new.view.seen }
        ensures counted { watcher.new.view.looks ≡ watcher.old.view.looks + section_count self.old.boxes }
    {
        let mut round = self.blank.pop().unwrap();
        round.fill(self.boxes, line, watcher);
        self.rounds.push_reserved(round);
    }

    /// Fills all rounds but the last, one after another. It takes no memory and waits for nobody.
    pub fn fill_to_last(&mut self, line: &Line, watcher: &mut Watcher)
        requires left { 0 < self.old.left }
        requires plan { self.old.boxes ≡ length line.now.table.shared.key.boxes }
        requires line { Watches line.now.table.shared.table_id line.now.table.shared.key watcher.old }
        ensures line { Watches line.now.table.shared.table_id line.now.table.shared.key watcher.new }
        ensures filled { (rounds : List (List Sight))
            × (self.new ≡ record {
              boxes = self.old.boxes;
              left = 1;
              rounds = self.old.rounds ++ rounds;
            })
            × (length rounds + 1 ≡ self.old.left)
            × RoundsInTurn line.now.table.shared.key rounds watcher.old.view.seen watcher.new.view.seen }
    {
        let but_last = self.left() - 1;
        for _ in 0..but_last {
            self.fill(line, watcher);
        }
    }

    /// The sight of a section in a round that was filled; rounds are numbered from 1.
    pub fn sight(&self, round: u32, section: Section) -> Sight
        requires round { (1 ≤ round) × (round ≤ length self.now.rounds) }
        requires section { IsTrue (leaves self.now.boxes section.rear section.way) }
        ensures sight { (none : List Sight) (nothing : Sight) → result ≡ slice_index_or
            (slice_index_or self.now.rounds (round - 1) none) (section_number section) nothing }
        ensures listed { (d : Section) → slice_index_or (sections_from 0 (self.now.boxes - 1))
            (section_number section) d ≡ section }
    {
        let number = section_number(self.boxes, section);
        self.rounds[round as usize - 1].sights()[number]
    }

    // Its rounds so far.
    pub(crate) fn rounds(&self) -> &[Round]
        ensures rounds { map (λ round. round.sights) result.now ≡ self.now.rounds }
        ensures full { All (λ round. length round.sights ≡ section_count self.now.boxes) result.now }
    {
        &self.rounds
    }
}
