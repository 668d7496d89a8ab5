//! One round of looks.

ghost use Rattle.std.specs.Prelude.{◌≡◌, ◌+◌, ◌-◌, ◌<◌, ◌≤◌, [], ◌∷◌, ◌++◌, IfOk, length};
ghost use Rattle.line_plan.specs.Sections.{sections_of};
ghost use Rattle.line_watch.specs.Boards.{blank_round, section_count};
ghost use Rattle.line_watch.specs.Watching.{LooksInTurn, Watches};

use crate::numbers::{section_count, section_numbered};
use crate::sight::Sight;
use crate::watcher::Watcher;
use instrument_rule::Line;
use rail_text::NoMemory;
use std::alloc::Global;
use std::marker::Model;

/// A sight of each section, in the order in which sections are printed, as far as the round is filled. It has room for
/// so many more, in memory that was taken when it was made.
#[derive(Drop)]
pub struct Round {
    sights: Vec<Sight>,
    spare: usize,
}

impl Model for Round {
    ghost use Rattle.std.specs.Prelude.{◌+◌, ◌≤◌, vec_capacity, vec_len};
    ghost use Rattle.line_watch.specs.Boards.{RoundFields};

    ghost Value = { RoundFields };

    ghost view = { λ round. record { sights = round.sights.items; spare = round.spare } };

    ghost invariant = { λ round. vec_len round.sights + round.spare ≤ vec_capacity round.sights };
}

impl Round {
    /// A round with no sights, and room for one of each section of a line of so many boxes.
    pub fn blank(alloc: Global, boxes: u32) -> Result<Round, NoMemory>
        requires { 1 ≤ boxes }
        ensures { IfOk result (λ round. round ≡ blank_round boxes) }
    {
        let spare = section_count(boxes);
        Ok(Round {
            sights: Vec::with_capacity(alloc, spare)?,
            spare,
        })
    }

    /// A round of these sights, with no room for more.
    pub fn of_sights(alloc: Global, sights: &[Sight]) -> Result<Round, NoMemory>
        ensures { IfOk result (λ round. round.sights ≡ sights.now) }
    {
        Ok(Round {
            sights: Vec::from_slice(alloc, sights)?,
            spare: 0,
        })
    }

    /// Its sights so far.
    pub fn sights(&self) -> &[Sight]
        ensures { result.now ≡ self.now.sights }
    {
        &self.sights
    }

    // Adds a sight behind the others, where it has room, and takes no memory.
    fn push(&mut self, sight: Sight)
        requires { 0 < self.old.spare }
        ensures { self.new ≡ record { sights = self.old.sights ++ sight ∷ []; spare = self.old.spare - 1 } }
    {
        self.sights.push_reserved(sight);
        self.spare -= 1;
    }

    /// Fills a blank round: a look at each section, in the order in which sections are printed.
    pub fn fill(&mut self, boxes: u32, line: &Line, watcher: &mut Watcher)
        requires blank { self.old ≡ blank_round boxes }
        requires boxes { boxes ≡ length line.now.table.shared.key.boxes }
        requires line { Watches line.now.table.shared.table_id line.now.table.shared.key watcher.old }
        ensures line { Watches line.now.table.shared.table_id line.now.table.shared.key watcher.new }
        ensures looked { LooksInTurn line.now.table.shared.key (sections_of line.now.table.shared.key)
            self.new.sights watcher.old.view.seen watcher.new.view.seen }
        ensures counted { watcher.new.view.looks ≡ watcher.old.view.looks + section_count boxes }
        ensures full { length self.new.sights ≡ section_count boxes }
    {
        for number in 0..section_count(boxes) {
            let section = section_numbered(boxes, number);
            let sight = watcher.look(line, section);
            self.push(sight);
        }
    }
}
