//! What is said of levers.

ghost use Rattle.std.specs.Prelude.{◌<◌, IsTrue, OnOk, length};
ghost use Rattle.script_text.specs.Replies.{is_row, is_stand};

use crate::sentence::Sentence;
use line_plan::Plan;
use locking_table::{Row, RowKind};
use std::alloc::{AllocError, Global};

// Where the lever stands that a row names as holding another: its object where the other is its subject, else its
// subject.
fn holding_place(row: &Row, held: u32) -> &'static str {
    if row.subject == held && row.kind == RowKind::ReleasedBy {
        "normal"
    } else {
        "reversed"
    }
}

impl Sentence {
    /// A row of the locking table holds the lever: `held_by_lever`.
    pub fn say_held_by_lever(
        &mut self,
        alloc: Global,
        plan: &Plan,
        box_no: u32,
        held: u32,
        lever: u32,
        row_no: u32,
    ) -> Result<(), AllocError>
        requires at { box_no < length plan.now.boxes }
        requires row { IsTrue (is_row plan.now box_no row_no) }
        ensures { OnOk result (length self.old < length self.new) }
    {
        let here = &plan.boxes.as_slice()[box_no as usize];
        let row = &here.table.rows()[(row_no - 1) as usize];
        self.say_lever("lever ", held)?;
        self.say_lever(" is held by lever ", lever)?;
        self.say(", which is ")?;
        self.say(holding_place(row, held))?;
        self.say_lever(": row ", row_no)?;
        self.say_row(alloc, ", `", row)?;
        self.say("`")
    }

    /// A train on a track circuit holds the lever: `held_by_track`.
    pub fn say_held_by_track(
        &mut self,
        plan: &Plan,
        box_no: u32,
        held: u32,
        place: u32,
        train: u32,
    ) -> Result<(), AllocError>
        requires at { box_no < length plan.now.boxes }
        requires stand { IsTrue (is_stand plan.now box_no place train) }
        ensures { OnOk result (length self.old < length self.new) }
    {
        self.say_lever("lever ", held)?;
        self.say(" is held by a track circuit: ")?;
        self.say_standing(plan, box_no, place, train)
    }
}
