//! What a signalman works with beside his post.

ghost use Rattle.std.specs.Prelude.{◌<◌, IfOk, length};
ghost use Rattle.signalman_seats.specs.Men.{AreFittings};

use crate::notes::PlanNotes;
use box_desk::Desk;
use line_plan::Plan;
use rail_text::NoMemory;
use std::alloc::Global;
use train_register::Register;

/// The desk of a box, its register with its room, and what is noted of the line's plan.
#[derive(Drop)]
pub struct Fittings {
    pub desk: Desk,
    pub register: Register,
    pub notes: PlanNotes,
}

impl Fittings {
    /// Those of a box as its line opens, with room for so many entries.
    pub fn open(alloc: Global, plan: &Plan, box_no: u32, room: usize) -> Result<Fittings, NoMemory>
        requires known { box_no < length plan.now.boxes }
        ensures { IfOk result (λ fittings. AreFittings plan.now box_no room fittings.desk fittings.register
            fittings.notes) }
    {
        let notes = PlanNotes::of_plan(alloc, plan, box_no)?;
        let register = Register::new(alloc, box_no, room)?;
        let desk = Desk::open(alloc, plan, box_no)?;
        Ok(Fittings {
            desk,
            register,
            notes,
        })
    }
}
