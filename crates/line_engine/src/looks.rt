//! What stands at the boxes of an engine's line.

use crate::engine::Engine;
use look_records::{BoxThing, things_at};
use rail_text::NoMemory;
use std::alloc::Global;

impl Engine {
    ghost use Rattle.std.specs.Prelude.{◌≡◌, ◌<◌, IfErr, IfOk, length, position, bytes_eq};
    ghost use Rattle.line_plan.specs.Plans.{names_of};
    ghost use Rattle.look_records.specs.Things.{things_at};
    ghost use Rattle.line_service.specs.Services.{line_of};

    /// What stands at a box: its levers and its places in the order of the plan, then what comes in on the down line,
    /// and on the up line.
    pub fn things_at(&self, alloc: Global, box_no: u32) -> Result<Vec<BoxThing>, NoMemory>
        requires { box_no < length self.now.service.plan.boxes }
        ensures { IfOk result
            (λ things. things.items ≡ things_at self.now.service.plan (line_of self.now.service) box_no) }
    {
        things_at(alloc, self.plan(), self.service.line(), box_no)
    }

    /// The number of the box of that name, from 0, where the line has one.
    pub fn box_named(&self, name: &[u8]) -> Option<u32>
        ensures { result ≡ position (bytes_eq name.now) (names_of self.now.service.plan.boxes) }
    {
        self.plan().box_names.number_of_word(name)
    }
}
