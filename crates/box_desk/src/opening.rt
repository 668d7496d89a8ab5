//! A box as the line opens.

ghost use Rattle.std.specs.Prelude.{◌≡◌, ◌<◌, ◌^◌, IfOk, length, map};
ghost use Rattle.line_law.specs.Sound.{IsSound};
ghost use Rattle.line_law.specs.States.{opening_box};
ghost use Rattle.box_desk.specs.Boxes.{IsFitted, here_of};
ghost use Rattle.box_desk.specs.Desks.{HasMost};

use crate::equipment::Equipment;
use crate::incoming::IncomingLine;
use lever_frame::LeverFrame;
use line_law::ByWay;
use line_plan::{BoxPlan, Plan};
use rail_text::NoMemory;
use std::alloc::Global;
use track_circuits::Tracks;
use train_moves::Trains;

impl Equipment {
    /// The equipment of box `box_no` as the line opens, by the plan of the box.
    pub(crate) fn open(
        alloc: Global,
        plan: &Plan,
        box_no: u32,
        box_plan: &BoxPlan,
    ) -> Result<Equipment, NoMemory>
        requires box_no { box_no < length plan.now.boxes }
        requires few { length box_plan.now.places < 2 ^ 32 }
        requires sound { IsSound box_plan.now }
        requires most { HasMost box_plan.now }
        ensures here { IfOk result (λ box. here_of box ≡ opening_box (length plan.now.trains) box_plan.now) }
        ensures fitted { IfOk result (λ box. IsFitted box_plan.now box) }
    {
        let frame = LeverFrame::new(alloc, box_plan)?;
        let tracks = Tracks::new(alloc, box_plan.places.len() as u32)?;
        let trains = Trains::new(alloc, plan, box_no)?;
        Ok(Equipment {
            frame,
            tracks,
            trains,
            lines: ByWay {
                up: IncomingLine::open(box_plan.berth_up.as_ref()),
                down: IncomingLine::open(box_plan.berth_down.as_ref()),
            },
            rung: ByWay { up: 0, down: 0 },
            sent: ByWay { up: 0, down: 0 },
            moment: 0,
        })
    }
}

/// The place of each train of a plan, that of train 1 first.
pub(crate) fn places_of_trains(alloc: Global, plan: &Plan) -> Result<Vec<u32>, NoMemory>
    ensures { IfOk result (λ places. places.items ≡ map (λ train. train.place) plan.now.trains) }
{
    let mut places = Vec::new(alloc);
    for train in plan.trains.as_slice() {
        places.push(train.place)?;
    }
    Ok(places)
}
