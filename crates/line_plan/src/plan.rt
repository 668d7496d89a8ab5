//! A plan.

ghost use Rattle.std.specs.Prelude.{◌≡◌, ◌-◌, ◌<◌, length, IsTrue, option_map, IfSome};
ghost use Rattle.line_plan.specs.Plans.{IsPlan, box_at, box_name, is_train, train_at};

use crate::box_plan::BoxPlan;
use crate::items::Items;
use crate::label::Label;
use bell_codes::{CodeNo, CodeTable};
use rail_text::Names;
use std::marker::Model;

/// A class of trains.
#[derive(Debug, Drop)]
pub struct Class {
    /// Its name, which no other class of the plan has.
    pub name: Label,
    /// The bell code by which a train of the class is offered.
    pub code: CodeNo,
}

/// A train.
#[derive(Debug, Drop)]
pub struct TrainPlan {
    /// Its name, which no other train of the plan has.
    pub name: Label,
    /// Its class, from 0.
    pub class_no: u32,
    /// The box where it is brought, from 0.
    pub box_no: u32,
    /// The place of that box where it then stands, from 0.
    pub place: u32,
}

/// A line of signal boxes, from the up end to the down end.
///
/// Its type keeps every condition of a plan: contracts see its fields as a `PlanFields` that `IsPlan`.
#[derive(Drop)]
pub struct Plan {
    /// The version of the plan's text: 1 or 2.
    pub version: u8,
    /// How long a winding takes: minutes in version 1, seconds in version 2.
    pub delay: u32,
    /// The most looks of an await.
    pub looks: u32,
    /// The bell codes of the line.
    pub codes: CodeTable,
    /// The classes of its trains. The first four are `express`, `ordinary`, `empty` and `light` in every plan.
    pub classes: Items<Class>,
    /// The boxes. Box `b` has the neighbour `b - 1` on its up side and `b + 1` on its down side.
    pub boxes: Items<BoxPlan>,
    /// The trains; the train numbered `t` stands at `t - 1`.
    pub trains: Items<TrainPlan>,
    /// The classes' names in the same order, to find a class by its name.
    pub class_names: Names,
    /// The boxes' names in the same order, to find a box by its name.
    pub box_names: Names,
    /// The trains' names in the same order, to find a train by its name.
    pub train_names: Names,
}

impl Model for Plan {
    ghost use Rattle.std.specs.Prelude.{◌≡◌};
    ghost use Rattle.line_plan.specs.Plans.{PlanFields, IsPlan, names_of, names_of_classes, names_of_trains};

    ghost Value = { PlanFields };

    ghost view = { λ plan. record {
      version = plan.version;
      delay = plan.delay;
      looks = plan.looks;
      codes = plan.codes;
      classes = plan.classes;
      boxes = plan.boxes;
      trains = plan.trains;
    } };

    ghost invariant = { λ plan. IsPlan
        (record {
          version = plan.version;
          delay = plan.delay;
          looks = plan.looks;
          codes = plan.codes;
          classes = plan.classes;
          boxes = plan.boxes;
          trains = plan.trains;
        })
        × (plan.class_names ≡ names_of_classes plan.classes)
        × (plan.box_names ≡ names_of plan.boxes)
        × (plan.train_names ≡ names_of_trains plan.trains) };
}

impl Plan {
    /// Shows a proof the conditions that the type of a plan keeps: every plan meets them.
    pub fn meets_conditions(&self)
        ensures { IsPlan self.now }
    {
        let _ = &self.version;
    }

    /// The name of a box.
    #[tactic(auto, using(crate::proofs::Named::name_at))]
    pub fn box_name(&self, box_no: u32) -> &str
        requires { box_no < length self.now.boxes }
        ensures { result.now ≡ box_name self.now box_no }
    {
        let box_plan = &self.boxes.as_slice()[box_no as usize];
        box_plan.name.as_str()
    }

    /// Whether the plan has a train with this number. Trains are numbered from 1.
    pub fn is_train(&self, train: u32) -> bool
        ensures { result ≡ is_train self.now.trains train }
    {
        0 < train && ((train - 1) as usize) < self.trains.len()
    }

    /// The train with this number. Trains are numbered from 1.
    pub fn train(&self, train: u32) -> &TrainPlan
        requires { IsTrue (is_train self.now.trains train) }
        ensures { result.now ≡ train_at self.now.trains train }
    {
        &self.trains.as_slice()[(train - 1) as usize]
    }
}
