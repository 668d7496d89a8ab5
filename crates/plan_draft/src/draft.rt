//! The plan as far as its text is read.

use crate::names::{add_label, add_name, label_of};
use bell_codes::{Code, CodeNo, CodeTable, EMPTY, EXPRESS, LIGHT, ORDINARY};
use line_plan::{BoxPlan, Class, Items, Label, MOST_PLAN_TRAINS, Plan, TrainPlan};
use rail_text::{Cause, LineFault, Names, NoMemory};
use std::alloc::Global;
use std::marker::Model;
use std::mem;

/// The kind of the last line.
#[derive(Clone, Copy)]
pub enum Stage {
    Start,
    Plan,
    Boxes,
    Delay,
    Looks,
    Class,
    Box,
    Place,
    Lever,
    Signal,
    Starter,
    Berth,
    Clear,
    Permissive,
    Track,
    Row,
    Train,
    Ended,
}

impl Stage {
    ghost use Rattle.plan_draft.specs.Drafts.{in_box, rank};
    ghost use Rattle.plan_draft.specs.Reading.{has_ended};

    /// The kinds of lines in the order in which they stand.
    pub fn rank(self) -> u8
        ensures { result ≡ rank self }
    {
        match self {
            Stage::Start => 0,
            Stage::Plan => 1,
            Stage::Boxes => 2,
            Stage::Delay => 3,
            Stage::Looks => 4,
            Stage::Class => 5,
            Stage::Box => 6,
            Stage::Place => 7,
            Stage::Lever => 8,
            Stage::Signal => 9,
            Stage::Starter => 10,
            Stage::Berth => 11,
            Stage::Clear => 12,
            Stage::Permissive => 13,
            Stage::Track => 14,
            Stage::Row => 15,
            Stage::Train => 16,
            Stage::Ended => 17,
        }
    }

    /// Whether the last line was one of a box.
    pub fn in_box(self) -> bool
        ensures { result ≡ in_box self }
    {
        let rank = self.rank();
        6 <= rank && rank <= 15
    }

    /// Whether the last line was `end`.
    pub fn is_ended(self) -> bool
        ensures { result ≡ has_ended self }
    {
        self.rank() == 17
    }
}

/// What is read so far: the kind of the last line, the number of boxes that is announced, the fields of the plan with
/// the boxes that are complete, and the box whose lines are being read.
#[derive(Drop)]
pub struct PlanDraft {
    pub stage: Stage,
    pub count: u32,
    pub version: u8,
    pub delay: u32,
    pub looks: u32,
    pub codes: CodeTable,
    pub classes: Vec<Class>,
    pub boxes: Vec<BoxPlan>,
    pub trains: Vec<TrainPlan>,
    pub here: BoxPlan,
    pub class_names: Names,
    pub box_names: Names,
    pub train_names: Names,
    pub alloc: Global,
}

impl Model for PlanDraft {
    ghost use Rattle.std.specs.Prelude.{◌≡◌, ◌+◌, ◌<◌, ◌≤◌, length, true, vec_len, vec_capacity};
    ghost use Rattle.line_plan.specs.Plans.{names_of, names_of_classes, names_of_trains};
    ghost use Rattle.plan_draft.specs.Drafts.{DraftFields, boxes_with, in_box};

    ghost Value = { DraftFields };

    ghost view = { λ d. record {
      stage = d.stage;
      count = d.count;
      plan = record {
        version = d.version;
        delay = d.delay;
        looks = d.looks;
        codes = d.codes;
        classes = d.classes.items;
        boxes = d.boxes.items;
        trains = d.trains.items;
      };
      here = d.here;
    } };

    ghost invariant = { λ d. (d.class_names ≡ names_of_classes d.classes.items)
        × (d.box_names ≡ names_of (boxes_with d.stage d.boxes.items d.here))
        × (d.train_names ≡ names_of_trains d.trains.items)
        × (length d.class_names + 6 ≤ length d.codes)
        × (in_box d.stage ≡ true → vec_len d.boxes < vec_capacity d.boxes) };
}

ghost use Rattle.std.specs.Prelude.{◌≡◌, ◌<◌, ◌≤◌, ◌+◌, ◌^◌, ◌++◌, [], ◌∷◌, length, true, false, bytes_eq, IfOk, OnErr};
ghost use Rattle.std.specs.Prelude.{OnOk, None, vec_len, vec_capacity};
ghost use Rattle.std.specs.List.{list_any};
ghost use Rattle.bell_codes.specs.Table.{code_number, opening_codes};
ghost use Rattle.plan_draft.specs.Drafts.{boxes_with, in_box, opening_classes};
ghost use Rattle.line_plan.specs.Plans.{opening_names};

// A code more, which is new, and its number.
fn add_code(codes: &mut CodeTable, code: Code) -> Result<CodeNo, NoMemory>
    requires new { code_number codes.old code ≡ None }
    requires room { length codes.old < 200 }
    ensures added { IfOk result (λ number. (number ≡ length codes.old + 1) × (codes.new ≡ codes.old ++ code ∷ [])) }
    ensures same { OnErr result (codes.new ≡ codes.old) }
{
    match codes.add(code) {
        Ok(number) => Ok(number),
        Err(_) => Err(NoMemory),
    }
}

// The code table with which every plan begins.
fn opening_table(alloc: Global) -> Result<CodeTable, NoMemory>
    ensures { IfOk result (λ table. table ≡ opening_codes) }
{
    match CodeTable::opening(alloc) {
        Ok(table) => Ok(table),
        Err(_) => Err(NoMemory),
    }
}

// One of the first four classes of every plan, behind those in front of it.
fn push_opening(
    alloc: Global,
    classes: &mut Vec<Class>,
    name: &str,
    code: CodeNo,
) -> Result<(), NoMemory>
    ensures { OnOk result (classes.new.items ≡ classes.old.items ++ record { name = name.now; code = code } ∷ []) }
{
    let name = label_of(alloc, name)?;
    classes.push(Class { name, code })?;
    Ok(())
}

fn push_opening_classes(alloc: Global, classes: &mut Vec<Class>) -> Result<(), NoMemory>
    requires { classes.old.items ≡ [] }
    ensures { OnOk result (classes.new.items ≡ opening_classes) }
{
    push_opening(alloc, classes, "express", EXPRESS)?;
    push_opening(alloc, classes, "ordinary", ORDINARY)?;
    push_opening(alloc, classes, "empty", EMPTY)?;
    push_opening(alloc, classes, "light", LIGHT)
}

fn opening_classes(alloc: Global) -> Result<Vec<Class>, NoMemory>
    ensures { IfOk result (λ classes. classes.items ≡ opening_classes) }
{
    let mut classes = Vec::new(alloc);
    match push_opening_classes(alloc, &mut classes) {
        Ok(()) => Ok(classes),
        Err(fault) => {
            drop(classes);
            Err(fault)
        }
    }
}

fn add_opening_names(names: &mut Names) -> Result<(), NoMemory>
    requires { names.old ≡ [] }
    ensures { OnOk result (names.new ≡ opening_names) }
{
    add_name(names, "express")?;
    add_name(names, "ordinary")?;
    add_name(names, "empty")?;
    add_name(names, "light")
}

fn opening_names(alloc: Global) -> Result<Names, NoMemory>
    ensures { IfOk result (λ names. names ≡ opening_names) }
{
    let mut names = Names::new(alloc);
    match add_opening_names(&mut names) {
        Ok(()) => Ok(names),
        Err(fault) => {
            drop(names);
            Err(fault)
        }
    }
}

fn no_label(alloc: Global) -> Label
    ensures { result ≡ [] }
{
    Label::from_string(String::new(alloc))
}

// A class more under the next code number, with its code and its name, which are new. Where memory runs out, only the
// code may stand.
fn push_class(
    alloc: Global,
    codes: &mut CodeTable,
    names: &mut Names,
    classes: &mut Vec<Class>,
    name: &str,
    code: Code,
) -> Result<(), NoMemory>
    requires new { code_number codes.old code ≡ None }
    requires room { length codes.old < 200 }
    requires few { length names.old < 2 ^ 32 }
    requires name { list_any (bytes_eq name.now) names.old ≡ false }
    ensures codes { OnOk result (codes.new ≡ codes.old ++ code ∷ []) }
    ensures names { OnOk result (names.new ≡ names.old ++ name.now ∷ []) }
    ensures classes { OnOk result (classes.new.items
        ≡ classes.old.items ++ record { name = name.now; code = length codes.old + 1 } ∷ []) }
    ensures grown { length codes.old ≤ length codes.new }
    ensures same_names { OnErr result (names.new ≡ names.old) }
    ensures same_classes { OnErr result (classes.new.items ≡ classes.old.items) }
{
    classes.reserve(1)?;
    let number = add_code(codes, code)?;
    let name = add_label(alloc, names, name)?;
    classes.push_reserved(Class { name, code: number });
    Ok(())
}

// A train more, with its name, which is new.
fn push_train(
    alloc: Global,
    names: &mut Names,
    trains: &mut Vec<TrainPlan>,
    name: &str,
    class_no: u32,
    box_no: u32,
    place: u32,
) -> Result<(), NoMemory>
    requires few { length names.old < 2 ^ 32 }
    requires name { list_any (bytes_eq name.now) names.old ≡ false }
    ensures names { OnOk result (names.new ≡ names.old ++ name.now ∷ []) }
    ensures trains { OnOk result (trains.new.items
        ≡ trains.old.items ++ record { name = name.now; class_no = class_no; box_no = box_no; place = place } ∷ []) }
    ensures same_names { OnErr result (names.new ≡ names.old) }
    ensures same_trains { OnErr result (trains.new.items ≡ trains.old.items) }
{
    trains.reserve(1)?;
    let name = add_label(alloc, names, name)?;
    trains.push_reserved(TrainPlan {
        name,
        class_no,
        box_no,
        place,
    });
    Ok(())
}

// A box whose lines were being read is complete. There is room for it.
fn put_away(stage: Stage, boxes: &mut Vec<BoxPlan>, here: BoxPlan)
    requires { in_box stage ≡ true → vec_len boxes.old < vec_capacity boxes.old }
    ensures put { boxes.new.items ≡ boxes_with stage boxes.old.items here }
    ensures one { vec_len boxes.new ≤ vec_len boxes.old + 1 }
    ensures room { vec_capacity boxes.new ≡ vec_capacity boxes.old }
{
    if stage.in_box() {
        boxes.push_reserved(here);
    } else {
        drop(here);
    }
}

impl PlanDraft {
    ghost use Rattle.std.specs.Prelude.{◌≡◌, ◌<◌, nat_le, length, true, false, bytes_eq, OnErr, OnOk, IfOk, IsTrue};
    ghost use Rattle.std.specs.List.{list_any};
    ghost use Rattle.rail_text.specs.Gives.{FaultsFirst, GivesLine};
    ghost use Rattle.line_plan.specs.Plans.{IsPlan, names_of, names_of_classes, names_of_trains, no_box};
    ghost use Rattle.plan_draft.specs.Drafts.{all_boxes, in_box, start};
    ghost use Rattle.plan_draft.specs.Reading.{closed, has_ended, is_full, with_class, with_train};

    /// Nothing is read.
    pub fn new(alloc: Global) -> Result<PlanDraft, NoMemory>
        ensures { IfOk result (λ draft. draft ≡ start) }
    {
        let codes = opening_table(alloc)?;
        let classes = opening_classes(alloc)?;
        let class_names = opening_names(alloc)?;
        Ok(PlanDraft::opening(alloc, codes, classes, class_names))
    }

    // Nothing is read; the codes and the classes of every plan stand.
    fn opening(
        alloc: Global,
        codes: CodeTable,
        classes: Vec<Class>,
        class_names: Names,
    ) -> PlanDraft
        requires codes { codes ≡ opening_codes }
        requires classes { classes.items ≡ opening_classes }
        requires names { class_names ≡ opening_names }
        ensures { result ≡ start }
    {
        PlanDraft {
            stage: Stage::Start,
            count: 2,
            version: 1,
            delay: 0,
            looks: 1,
            codes,
            classes,
            boxes: Vec::new(alloc),
            trains: Vec::new(alloc),
            here: BoxPlan::new(alloc, no_label(alloc)),
            class_names,
            box_names: Names::new(alloc),
            train_names: Names::new(alloc),
            alloc,
        }
    }

    /// Whether all announced boxes stand.
    pub fn is_full(&self) -> bool
        ensures { result ≡ is_full self.now }
    {
        let standing = self.boxes.len() + usize::from(self.stage.in_box());
        standing >= self.count as usize
    }

    /// A class more, under the next code number.
    #[tactic(auto, using(crate::proofs::Longer::growing_rules), unfolding(crate::specs::Reading::with_class))]
    pub fn add_class(&mut self, name: &str, code: Code) -> Result<(), LineFault>
        requires stage { in_box self.old.stage ≡ false }
        requires name { list_any (bytes_eq name.now) (names_of_classes self.old.plan.classes) ≡ false }
        ensures gives { GivesLine (λ _. self.new) result (with_class self.old name.now code) }
        ensures memory { FaultsFirst result (with_class self.old name.now code) }
    {
        if self.codes.number_of(code).is_some() {
            return Err(LineFault::Cause(Cause::CodeTwice));
        }
        if self.codes.len() >= CodeTable::MOST {
            return Err(LineFault::Cause(Cause::TooMany));
        }
        push_class(
            self.alloc,
            &mut self.codes,
            &mut self.class_names,
            &mut self.classes,
            name,
            code,
        )?;
        self.stage = Stage::Class;
        Ok(())
    }

    /// A box more, whose lines are to be read. The box before it is complete. There is room for both.
    #[tactic(auto, using(crate::proofs::Longer::growing_rules))]
    pub fn open_box(&mut self, name: &str) -> Result<(), NoMemory>
        requires few { length (all_boxes self.old) < self.old.count }
        requires new { list_any (bytes_eq name.now) (names_of (all_boxes self.old)) ≡ false }
        ensures opened { OnOk result (self.new ≡ record self.old {
          stage = Stage.Box;
          plan = record self.old.plan { boxes = all_boxes self.old };
          here = record no_box { name = name.now };
        }) }
        ensures same { OnErr result (self.new ≡ self.old) }
    {
        self.boxes.reserve(2)?;
        let label = add_label(self.alloc, &mut self.box_names, name)?;
        let here = mem::replace(&mut self.here, BoxPlan::new(self.alloc, label));
        put_away(self.stage, &mut self.boxes, here);
        self.stage = Stage::Box;
        Ok(())
    }

    /// All boxes are complete.
    #[tactic(auto, using(crate::proofs::Longer::growing_rules))]
    pub fn close(&mut self, stage: Stage)
        requires { in_box stage ≡ false }
        ensures { self.new ≡ closed stage self.old }
    {
        let none = BoxPlan::new(self.alloc, no_label(self.alloc));
        let here = mem::replace(&mut self.here, none);
        put_away(self.stage, &mut self.boxes, here);
        self.stage = stage;
    }

    /// A train more, whose name is new.
    #[tactic(auto, unfolding(crate::specs::Reading::with_train))]
    pub fn add_train(
        &mut self,
        name: &str,
        class_no: u32,
        box_no: u32,
        place: u32,
    ) -> Result<(), LineFault>
        requires { list_any (bytes_eq name.now) (names_of_trains self.old.plan.trains) ≡ false }
        ensures gives { GivesLine (λ _. self.new) result (with_train self.old name.now class_no box_no place) }
        ensures memory { FaultsFirst result (with_train self.old name.now class_no box_no place) }
        ensures same { OnErr result (self.new ≡ self.old) }
    {
        if self.trains.len() >= MOST_PLAN_TRAINS {
            return Err(LineFault::Cause(Cause::TooMany));
        }
        push_train(
            self.alloc,
            &mut self.train_names,
            &mut self.trains,
            name,
            class_no,
            box_no,
            place,
        )?;
        Ok(())
    }

    /// The plan, where its text has ended.
    pub fn into_plan(self) -> Plan
        requires ended { has_ended self.stage ≡ true }
        requires plan { IsPlan self.plan }
        ensures { result ≡ self.plan }
    {
        drop(self.here);
        Plan {
            version: self.version,
            delay: self.delay,
            looks: self.looks,
            codes: self.codes,
            classes: Items::from_vec(self.classes),
            boxes: Items::from_vec(self.boxes),
            trains: Items::from_vec(self.trains),
            class_names: self.class_names,
            box_names: self.box_names,
            train_names: self.train_names,
        }
    }
}
