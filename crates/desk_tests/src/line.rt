//! A line of desks, worked on words that are plain numbers beside a line in one hand.

ghost use Rattle.std.specs.Prelude.{◌≡◌, ◌<◌, ◌+◌, ◌-◌, ◌*◌, ◌^◌, [], IfOk, length, replicate};
ghost use Rattle.desk_tests.specs.Workings.{AreDesksAfter, IsWorked};
ghost use Rattle.line_law.specs.Law.{MayCall};

use crate::desk_line::DeskLine;
use crate::work::{Worked, work};
use box_desk::Desk;
use line_law::{Call, Entry, Plain, Reply};
use line_plan::Plan;
use rail_text::NoMemory;
use std::alloc::{AllocError, Global};

// So many words of 0.
fn zeros(alloc: Global, count: usize) -> Result<Vec<u64>, AllocError>
    ensures { IfOk result (λ v. v.items ≡ replicate count 0) }
{
    let mut words = Vec::new(alloc);
    for _ in 0..count {
        words.push(0)?;
    }
    Ok(words)
}

// Puts the desks of all boxes, as the line opens, into a list that is empty.
fn push_desks(desks: &mut Vec<Desk>, alloc: Global, plan: &Plan, boxes: u32) -> Result<(), NoMemory>
    requires none { desks.old.items ≡ [] }
    requires boxes { boxes ≡ length plan.now.boxes }
    ensures { IfOk result (λ done. AreDesksAfter plan.now [] boxes desks.new.items) }
{
    plan.meets_conditions();
    for box_no in 0..boxes {
        let desk = Desk::open(alloc, plan, box_no)?;
        desks.push(desk)?;
    }
    Ok(())
}

// The desks of all boxes, as the line opens.
fn open_desks(alloc: Global, plan: &Plan, boxes: u32) -> Result<Vec<Desk>, NoMemory>
    requires { boxes ≡ length plan.now.boxes }
    ensures { IfOk result (λ desks. AreDesksAfter plan.now [] boxes desks.items) }
{
    let mut desks = Vec::new(alloc);
    match push_desks(&mut desks, alloc, plan, boxes) {
        Ok(()) => Ok(desks),
        Err(error) => {
            drop(desks);
            Err(error)
        }
    }
}

// The line of these desks and words, beside one in one hand.
fn beside(
    alloc: Global,
    plan: &Plan,
    desks: Vec<Desk>,
    words: Vec<u64>,
    boxes: u32,
) -> Result<DeskLine, NoMemory>
    requires boxes { boxes ≡ length plan.now.boxes }
    requires desks { AreDesksAfter plan.now [] boxes desks.items }
    requires words { words.items ≡ replicate (1 + boxes + 6 * (boxes - 1)) 0 }
    ensures { IfOk result (λ line. IsWorked plan.now line) }
{
    match Plain::open(alloc, plan) {
        Ok(plain) => Ok(DeskLine {
            desks,
            words,
            plain,
            boxes,
        }),
        Err(error) => {
            drop(desks);
            drop(words);
            Err(error)
        }
    }
}

/// The line of a plan as it opens.
pub fn open(alloc: Global, plan: &Plan) -> Result<DeskLine, NoMemory>
    ensures { IfOk result (λ line. IsWorked plan.now line) }
{
    plan.meets_conditions();
    let boxes = plan.boxes.len();
    let words = zeros(alloc, 1 + boxes + 6 * (boxes - 1))?;
    match open_desks(alloc, plan, boxes as u32) {
        Ok(desks) => beside(alloc, plan, desks, words, boxes as u32),
        Err(error) => {
            drop(words);
            Err(error)
        }
    }
}

// One call of a box at its desk and in one hand.
fn perform(line: &mut DeskLine, plan: &Plan, box_no: u32, call: &Call) -> (Worked, Reply)
    requires worked { IsWorked plan.now line.old }
    requires call { MayCall plan.now line.old.plain.line box_no call.now }
    requires few { line.old.plain.calls < 2 ^ 32 }
    ensures worked { IsWorked plan.now line.new }
    ensures alike { result.0.reply ≡ result.1 }
{
    plan.meets_conditions();
    let desk = &mut line.desks[box_no as usize];
    let by_desk = work(desk, &mut line.words, line.boxes, box_no, call);
    let by_law = line.plain.perform(plan, box_no, call);
    (by_desk, by_law)
}

// Makes the calls of entries in turn. Do all get their replies?
fn repeats_all(line: &mut DeskLine, plan: &Plan, entries: &[Entry]) -> bool
    requires { IsWorked plan.now line.old }
    ensures { IsWorked plan.now line.new }
{
    let mut all = true;
    for entry in entries {
        all = line.repeats(plan, entry) & all;
    }
    all
}

impl DeskLine {
    /// One call of a box: what comes of it at its desk, and the reply of the line in one hand.
    pub fn perform(&mut self, plan: &Plan, box_no: u32, call: &Call) -> (Worked, Reply)
        requires worked { IsWorked plan.now self.old }
        requires call { MayCall plan.now self.old.plain.line box_no call.now }
        requires few { self.old.plain.calls < 2 ^ 32 }
        ensures worked { IsWorked plan.now self.new }
        ensures alike { result.0.reply ≡ result.1 }
    {
        perform(self, plan, box_no, call)
    }

    /// One call of a box, where it may be made: what comes of it at its desk, where the line in one hand gives the same
    /// reply.
    pub fn call(&mut self, plan: &Plan, box_no: u32, call: &Call) -> Option<Worked>
        requires { IsWorked plan.now self.old }
        ensures { IsWorked plan.now self.new }
    {
        if !self.plain.may_call(plan, box_no, call) {
            return None;
        }
        if self.plain.calls() >= 1000 {
            return None;
        }
        let (worked, by_law) = self.perform(plan, box_no, call);
        if !worked.reply.is_same(&by_law) {
            return None;
        }
        Some(worked)
    }

    /// Makes the call of an entry. Do the desk and the line in one hand give its reply?
    pub fn repeats(&mut self, plan: &Plan, entry: &Entry) -> bool
        requires { IsWorked plan.now self.old }
        ensures { IsWorked plan.now self.new }
    {
        match self.call(plan, entry.box_no, &entry.call) {
            Some(worked) => worked.reply.is_same(&entry.reply),
            None => false,
        }
    }

    /// Makes the calls of entries in turn. Do all get their replies?
    pub fn repeats_all(&mut self, plan: &Plan, entries: &[Entry]) -> bool
        requires { IsWorked plan.now self.old }
        ensures { IsWorked plan.now self.new }
    {
        repeats_all(self, plan, entries)
    }
}
