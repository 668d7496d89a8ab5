//! What an instructor marks in a journal.

ghost use Rattle.std.specs.Prelude.{◌≡◌, ◌++◌, ◌∷◌, [], IfOk, OnOk, filter, ℕ, List, Bool};
ghost use Rattle.line_law.specs.History.{IsLegal};
ghost use Rattle.line_report.specs.Asked.{AreFewEntries};
ghost use Rattle.box_marking.specs.Behind.{marked};
ghost use Rattle.box_marking.specs.Markings.{AreMarkings, is_wanted, markings_of, stands, struck};

use crate::clock::{SideClock, Timed, cause_of, empty_clocks, set_clocks};
use crate::doing::doing_of;
use crate::lapse::{Lapse, before_cause, is_duty, is_held, lapse_of, late, left_off, made_good};
use crate::page::{SidePage, empty_pages, write_down};
use line_law::{ByWay, Entry, Plain};
use line_plan::Plan;
use rail_text::NoMemory;
use std::alloc::Global;
use std::marker::Model;

/// That an instructor marks an entry of a journal, which is of this box. Entries are numbered from 1.
#[derive(Clone, Copy, Debug)]
pub struct Marking {
    pub entry: u32,
    pub box_no: u32,
    pub lapse: Lapse,
}

// Adds the marking of an entry for a lapse, if there is one.
fn add_marking(
    found: &mut Vec<Marking>,
    entry: u32,
    box_no: u32,
    lapse: Option<Lapse>,
) -> Result<(), NoMemory>
    ensures { OnOk result (found.new.items ≡ found.old.items ++ marked entry box_no lapse) }
{
    if let Some(lapse) = lapse {
        found.push(Marking {
            entry,
            box_no,
            lapse,
        })?;
    }
    Ok(())
}

// Strikes an entry off, if there is one.
fn strike(done: &mut Vec<bool>, number: Option<u32>)
    ensures { done.new.items ≡ struck (number ∷ []) done.old.items }
{
    if let Some(number) = number {
        if (number as usize) < done.len() {
            done[number as usize] = true;
        }
    }
}

// Strikes off the entries that are made good.
fn strike_all(done: &mut Vec<bool>, made: [Option<u32>; 4])
    ensures { done.new.items ≡ struck made done.old.items }
{
    let [first, second, third, fourth] = made;
    strike(done, first);
    strike(done, second);
    strike(done, third);
    strike(done, fourth);
}

// Whether a box is asked for: the one that is named, or each where none is.
fn is_wanted(only: Option<u32>, box_no: u32) -> bool
    ensures { result ≡ is_wanted only box_no }
{
    match only {
        Some(wanted) => wanted == box_no,
        None => true,
    }
}

// Whether a marking is of a box that is asked for, and nothing has made it good.
fn stands(only: Option<u32>, done: &[bool], marking: &Marking) -> bool
    ensures { result ≡ stands only done.now marking.now }
{
    let is_done = match done.get(marking.entry as usize) {
        Some(is_done) => *is_done,
        None => false,
    };
    is_wanted(only, marking.box_no) && !(is_duty(&marking.lapse) && is_done)
}

// The markings that stand, of those that may be marked.
fn standing(
    alloc: Global,
    only: Option<u32>,
    done: &[bool],
    found: &[Marking],
) -> Result<Vec<Marking>, NoMemory>
    ensures { IfOk result (λ markings. markings.items ≡ filter (stands only done.now) found.now) }
{
    let mut markings = Vec::new(alloc);
    for marking in found {
        if stands(only, done, marking) {
            markings.push(*marking)?;
        }
    }
    Ok(markings)
}

/// A marker who hears the entries of a legal history one after another. Contracts see the pages of each box, the line,
/// how many entries were heard, which are made good, and what may be marked.
#[derive(Drop)]
struct Marker {
    pages: Vec<ByWay<SidePage>>,
    clocks: Vec<ByWay<SideClock>>,
    line: Plain,
    count: u32,
    done: Vec<bool>,
    found: Vec<Marking>,
}

impl Model for Marker {
    ghost use Rattle.box_marking.specs.Markers.{MarkerFields};

    ghost Value = { MarkerFields };

    ghost view = { λ marker. record {
      pages = marker.pages.items;
      clocks = marker.clocks.items;
      line = marker.line;
      count = marker.count;
      done = marker.done.items;
      found = marker.found.items;
    } };
}

impl Marker {
    ghost use Rattle.std.specs.Prelude.{◌≡◌, ◌<◌, ◌^◌, [], ◌∷◌, ◌++◌, List, ℕ, IfOk, OnOk, Option, filter};
    ghost use Rattle.line_law.specs.declared.call.Entry.{Entry};
    ghost use Rattle.line_law.specs.History.{IsLegal};
    ghost use Rattle.box_marking.specs.Markers.{ComesNext, HasMarked};
    ghost use Rattle.box_marking.specs.Markings.{stands};

    // A marker of a plan's line who has heard nothing, and will hear so many entries.
    fn open(alloc: Global, plan: &Plan, all: usize) -> Result<Marker, NoMemory>
        requires { all < 2 ^ 32 }
        ensures { (within : Option ℕ) → IfOk result (λ marker. HasMarked plan.now within all [] marker) }
    {
        plan.meets_conditions();
        let boxes = plan.boxes.len();
        Ok(Marker {
            pages: empty_pages(alloc, boxes)?,
            clocks: empty_clocks(alloc, boxes)?,
            line: Plain::open(alloc, plan)?,
            count: 0,
            done: vec![in alloc; false; all + 1]?,
            found: Vec::new(alloc),
        })
    }

    // Hears an entry more, behind those of a legal history, which with it is one again.
    fn hear(
        &mut self,
        plan: &Plan,
        within: Option<u32>,
        all: usize,
        entry: &Entry,
    ) -> Result<(), NoMemory>
        requires { ComesNext plan.now within all self.old entry.now }
        ensures { (es : List Entry) → HasMarked plan.now within all es self.old
            → IsLegal plan.now (es ++ entry.now ∷ [])
            → OnOk result (HasMarked plan.now within all (es ++ entry.now ∷ []) self.new) }
    {
        plan.meets_conditions();
        let box_no = entry.box_no;
        let at = box_no as usize;
        let doing = doing_of(plan, entry);
        let held = is_held(plan, &self.line, entry, &doing);
        self.line.perform(plan, box_no, &entry.call);
        self.count += 1;
        let now = Timed {
            entry: self.count,
            moment: entry.call.moment,
        };
        let cause = cause_of(&self.clocks, box_no, &doing);
        let clocks = &mut self.clocks[at];
        set_clocks(now, &doing, clocks);
        let pages = &mut self.pages[at];
        let lapse = lapse_of(plan, held, &doing, pages);
        let late = late(plan, within, now, &doing, pages);
        strike_all(&mut self.done, made_good(plan, &doing, pages));
        write_down(plan, self.count, cause, &doing, pages);
        add_marking(&mut self.found, self.count, box_no, lapse)?;
        add_marking(&mut self.found, self.count, box_no, left_off(&doing))?;
        add_marking(
            &mut self.found,
            self.count,
            box_no,
            before_cause(now, cause),
        )?;
        add_marking(&mut self.found, self.count, box_no, late)?;
        Ok(())
    }

    // The markings that stand, of one box or of all.
    fn standing(&self, alloc: Global, only: Option<u32>) -> Result<Vec<Marking>, NoMemory>
        ensures { IfOk result (λ markings. markings.items ≡ filter (stands only self.now.done) self.now.found) }
    {
        standing(alloc, only, &self.done, &self.found)
    }
}

// The markings of a journal, entry by entry.
fn markings_in(
    alloc: Global,
    plan: &Plan,
    entries: &[Entry],
    only: Option<u32>,
    within: Option<u32>,
) -> Result<Vec<Marking>, NoMemory>
    requires legal { IsLegal plan.now entries.now }
    requires few { AreFewEntries entries.now }
    ensures { IfOk result (λ markings. markings.items ≡ markings_of plan.now within only entries.now) }
{
    let all = entries.len();
    let mut marker = Marker::open(alloc, plan, all)?;
    for entry in entries {
        marker.hear(plan, within, all, entry)?;
    }
    let markings = marker.standing(alloc, only)?;
    drop(marker);
    Ok(markings)
}

/// What an instructor marks in a legal journal, of one box or of all: each entry that is marked is named with what it
/// is marked for, and nothing else is; by entry, then by rule, once each. A code is rung back late, or Line Clear
/// given, where that comes more than `within` after the code was rung, in minutes or seconds as the plan has them;
/// where none is given, nothing is late. There are fewer than 2^32 entries. It goes over the journal once, performs
/// each call once, and keeps a page and a clock for each side of each box, a flag for each entry, and what may be
/// marked.
pub fn mark(
    alloc: Global,
    plan: &Plan,
    entries: &[Entry],
    only: Option<u32>,
    within: Option<u32>,
) -> Result<Vec<Marking>, NoMemory>
    requires legal { IsLegal plan.now entries.now }
    requires few { AreFewEntries entries.now }
    ensures exact { IfOk result (λ markings. AreMarkings plan.now within entries.now only markings.items) }
    ensures list { IfOk result (λ markings. markings.items ≡ markings_of plan.now within only entries.now) }
{
    plan.meets_conditions();
    markings_in(alloc, plan, entries, only, within)
}
