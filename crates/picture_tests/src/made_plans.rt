//! Plans and journals with the longest names, for pictures that are as crowded as can be.

ghost use Rattle.std.specs.Prelude.{IfOk, IfSome};
ghost use Rattle.line_law.specs.History.{IsLegal};
ghost use Rattle.line_report.specs.Asked.{AreFewEntries};

use line_law::Journal;
use line_plan::Plan;
use line_report::{Verdict, judge, read_journal};
use plan_text::read_plan;
use rail_text::ReadError;
use std::alloc::{AllocError, Global};
use std::fmt::Write;

/// What a plan is to have: boxes, and in each of them places and levers; and whether its signals all stand on one post.
#[derive(Clone, Copy)]
pub struct Wanted {
    pub boxes: u32,
    pub places: u32,
    pub levers: u32,
    pub is_one_post: bool,
}

// The letters with which names end: the widest, and some that reach below their line.
const LETTERS: [&str; 8] = ["W", "M", "g", "Q", "y", "O", "m", "_"];

// Puts the last letter but so many of the name of a number.
fn put_letter(out: &mut String, number: u32) -> Result<(), AllocError> {
    match LETTERS.get((number % 8) as usize) {
        Some(letter) => out.push_str(letter),
        None => Ok(()),
    }
}

// Puts the name of a number, which is as long as names may be.
fn put_name(out: &mut String, number: u32) -> Result<(), AllocError> {
    out.push_str("WWWWWWWWWWWW")?;
    put_letter(out, number / 512)?;
    put_letter(out, number / 64)?;
    put_letter(out, number / 8)?;
    put_letter(out, number)
}

// Puts a word, a name, and what follows.
fn put_named(out: &mut String, word: &str, number: u32, rest: &str) -> Result<(), AllocError> {
    out.push_str(word)?;
    put_name(out, number)?;
    out.push_str(rest)
}

// Puts the places of a box.
fn put_places(out: &mut String, places: u32) -> Result<(), AllocError> {
    for place in 0..places {
        put_named(out, "place ", place, "\n")?;
    }
    Ok(())
}

// The kind of a lever behind the first four.
fn kind_of(wanted: Wanted, lever: u32) -> &'static str {
    if wanted.is_one_post {
        return "signal";
    }
    match lever % 5 {
        0 => "points",
        1 => "lock",
        2 => "distant",
        3 => "spare",
        _ => "signal",
    }
}

// Puts the levers of a box.
fn put_levers(out: &mut String, wanted: Wanted) -> Result<(), AllocError> {
    for before in 0..wanted.levers {
        let lever = before.saturating_add(1);
        let kind = if lever <= 4 {
            "signal"
        } else {
            kind_of(wanted, lever)
        };
        write!(out, "lever {lever} {kind}\n")?;
    }
    Ok(())
}

// Puts a signal from a place to a place.
fn put_signal(out: &mut String, lever: u32, from: u32, to: u32) -> Result<(), AllocError> {
    write!(out, "signal {lever} ")?;
    put_name(out, from)?;
    put_named(out, " ", to, "\n")
}

// Puts where the signal of a lever behind the first four leads: to a place that no train comes to otherwise.
fn put_further_signal(out: &mut String, wanted: Wanted, lever: u32) -> Result<(), AllocError> {
    let further = wanted.places.saturating_sub(4);
    if further == 0 || kind_of(wanted, lever) != "signal" {
        return Ok(());
    }
    let to = (lever % further).saturating_add(4);
    let from = if wanted.is_one_post || to == 4 {
        0
    } else {
        to.saturating_sub(1)
    };
    put_signal(out, lever, from, to)
}

// Puts the signals of a box: the homes of both lines, and those behind the first four levers.
fn put_signals(out: &mut String, wanted: Wanted) -> Result<(), AllocError> {
    if wanted.levers >= 2 {
        put_signal(out, 2, 2, 0)?;
    }
    if wanted.levers >= 4 {
        put_signal(out, 4, 3, 1)?;
    }
    for before in 4..wanted.levers {
        put_further_signal(out, wanted, before.saturating_add(1))?;
    }
    Ok(())
}

// Whether trains leave a box for the next one.
fn leaves_down(wanted: Wanted, box_no: u32) -> bool {
    box_no.saturating_add(1) < wanted.boxes
}

// Whether they leave it for the one before.
fn leaves_up(wanted: Wanted, box_no: u32) -> bool {
    box_no > 0 && wanted.levers >= 3
}

// Puts the starters of a box.
fn put_starters(out: &mut String, wanted: Wanted, box_no: u32) -> Result<(), AllocError> {
    if leaves_down(wanted, box_no) {
        put_named(out, "starter down 1 ", 0, "\n")?;
    }
    if leaves_up(wanted, box_no) {
        put_named(out, "starter up 3 ", 1, "\n")?;
    }
    Ok(())
}

// Puts the berths of a box.
fn put_berths(out: &mut String, wanted: Wanted, box_no: u32) -> Result<(), AllocError> {
    if box_no > 0 && wanted.levers >= 2 {
        put_named(out, "berth down ", 2, "\n")?;
    }
    if leaves_down(wanted, box_no) && wanted.levers >= 4 {
        put_named(out, "berth up ", 3, "\n")?;
    }
    Ok(())
}

// Puts a row of the longest that has four levers from one on.
fn put_row(out: &mut String, lever: u32) -> Result<(), AllocError> {
    let (second, third) = (lever.saturating_add(1), lever.saturating_add(2));
    let fourth = lever.saturating_add(3);
    write!(out, "row {fourth} locks {third} both ways ")?;
    write!(out, "when {second} reversed and {lever} reversed\n")
}

// Puts so many rows, all of signals that stand side by side.
fn put_rows(out: &mut String, levers: u32, rows: u32) -> Result<(), AllocError> {
    let starts = levers.saturating_sub(3).max(1);
    for row in 0..rows {
        put_row(out, (row % starts).saturating_add(1))?;
    }
    Ok(())
}

// Puts a box.
fn put_box(out: &mut String, wanted: Wanted, box_no: u32, rows: u32) -> Result<(), AllocError> {
    put_named(out, "box ", box_no, "\n")?;
    put_places(out, wanted.places)?;
    put_levers(out, wanted)?;
    put_signals(out, wanted)?;
    put_starters(out, wanted, box_no)?;
    put_berths(out, wanted, box_no)?;
    put_rows(out, wanted.levers, rows)
}

// Puts a train of a box, numbered from 0 there: four for each line, and one for each further place.
fn put_train(out: &mut String, box_no: u32, train: u32) -> Result<(), AllocError> {
    let place = match train {
        0..=3 => 0,
        4..=7 => 1,
        _ => train.saturating_sub(4),
    };
    let number = box_no.saturating_mul(64).saturating_add(train);
    put_named(out, "train ", number, " long ")?;
    put_name(out, box_no)?;
    put_named(out, " ", place, "\n")
}

// How many trains a box has.
fn trains_of(wanted: Wanted) -> u32 {
    wanted.places.saturating_add(4).min(64)
}

// Puts the trains of a box.
fn put_trains(out: &mut String, wanted: Wanted, box_no: u32) -> Result<(), AllocError> {
    for train in 0..trains_of(wanted) {
        put_train(out, box_no, train)?;
    }
    Ok(())
}

/// The text of a plan, with so many rows in each box.
pub fn plan_text(alloc: Global, wanted: Wanted, rows: u32) -> Result<String, AllocError> {
    let boxes = wanted.boxes;
    let mut text = String::new(alloc);
    write!(text, "plan 2\nboxes {boxes}\ndelay 2\nlooks 1000000\n")?;
    text.push_str("class long 16-16-16-16-16\n")?;
    for box_no in 0..boxes {
        put_box(&mut text, wanted, box_no, rows)?;
    }
    for box_no in 0..boxes {
        put_trains(&mut text, wanted, box_no)?;
    }
    text.push_str("end\n")?;
    Ok(text)
}

/// The plan.
pub fn plan_of(alloc: Global, wanted: Wanted, rows: u32) -> Result<Plan, ReadError> {
    let text = plan_text(alloc, wanted, rows)?;
    read_plan(alloc, text.as_bytes())
}

// A journal as it is written, with how many entries it has.
#[derive(Drop)]
struct Written<'a> {
    text: String,
    entries: u32,
    moment: &'a str,
}

impl<'a> Written<'a> {
    // Puts the number, the box and the moment of the next entry.
    fn begin(&mut self, box_no: u32) -> Result<(), AllocError> {
        self.entries = self.entries.saturating_add(1);
        let number = self.entries;
        write!(self.text, "{number} ")?;
        put_name(&mut self.text, box_no)?;
        self.text.push_str(" ")?;
        self.text.push_str(self.moment)
    }

    // Puts that a train of a box is brought.
    fn bring(&mut self, box_no: u32, train: u32) -> Result<(), AllocError> {
        self.begin(box_no)?;
        let number = box_no.saturating_mul(64).saturating_add(train);
        put_named(&mut self.text, " bring ", number, " -> brought\n")
    }

    // Puts that four trains of a box, from one on, are brought and overrun a starter.
    fn fill(&mut self, box_no: u32, first: u32, starter: u32) -> Result<(), AllocError> {
        for behind in 0..4 {
            let train = first.saturating_add(behind);
            let count = behind.saturating_add(1);
            self.bring(box_no, train)?;
            self.begin(box_no)?;
            write!(self.text, " overrun {starter} -> entered {count} ")?;
            let number = box_no.saturating_mul(64).saturating_add(train);
            put_named(&mut self.text, "", number, "\n")?;
        }
        Ok(())
    }

    // Puts that a bell of a box is rung.
    fn ring(&mut self, box_no: u32, way: &str) -> Result<(), AllocError> {
        self.begin(box_no)?;
        write!(self.text, " ring {way} 16-16-16-16-16 -> rung 1\n")
    }

    // Puts that the first train on a line comes into the berth of a box in part.
    fn part(&mut self, box_no: u32, way: &str, from: u32, train: u32) -> Result<(), AllocError> {
        self.begin(box_no)?;
        let number = from.saturating_mul(64).saturating_add(train);
        write!(self.text, " berth_part {way} -> part_berthed 1 ")?;
        put_named(&mut self.text, "", number, "\n")
    }

    // Puts what the trains of a box do that leave it.
    fn leave(&mut self, wanted: Wanted, box_no: u32) -> Result<(), AllocError> {
        if leaves_down(wanted, box_no) {
            self.fill(box_no, 0, 1)?;
            self.ring(box_no, "down")?;
        }
        if leaves_up(wanted, box_no) {
            self.fill(box_no, 4, 3)?;
        }
        if box_no > 0 {
            self.ring(box_no, "up")?;
        }
        Ok(())
    }

    // Puts what the trains do that come to it.
    fn come(&mut self, wanted: Wanted, box_no: u32) -> Result<(), AllocError> {
        if box_no > 0 && wanted.levers >= 2 {
            self.part(box_no, "down", box_no.saturating_sub(1), 0)?;
        }
        if leaves_down(wanted, box_no) && wanted.levers >= 4 {
            self.part(box_no, "up", box_no.saturating_add(1), 4)?;
        }
        Ok(())
    }

    // Puts that the trains of a box's further places are brought.
    fn stand(&mut self, wanted: Wanted, box_no: u32) -> Result<(), AllocError> {
        for train in 8..trains_of(wanted) {
            self.bring(box_no, train)?;
        }
        Ok(())
    }
}

/// The text of a journal in which all that can happen in a plan at a moment happens then, but in the first box, where
/// it begins before: each line holds four trains, of the first of which a portion is left where it has a berth, all
/// other places hold trains, and all bells are unheard.
pub fn journal_text<'a>(
    alloc: Global,
    wanted: Wanted,
    before: &'a str,
    moment: &'a str,
) -> Result<String, AllocError> {
    let mut text = String::new(alloc);
    text.push_str("journal 2\n")?;
    let mut written = Written {
        text,
        entries: 0,
        moment: before,
    };
    for box_no in 0..wanted.boxes {
        written.leave(wanted, box_no)?;
        written.stand(wanted, box_no)?;
        written.moment = moment;
    }
    for box_no in 0..wanted.boxes {
        written.come(wanted, box_no)?;
    }
    let Written { mut text, .. } = written;
    text.push_str("end\n")?;
    Ok(text)
}

/// The journal that a text spells, where it is legal.
pub fn legal_journal(alloc: Global, plan: &Plan, text: &str) -> Result<Option<Journal>, ReadError>
    ensures legal { IfOk result (λ found. IfSome found (λ journal. IsLegal plan.now journal.entries)) }
    ensures few { IfOk result (λ found. IfSome found (λ journal. AreFewEntries journal.entries)) }
{
    let journal = read_journal(alloc, plan, text.as_bytes())?;
    match judge(alloc, plan, &journal) {
        Ok(Verdict::Legal) => Ok(Some(journal)),
        Ok(Verdict::WrongAt { .. }) => {
            drop(journal);
            Ok(None)
        }
        Err(fault) => {
            drop(journal);
            Err(fault.into())
        }
    }
}
