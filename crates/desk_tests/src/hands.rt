//! The signalmen of a line in one hand.

ghost use Rattle.std.specs.Prelude.{◌≡◌, ◌≤◌, IfOk};
ghost use Rattle.signalman_seats.specs.Lines.{AreMen};

use crate::endings::{closed, count_of, merged};
use instrument_rule::Line;
use line_law::{Call, Entry, Reply};
use line_plan::Plan;
use rail_text::NoMemory;
use signalman_seats::{Signalman, open_line};
use std::alloc::Global;

/// A line of a plan with its men, each with room for so many entries.
///
/// # Errors
///
/// `NoMemory` where the line can't be opened.
pub fn opened(alloc: Global, plan: &Plan, room: usize) -> Result<(Line, Vec<Signalman>), NoMemory>
    requires room { room ≤ 10000 }
    ensures plan { IfOk result (λ r. r.0.table.shared.key ≡ plan.now) }
    ensures men { IfOk result (λ r. AreMen r.0.table.shared.table_id r.0.table.shared.key r.1.items) }
{
    let rooms = vec![in alloc; room; plan.boxes.len()]?;
    let opened = open_line(alloc, plan, &rooms);
    drop(rooms);
    match opened {
        Ok(opened) => Ok(opened),
        Err(fault) => {
            drop(fault);
            Err(NoMemory)
        }
    }
}

/// A call of one of the men, with so many looks; none where it may not be made.
pub fn call_of(
    men: &mut Vec<Signalman>,
    line: &Line,
    box_no: usize,
    call: Call,
    looks: u32,
) -> Option<Reply>
    requires men { AreMen line.now.table.shared.table_id line.now.table.shared.key men.old.items }
    requires looks { 1 ≤ looks }
    ensures { AreMen line.now.table.shared.table_id line.now.table.shared.key men.new.items }
{
    if men.len() <= box_no {
        return None;
    }
    let man = &mut men[box_no];
    if man.spare() == 0 || !man.knows(&call) || call.moment < man.moment() {
        return None;
    }
    Some(man.perform(line, call, looks))
}

/// The calls of entries, one after another, each with so many looks. Do all get their replies?
pub fn perform_all(men: &mut Vec<Signalman>, line: &Line, entries: &[Entry], looks: u32) -> bool
    requires men { AreMen line.now.table.shared.table_id line.now.table.shared.key men.old.items }
    requires looks { 1 ≤ looks }
    ensures { AreMen line.now.table.shared.table_id line.now.table.shared.key men.new.items }
{
    let mut are_so = true;
    for entry in entries {
        let reply = call_of(men, line, entry.box_no as usize, entry.call, looks);
        are_so = are_so & (reply == Some(entry.reply));
    }
    are_so
}

/// Makes the calls of entries by the men of a line that opens, each with so many looks, closes the line and merges its
/// registers. Do all get their replies, and is the journal of these entries?
///
/// # Errors
///
/// `NoMemory` where memory runs out.
pub fn is_merged_as(
    alloc: Global,
    plan: &Plan,
    worked: &[Entry],
    looks: u32,
    wanted: &[Entry],
) -> Result<bool, NoMemory>
    requires looks { 1 ≤ looks }
{
    let (line, mut men) = opened(alloc, plan, 100)?;
    let are_so = perform_all(&mut men, &line, worked, looks);
    let journal = merged(alloc, plan, line, men)?;
    let is_so = journal.entries.as_slice() == wanted;
    drop(journal);
    Ok(are_so & is_so)
}

/// Makes the calls of entries by the men of a line that opens, and closes it. Do all get their replies, and do the
/// registers have them all?
///
/// # Errors
///
/// `NoMemory` where memory runs out.
pub fn are_performed(alloc: Global, plan: &Plan, entries: &[Entry]) -> Result<bool, NoMemory> {
    let (line, mut men) = opened(alloc, plan, 100)?;
    let are_so = perform_all(&mut men, &line, entries, 3);
    let ended = closed(alloc, line, men)?;
    let are_all = count_of(&ended) == entries.len();
    drop(ended);
    Ok(are_so & are_all)
}

fn goes_to_a_thread<T: Send>(_value: &T) {}

fn is_shared<T: Sync>(_value: &T) {}

/// A man may go to another thread, and a line be shared by threads: that it compiles says so.
pub fn cross(man: &Signalman, line: &Line) {
    goes_to_a_thread(man);
    is_shared(line);
}
