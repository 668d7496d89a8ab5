//! Pictures of lines.

ghost use Rattle.line_law.specs.History.{IsLegal};
ghost use Rattle.line_report.specs.Asked.{AreFewEntries};

use crate::made_plans::{Wanted, journal_text, legal_journal, plan_of};
use crate::marks::{Found, found_in};
use line_law::Entry;
use line_picture::line_picture;
use line_plan::Plan;
use std::alloc::Global;
use std::test::Fail;

// What is found of the picture of a line behind all entries.
fn found_behind(alloc: Global, plan: &Plan, entries: &[Entry]) -> Result<Found, Fail>
    requires legal { IsLegal plan.now entries.now }
    requires few { AreFewEntries entries.now }
{
    let picture = line_picture(alloc, plan, entries, entries.len())?;
    Ok(found_in(alloc, picture.as_str())?)
}

// What is found of the picture of a line in a plan, after all that can happen.
fn found_of(alloc: Global, plan: &Plan, wanted: Wanted) -> Result<Found, Fail> {
    let text = journal_text(alloc, wanted, "23:59:59", "23:59:59")?;
    match legal_journal(alloc, plan, text.as_str()) {
        Ok(Some(journal)) => found_behind(alloc, plan, journal.entries.as_slice()),
        _ => Err(Fail::from("the journal of a line is legal")),
    }
}

// Whether nothing overlaps in the picture of such a line, and it has at least so many words.
fn is_clean(alloc: Global, wanted: Wanted, words: u64) -> Result<bool, Fail> {
    match plan_of(alloc, wanted, 0) {
        Ok(plan) => {
            let found = found_of(alloc, &plan, wanted)?;
            Ok(found.covered == 0 && found.without == 0 && found.words >= words)
        }
        Err(_) => Err(Fail::from("the plan of a line is read")),
    }
}

// A line of so many boxes, places and levers.
fn line(boxes: u32, places: u32, levers: u32, is_one_post: bool) -> Wanted {
    Wanted {
        boxes,
        places,
        levers,
        is_one_post,
    }
}

#[test]
fn nothing_overlaps_in_a_line(rt: HostRuntime) -> Result<(), Fail> {
    let alloc = rt.alloc();
    let least = is_clean(alloc, line(2, 4, 1, true), 20)?;
    let three = is_clean(alloc, line(3, 5, 2, false), 30)?;
    let tall = is_clean(alloc, line(2, 64, 120, true), 800)?;
    let branching = is_clean(alloc, line(2, 64, 120, false), 600)?;
    let eight = is_clean(alloc, line(8, 24, 60, true), 1000)?;
    let most = is_clean(alloc, line(64, 8, 120, false), 14_000)?;
    assert!(rt;
        least && three && tall && branching && eight && most,
        "lines"
    );
    Ok(())
}
