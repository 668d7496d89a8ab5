//! Train graphs.

ghost use Rattle.line_law.specs.History.{IsLegal};
ghost use Rattle.line_report.specs.Asked.{AreFewEntries};

use crate::made_plans::{Wanted, journal_text, legal_journal, plan_of};
use crate::marks::{Found, found_in};
use graph_picture::train_graph;
use line_law::Entry;
use line_plan::Plan;
use std::alloc::Global;
use std::test::Fail;

// What is found of the graph of these entries.
fn found_behind(alloc: Global, plan: &Plan, entries: &[Entry]) -> Result<Found, Fail>
    requires legal { IsLegal plan.now entries.now }
    requires few { AreFewEntries entries.now }
{
    let graph = train_graph(alloc, plan, entries)?;
    Ok(found_in(alloc, graph.as_str())?)
}

// What is found of a graph in which all that can happen at a moment happens then.
fn found_of(
    alloc: Global,
    plan: &Plan,
    wanted: Wanted,
    before: &str,
    moment: &str,
) -> Result<Found, Fail> {
    let text = journal_text(alloc, wanted, before, moment)?;
    match legal_journal(alloc, plan, text.as_str()) {
        Ok(Some(journal)) => found_behind(alloc, plan, journal.entries.as_slice()),
        _ => Err(Fail::from("the journal of a graph is legal")),
    }
}

// Whether nothing overlaps in such a graph of so many boxes, and it has at least so many words.
fn is_clean(
    alloc: Global,
    boxes: u32,
    places: u32,
    before: &str,
    moment: &str,
    words: u64,
) -> Result<bool, Fail> {
    let wanted = Wanted {
        boxes,
        places,
        levers: 4,
        is_one_post: true,
    };
    match plan_of(alloc, wanted, 0) {
        Ok(plan) => {
            let found = found_of(alloc, &plan, wanted, before, moment)?;
            Ok(found.covered == 0 && found.without == 0 && found.words >= words)
        }
        Err(_) => Err(Fail::from("the plan of a graph is read")),
    }
}

#[test]
fn nothing_overlaps_in_a_graph(rt: HostRuntime) -> Result<(), Fail> {
    let alloc = rt.alloc();
    let early = is_clean(alloc, 2, 5, "00:00:00", "00:00:00", 30)?;
    let late = is_clean(alloc, 2, 64, "23:59:59", "23:59:59", 200)?;
    let eight = is_clean(alloc, 8, 16, "12:09:59", "12:10:00", 350)?;
    let most = is_clean(alloc, 64, 8, "23:40:00", "23:50:00", 1900)?;
    assert!(rt; early && late && eight && most, "graphs");
    Ok(())
}
