//! The calls of worked journals, made on a line of desks and by the men of a line: each desk, the line in one hand and
//! each man give the journal's reply.

use crate::facts::holds;
use crate::hands::are_performed;
use crate::line::open;
use crate::tests::journals::{
    ON_A_LONG_LINE, ON_A_MADE_LINE, ON_A_PERMISSIVE_LINE, ON_AN_ABSOLUTE_LINE,
    ON_AN_ABSOLUTE_LINE_IN_SECONDS, ON_BELLS, ON_BELLS_AFTER_ONE_LOOK, ON_BELLS_IN_SECONDS,
    ON_BELLS_OF_THREE_BOXES,
};
use crate::tests::plans::{
    ABSOLUTE, ABSOLUTE_IN_SECONDS, BELLS, BELLS_IN_SECONDS, BELLS_OF_THREE_BOXES,
    BELLS_WITH_ONE_LOOK, LONG_LINE, PERMISSIVE,
};
use line_law::Entry;
use line_maker::make_line;
use line_plan::Plan;
use line_report::read_journal;
use plan_text::read_plan;
use rail_text::{NoMemory, ReadError};
use std::alloc::Global;
use std::process::Abort;
use std::test::Fail;

// Makes the calls of entries on the line of a plan as it opens. Do all get their replies?
fn are_repeated(alloc: Global, plan: &Plan, entries: &[Entry]) -> Result<bool, NoMemory> {
    let mut line = open(alloc, plan)?;
    let are_so = line.repeats_all(plan, entries);
    drop(line);
    Ok(are_so)
}

// The same of the journal that a text spells.
fn is_repeated(alloc: Global, plan: &Plan, text: &str) -> Result<bool, ReadError> {
    let journal = read_journal(alloc, plan, text.as_bytes())?;
    let by_desks = are_repeated(alloc, plan, journal.entries.as_slice());
    let by_men = are_performed(alloc, plan, journal.entries.as_slice());
    drop(journal);
    Ok(by_desks? & by_men?)
}

// The same of each journal of a table.
fn each_is_repeated(
    rt: &impl Abort,
    alloc: Global,
    plan: &Plan,
    table: &[(&str, &str)],
) -> Result<(), ReadError> {
    for (subject, journal) in table.iter() {
        holds(rt, subject, is_repeated(alloc, plan, journal)?);
    }
    Ok(())
}

// The same on the line that a text spells.
fn works(
    rt: &impl Abort,
    alloc: Global,
    text: &str,
    table: &[(&str, &str)],
) -> Result<(), ReadError> {
    let plan = read_plan(alloc, text.as_bytes())?;
    let worked = each_is_repeated(rt, alloc, &plan, table);
    drop(plan);
    worked
}

#[test]
fn lines_with_bells_alone_are_worked(rt: HostRuntime) -> Result<(), Fail> {
    works(&rt, rt.alloc(), BELLS, &ON_BELLS)?;
    works(&rt, rt.alloc(), BELLS_IN_SECONDS, &ON_BELLS_IN_SECONDS)?;
    works(
        &rt,
        rt.alloc(),
        BELLS_WITH_ONE_LOOK,
        &ON_BELLS_AFTER_ONE_LOOK,
    )?;
    works(
        &rt,
        rt.alloc(),
        BELLS_OF_THREE_BOXES,
        &ON_BELLS_OF_THREE_BOXES,
    )?;
    works(&rt, rt.alloc(), LONG_LINE, &ON_A_LONG_LINE)?;
    Ok(())
}

#[test]
fn absolute_lines_are_worked(rt: HostRuntime) -> Result<(), Fail> {
    works(&rt, rt.alloc(), ABSOLUTE, &ON_AN_ABSOLUTE_LINE)?;
    works(
        &rt,
        rt.alloc(),
        ABSOLUTE_IN_SECONDS,
        &ON_AN_ABSOLUTE_LINE_IN_SECONDS,
    )?;
    Ok(())
}

#[test]
fn a_permissive_line_is_worked(rt: HostRuntime) -> Result<(), Fail> {
    works(&rt, rt.alloc(), PERMISSIVE, &ON_A_PERMISSIVE_LINE)?;
    Ok(())
}

#[test]
fn a_made_line_is_worked(rt: HostRuntime) -> Result<(), Fail> {
    let (plan, scripts) = make_line(rt.alloc(), 1)?;
    drop(scripts);
    let worked = each_is_repeated(&rt, rt.alloc(), &plan, &ON_A_MADE_LINE);
    drop(plan);
    worked?;
    Ok(())
}
