//! Audits of legal journals: which entries break which of the nine rules.

ghost use Rattle.line_law.specs.History.{IsLegal};
ghost use Rattle.line_report.specs.Asked.{AreFewEntries};

use crate::facts::none_is_wrong;
use crate::legal::legal_journal;
use crate::lines::absolute;
use line_law::Journal;
use line_plan::Plan;
use plan_text::read_plan;
use rail_text::{NoMemory, ReadError};
use reg_audit::{Breach, audit};
use std::alloc::Global;
use std::test::Fail;

const THREE_BOXES: &str = "plan 1\n\
boxes 3\n\
delay 2\n\
looks 1000000000\n\
box Ash\n\
place DP\n\
place UB\n\
place UP\n\
lever 1 spare\n\
lever 2 signal\n\
lever 3 signal\n\
lever 4 signal\n\
lever 5 points\n\
signal 3 UB UP\n\
signal 4 UP away\n\
starter down 2 DP\n\
berth up UB\n\
clear up UP\n\
row 2 locks 5 normal\n\
row 3 locks 5 normal\n\
box Beech\n\
place DB\n\
place DP\n\
place UB\n\
place UP\n\
lever 1 signal\n\
lever 2 signal\n\
lever 3 signal\n\
lever 4 signal\n\
lever 5 points\n\
signal 1 DB DP\n\
signal 3 UB UP\n\
starter down 2 DP\n\
starter up 4 UP\n\
berth up UB\n\
berth down DB\n\
clear up UP\n\
clear down DP\n\
track 5 DP\n\
row 1 locks 5 normal\n\
row 3 locks 5 normal\n\
box Cedar\n\
place DB\n\
place DP\n\
place UP\n\
lever 1 signal\n\
lever 2 signal\n\
lever 3 spare\n\
lever 4 signal\n\
lever 5 points\n\
signal 1 DB DP\n\
signal 2 DP away\n\
starter up 4 UP\n\
berth down DB\n\
clear down DP\n\
row 1 locks 5 normal\n\
row 4 locks 5 normal\n\
train t1 ordinary Ash DP\n\
end\n";

/// A journal, and the breaches that an audit names: of each the entry and the number of the rule.
type Audited = (&'static str, &'static [(u32, u8)]);

// A train is offered, accepted and cleared through three boxes.
const THROUGH_THREE_BOXES: &[Audited] = &[(
    "journal 1\n\
1 Ash 06:00 bring t1 -> brought\n\
2 Ash 06:00 ring down 1 -> rung 1\n\
3 Beech 06:00 await_bell up 1 -> heard 1 1\n\
4 Beech 06:00 ring up 1 -> rung 1\n\
5 Ash 06:00 await_bell down 1 -> heard 1 1\n\
6 Ash 06:00 ring down 3-1 -> rung 2\n\
7 Beech 06:00 await_bell up 3-1 -> heard 2 3-1\n\
8 Beech 06:00 ring up 3-1 -> rung 2\n\
9 Ash 06:00 await_bell down 3-1 -> heard 2 3-1\n\
10 Beech 06:00 turn down line_clear -> turned 1\n\
11 Ash 06:00 await_block down line_clear -> seen 1\n\
12 Ash 06:00 pull 2 -> pulled_under 1\n\
13 Ash 06:00 ring down 2 -> rung 3\n\
14 Beech 06:00 await_bell up 2 -> heard 3 2\n\
15 Beech 06:00 ring up 2 -> rung 3\n\
16 Ash 06:00 await_bell down 2 -> heard 3 2\n\
17 Ash 06:00 pass 2 -> entered 1 t1\n\
18 Ash 06:00 put 2 -> put\n\
19 Beech 06:00 turn down train_on_line -> turned 2\n\
20 Beech 06:00 await_train down -> approaching 1 t1\n\
21 Beech 06:00 berth down -> berthed 1 t1\n\
22 Beech 06:00 pull 1 -> pulled\n\
23 Beech 06:00 pass 1 -> passed t1\n\
24 Beech 06:00 put 1 -> put\n\
25 Beech 06:00 ring up 2-1 -> rung 4\n\
26 Ash 06:00 await_bell down 2-1 -> heard 4 2-1\n\
27 Ash 06:00 ring down 2-1 -> rung 4\n\
28 Beech 06:00 turn down normal -> turned 3\n\
29 Beech 06:00 await_bell up 2-1 -> heard 4 2-1\n\
30 Beech 06:00 ring down 1 -> rung 1\n\
31 Cedar 06:00 await_bell up 1 -> heard 1 1\n\
32 Cedar 06:00 ring up 1 -> rung 1\n\
33 Beech 06:00 await_bell down 1 -> heard 1 1\n\
34 Beech 06:00 ring down 3-1 -> rung 2\n\
35 Cedar 06:00 await_bell up 3-1 -> heard 2 3-1\n\
36 Cedar 06:00 ring up 3-1 -> rung 2\n\
37 Beech 06:00 await_bell down 3-1 -> heard 2 3-1\n\
38 Cedar 06:00 turn down line_clear -> turned 1\n\
39 Beech 06:00 await_block down line_clear -> seen 1\n\
40 Beech 06:00 pull 2 -> pulled_under 1\n\
41 Beech 06:00 ring down 2 -> rung 3\n\
42 Cedar 06:00 await_bell up 2 -> heard 3 2\n\
43 Cedar 06:00 ring up 2 -> rung 3\n\
44 Beech 06:00 await_bell down 2 -> heard 3 2\n\
45 Beech 06:00 pass 2 -> entered 1 t1\n\
46 Beech 06:00 put 2 -> put\n\
47 Cedar 06:00 turn down train_on_line -> turned 2\n\
48 Cedar 06:00 await_train down -> approaching 1 t1\n\
49 Cedar 06:00 berth down -> berthed 1 t1\n\
50 Cedar 06:00 pull 1 -> pulled\n\
51 Cedar 06:00 pass 1 -> passed t1\n\
52 Cedar 06:00 put 1 -> put\n\
53 Cedar 06:00 ring up 2-1 -> rung 4\n\
54 Beech 06:00 await_bell down 2-1 -> heard 4 2-1\n\
55 Beech 06:00 ring down 2-1 -> rung 4\n\
56 Cedar 06:00 turn down normal -> turned 3\n\
57 Cedar 06:00 await_bell up 2-1 -> heard 4 2-1\n\
58 Cedar 06:00 pull 2 -> pulled\n\
59 Cedar 06:00 pass 2 -> passed t1\n\
60 Cedar 06:00 put 2 -> put\n\
end\n",
    &[],
)];

const BETWEEN_TWO_BOXES: &[Audited] = &[
    // Nothing was rung, and a second train overran the starter.
    (
        "journal 1\n\
1 Ash 10:00 bring t1 -> brought\n\
2 Beech 10:00 turn down line_clear -> turned 1\n\
3 Ash 10:00 await_block down line_clear -> seen 1\n\
4 Ash 10:00 pull 8 -> pulled_under 1\n\
5 Ash 10:00 pass 8 -> entered 1 t1\n\
6 Ash 10:00 bring t2 -> brought\n\
7 Ash 10:00 pass 8 -> at_danger\n\
8 Ash 10:00 overrun 8 -> entered 2 t2\n\
end\n",
        &[(2, 2), (5, 3), (8, 3), (8, 7)],
    ),
    // Line Clear was given unasked, and the control was released by hand.
    (
        "journal 1\n\
1 Beech 10:00 turn down line_clear -> turned 1\n\
2 Beech 10:00 turn down line_clear -> already_there\n\
3 Beech 10:00 wind down -> not_at_normal\n\
4 Beech 10:00 turn down normal -> turned 2\n\
5 Beech 10:00 turn down line_clear -> welwyn_holds given\n\
6 Beech 10:00 wind down -> winding 10:02\n\
7 Beech 10:00 wind down -> already_winding\n\
8 Beech 10:01 release down -> too_soon 10:02\n\
9 Beech 10:02 release down -> released\n\
10 Beech 10:02 release down -> not_winding\n\
11 Beech 10:02 turn down line_clear -> turned 3\n\
end\n",
        &[(1, 2), (9, 9), (11, 2)],
    ),
];

// Are these the breaches?
fn are_these(found: &[Breach], wanted: &[(u32, u8)]) -> bool {
    if found.len() != wanted.len() {
        return false;
    }
    for (breach, (entry, rule)) in found.iter().zip(wanted) {
        if breach.entry != *entry || breach.rule.number() != *rule {
            return false;
        }
    }
    true
}

// Does an audit of a legal journal name these breaches?
fn names(
    alloc: Global,
    plan: &Plan,
    journal: &Journal,
    wanted: &[(u32, u8)],
) -> Result<bool, NoMemory>
    requires legal { IsLegal plan.now journal.now.entries }
    requires few { AreFewEntries journal.now.entries }
{
    let found = audit(alloc, plan, journal)?;
    let are_wanted = are_these(&found, wanted);
    drop(found);
    Ok(are_wanted)
}

// Is the journal that a text spells legal, and does an audit name these breaches?
fn audits(alloc: Global, plan: &Plan, text: &str, wanted: &[(u32, u8)]) -> Result<bool, ReadError> {
    match legal_journal(alloc, plan, text)? {
        Some(journal) => {
            let are_named = names(alloc, plan, &journal, wanted);
            drop(journal);
            Ok(are_named?)
        }
        None => Ok(false),
    }
}

// The first journal of which an audit names other breaches.
fn first_misnamed(
    alloc: Global,
    plan: &Plan,
    journals: &[Audited],
) -> Result<Option<&'static str>, ReadError> {
    for (text, wanted) in journals {
        if !audits(alloc, plan, text, wanted)? {
            return Ok(Some(text));
        }
    }
    Ok(None)
}

#[test]
fn a_train_is_worked_without_a_breach(rt: HostRuntime) -> Result<(), Fail> {
    let plan = read_plan(rt.alloc(), THREE_BOXES.as_bytes())?;
    let misnamed = first_misnamed(rt.alloc(), &plan, THROUGH_THREE_BOXES);
    drop(plan);
    none_is_wrong(&rt, misnamed?);
    Ok(())
}

#[test]
fn breaches_are_named(rt: HostRuntime) -> Result<(), Fail> {
    let plan = absolute(rt.alloc())?;
    let misnamed = first_misnamed(rt.alloc(), &plan, BETWEEN_TWO_BOXES);
    drop(plan);
    none_is_wrong(&rt, misnamed?);
    Ok(())
}
