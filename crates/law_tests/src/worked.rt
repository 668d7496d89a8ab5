//! Two lines: the calls that they know, their section, and worked journals, with each reply, the trains that the
//! section holds in the end, and the most that it held. What is printed of them is shown by the worked cases.

ghost use Rattle.std.specs.Prelude.{◌↔◌, All, IsTrue};
ghost use Rattle.line_law.specs.History.{IsLegal};
ghost use Rattle.line_law.specs.Lines.{IsLineOf};
ghost use Rattle.line_plan.specs.Sections.{IsSection};
ghost use Rattle.line_report.specs.Asked.{AreFewEntries};
ghost use Rattle.script_text.specs.Entries.{IsSpelled};

use crate::facts::{first_untrue, holds, none_is_wrong};
use crate::journals::merges_as;
use crate::legal::legal_journal;
use crate::lines::{absolute, permissive};
use block_words::Way;
use line_law::{Act, Call, Entry, Journal, Plain, knows, knows_outgoing};
use line_plan::{Plan, Section};
use line_report::{may_judge, most_trains};
use rail_text::{NoMemory, ReadError};
use std::alloc::Global;
use std::test::Fail;

const NO_CALL: &str = "journal 1\nend\n";

const SECOND_CODE_WHILE_THE_FIRST_IS_UNHEARD: &str = "journal 1\n\
1 Ash 10:00 ring down 1 -> rung 1\n\
2 Ash 10:00 ring down 4 -> bell_busy 1 1\n\
end\n";

const A_TRAIN_GOES_THROUGH: &str = "journal 1\n\
1 Ash 10:00 bring t1 -> brought\n\
2 Ash 10:00 overrun 8 -> entered 1 t1\n\
3 Beech 10:00 berth down -> berthed 1 t1\n\
4 Beech 10:00 pull 1 -> pulled\n\
5 Beech 10:00 pass 1 -> passed t1\n\
6 Beech 10:00 pass 1 -> no_train\n\
end\n";

// A train that leaves a portion behind, which is cleared away before the next may come.
const A_DIVIDED_TRAIN: &str = "journal 1\n\
1 Ash 10:00 bring t1 -> brought\n\
2 Beech 10:00 turn down line_clear -> turned 1\n\
3 Ash 10:00 await_block down line_clear -> seen 1\n\
4 Ash 10:00 pull 8 -> pulled_under 1\n\
5 Ash 10:00 pass 8 -> entered 1 t1\n\
6 Ash 10:00 bring t2 -> brought\n\
7 Ash 10:00 overrun 8 -> entered 2 t2\n\
8 Beech 10:00 await_train down -> approaching 1 t1\n\
9 Beech 10:00 berth_part down -> part_berthed 1 t1\n\
10 Beech 10:00 berth down -> portion_ahead t1\n\
11 Beech 10:00 pull 1 -> pulled\n\
12 Beech 10:00 pass 1 -> passed t1\n\
13 Beech 10:00 clear_portion down -> cleared 1 t1\n\
14 Beech 10:00 clear_portion down -> no_portion\n\
15 Beech 10:00 await_train down -> approaching 2 t2\n\
16 Beech 10:00 berth down -> berthed 2 t2\n\
17 Beech 10:00 berth down -> occupied t2\n\
end\n";

// Two trains are to follow one another. The replies to the second Line Clear, and to the second train's pull and pass,
// are those of the line.
macro_rules! two_trains {
    ($line_clear:literal, $pull:literal, $pass:literal) => {
        concat!(
            "journal 1\n\
1 Ash 10:00 bring t1 -> brought\n\
2 Beech 10:00 turn down line_clear -> turned 1\n\
3 Ash 10:00 await_block down line_clear -> seen 1\n\
4 Ash 10:00 pull 8 -> pulled_under 1\n\
5 Ash 10:00 pass 8 -> entered 1 t1\n\
6 Ash 10:00 put 8 -> put\n\
7 Ash 10:00 ring down 2 -> rung 1\n\
8 Ash 10:00 bring t2 -> brought\n\
9 Beech 10:00 await_bell up 2 -> heard 1 2\n\
10 Beech 10:00 turn down train_on_line -> turned 2\n\
11 Beech 10:00 turn down normal -> turned 3\n\
12 Beech 10:00 turn down line_clear -> ",
            $line_clear,
            "\n13 Beech 10:00 ring up 1 -> rung 1\n\
14 Ash 10:00 await_bell down 1 -> heard 1 1\n\
15 Ash 10:00 pull 8 -> ",
            $pull,
            "\n16 Ash 10:00 pass 8 -> ",
            $pass,
            "\nend\n"
        )
    };
}

// Two trains are out at once on a permissive line of two.
const TWO_TRAINS_ON_A_PERMISSIVE_LINE: &str = two_trains!(
    "turned 4",
    "pulled_under 4",
    "entered 2 t2"
);

// On an absolute line the second Line Clear is held, and so is the second train.
const ONE_TRAIN_ON_AN_ABSOLUTE_LINE: &str = two_trains!(
    "welwyn_holds given",
    "held_by_instrument down 3 normal unspent",
    "at_danger"
);

// The section from Ash to Beech.
const DOWN: Section = Section {
    rear: 0,
    way: Way::Down,
};

// Is it a section of the line of a plan?
fn is_section(plan: &Plan, section: Section) -> bool
    ensures { IsTrue result ↔ IsSection plan.now section }
{
    knows_outgoing(plan, section.rear, section.way)
}

// Is the section to Beech one of the plan, for so many trains, with a starter and a berth?
fn comes_to_beech(plan: &Plan, limit: u32) -> bool {
    if !is_section(plan, DOWN) {
        return false;
    }
    let has_ends = DOWN.starter(plan).is_some() & DOWN.berth(plan).is_some();
    (DOWN.advance(plan) == 1) & (DOWN.limit(plan) == limit) & has_ends
}

// The most trains that the section held in a legal journal, where it is one of the plan.
fn most_held(alloc: Global, plan: &Plan, journal: &Journal) -> Result<Option<u32>, NoMemory>
    requires legal { IsLegal plan.now journal.now.entries }
    requires few { AreFewEntries journal.now.entries }
{
    if !is_section(plan, DOWN) || !may_judge(alloc, plan, journal)? {
        return Ok(None);
    }
    Ok(Some(most_trains(alloc, plan, journal, DOWN)?))
}

// Makes a call on a line, where it may be made. Are its answer and its reply the one that stands beside it?
fn gets_reply(plan: &Plan, line: &mut Plain, entry: &Entry) -> bool
    requires { IsLineOf plan.now line.old }
    ensures { IsLineOf plan.now line.new }
{
    if line.calls() >= 1000 || !line.may_call(plan, entry.box_no, &entry.call) {
        return false;
    }
    let answer = line.answer(plan, entry.box_no, &entry.call);
    let reply = line.perform(plan, entry.box_no, &entry.call);
    answer.is_same(&entry.reply) & reply.is_same(&entry.reply)
}

// Makes these calls in turn on a line. Are their answers and replies those that stand beside them?
fn get_replies(plan: &Plan, line: &mut Plain, entries: &[Entry]) -> bool
    requires { IsLineOf plan.now line.old }
    ensures { IsLineOf plan.now line.new }
{
    let mut are_so = true;
    for entry in entries {
        are_so = gets_reply(plan, line, entry) & are_so;
    }
    are_so & (line.calls() == entries.len() as u64)
}

// Makes these calls on the line of a plan as it opens. Tells how many trains the section holds then, where each call is
// answered so.
fn held_after(alloc: Global, plan: &Plan, entries: &[Entry]) -> Result<Option<u32>, NoMemory> {
    plan.meets_conditions();
    let mut line = Plain::open(alloc, plan)?;
    let are_so = get_replies(plan, &mut line, entries);
    let held = line.held(plan, DOWN);
    drop(line);
    Ok(if are_so { Some(held) } else { None })
}

// Makes the calls of a legal journal. Does the section then hold so many trains, held it so many at most, and is the
// journal merged again from its registers?
fn is_worked(
    alloc: Global,
    plan: &Plan,
    journal: &Journal,
    held: u32,
    most: u32,
) -> Result<bool, NoMemory>
    requires legal { IsLegal plan.now journal.now.entries }
    requires few { AreFewEntries journal.now.entries }
    requires spelled { All (IsSpelled plan.now) journal.now.entries }
{
    let in_the_end = held_after(alloc, plan, journal.entries.as_slice())?;
    let at_most = most_held(alloc, plan, journal)?;
    let is_merged = merges_as(alloc, plan, journal, journal)?;
    Ok((in_the_end == Some(held)) & (at_most == Some(most)) & is_merged)
}

// Is the journal that a text spells legal, and is it worked so?
fn works(alloc: Global, plan: &Plan, text: &str, held: u32, most: u32) -> Result<bool, ReadError> {
    match legal_journal(alloc, plan, text)? {
        Some(journal) => {
            let is_so = is_worked(alloc, plan, &journal, held, most);
            drop(journal);
            Ok(is_so?)
        }
        None => Ok(false),
    }
}

// The journals of an absolute line, with the trains that its section holds in the end, and the most that it held.
const ON_AN_ABSOLUTE_LINE: [(&str, u32, u32); 5] = [
    (NO_CALL, 0, 0),
    (SECOND_CODE_WHILE_THE_FIRST_IS_UNHEARD, 0, 0),
    (A_TRAIN_GOES_THROUGH, 0, 1),
    (A_DIVIDED_TRAIN, 1, 3),
    (ONE_TRAIN_ON_AN_ABSOLUTE_LINE, 1, 1),
];

// The first of them that isn't worked so.
fn first_unworked(alloc: Global, plan: &Plan) -> Result<Option<&'static str>, ReadError> {
    for (journal, held, most) in &ON_AN_ABSOLUTE_LINE {
        if !works(alloc, plan, journal, *held, *most)? {
            return Ok(Some(journal));
        }
    }
    Ok(None)
}

const UP: Way = Way::Up;

// Calls of boxes, and whether the plan of an absolute line knows them: at its first moment, and in the last of a day
// and behind it.
const CALLS: [(u32, u32, Act, bool); 16] = [
    (0, 0, Act::Pull { lever: 8 }, true),
    (0, 0, Act::Pull { lever: 9 }, false),
    (0, 0, Act::Put { lever: 0 }, false),
    (0, 0, Act::Pass { lever: 8 }, true),
    (0, 0, Act::Overrun { lever: 1 }, false),
    (0, 0, Act::Bring { train: 6 }, true),
    (0, 0, Act::Bring { train: 7 }, false),
    (0, 0, Act::Bring { train: 0 }, false),
    (1, 0, Act::Bring { train: 1 }, false),
    (1, 0, Act::Berth { way: Way::Down }, true),
    (1, 0, Act::Wind { way: UP }, false),
    (0, 0, Act::AwaitTrain { way: UP }, false),
    (0, 0, Act::Hear { side: UP }, false),
    (2, 0, Act::Hear { side: UP }, false),
    (0, 1439, Act::Hear { side: Way::Down }, true),
    (0, 1440, Act::Hear { side: Way::Down }, false),
];

// Does a plan know a call of a box?
fn knows_call(plan: &Plan, box_no: u32, moment: u32, act: Act) -> bool {
    let call = Call { moment, act };
    knows(plan, box_no, &call)
}

// Does it know those of the table that it is to know?
fn knows_calls(plan: &Plan) -> bool {
    let mut are_so = true;
    for (box_no, moment, act, wanted) in &CALLS {
        are_so = are_so & (knows_call(plan, *box_no, *moment, *act) == *wanted);
    }
    are_so
}

#[test]
fn an_absolute_line_is_worked(rt: HostRuntime) -> Result<(), Fail> {
    let plan = absolute(rt.alloc())?;
    let knows_calls = knows_calls(&plan);
    let is_section = comes_to_beech(&plan, 1);
    let unworked = first_unworked(rt.alloc(), &plan);
    drop(plan);
    let facts = [
        ("the calls that it knows", knows_calls),
        ("a section of one train", is_section),
    ];
    none_is_wrong(&rt, first_untrue(&facts).or(unworked?));
    Ok(())
}

#[test]
fn a_permissive_line_is_worked(rt: HostRuntime) -> Result<(), Fail> {
    let plan = permissive(rt.alloc())?;
    let is_section = comes_to_beech(&plan, 2);
    let text = TWO_TRAINS_ON_A_PERMISSIVE_LINE;
    let is_worked = works(rt.alloc(), &plan, text, 2, 2);
    drop(plan);
    holds(&rt, "a section of two trains", is_section & is_worked?);
    Ok(())
}
