//! The board of a journal alone.

ghost use Rattle.line_law.specs.History.{IsLegal};
ghost use Rattle.line_report.specs.Asked.{AreAsked, AreFewEntries};

use line_law::Journal;
use line_plan::Plan;
use line_report::{Verdict, judge, read_journal};
use line_watch::{Board, print_board};
use plan_text::read_plan;
use rail_text::{NoMemory, ReadError};
use std::alloc::Global;
use std::process::Abort;
use std::test::Fail;

// A starter at Ash for the down line, and its berth at Beech.
const TWO_BOXES: &str = "plan 1\nboxes 2\ndelay 2\nlooks 3\n\
box Ash\nplace DP\nlever 2 signal\nstarter down 2 DP\n\
box Beech\nplace DB\nlever 1 signal\nsignal 1 DB away\nberth down DB\nend\n";

// The board of two rounds that show this of the down line, and an up line that was never worked.
macro_rules! board {
    ($shown:literal) => {
        concat!(
            "board 2\n1 down Ash Beech ",
            $shown,
            "\n1 up Beech Ash 0 normal unspent\n2 down Ash Beech ",
            $shown,
            "\n2 up Beech Ash 0 normal unspent\n"
        )
    };
}

// Journals, each with its board: before and after a pull that spends a Line Clear, and after one that is held and
// spends what it finds all the same.
const SHOWN: &[(&str, &str)] = &[
    (
        "journal 1\n1 Beech 06:00 turn down line_clear -> turned 1\nend\n",
        board!("1 line_clear unspent"),
    ),
    (
        "journal 1\n1 Beech 06:00 turn down line_clear -> turned 1\n\
2 Ash 06:00 pull 2 -> pulled_under 1\nend\n",
        board!("1 line_clear spent"),
    ),
    (
        "journal 1\n1 Beech 06:00 turn down line_clear -> turned 1\n\
2 Ash 06:00 pull 2 -> pulled_under 1\n3 Ash 06:01 put 2 -> put\n\
4 Beech 06:01 turn down train_on_line -> turned 2\n\
5 Ash 06:02 pull 2 -> held_by_instrument down 2 train_on_line unspent\nend\n",
        board!("2 train_on_line spent"),
    ),
];

// Is this the text of the board of two rounds of a legal journal?
fn is_board(alloc: Global, plan: &Plan, journal: &Journal, shown: &str) -> Result<bool, NoMemory>
    requires { IsLegal plan.now journal.now.entries }
{
    let board = Board::of_journal(alloc, plan, 2, journal)?;
    let text = print_board(alloc, plan, &board);
    drop(board);
    let text = text?;
    let is_so = text.as_slice() == shown.as_bytes();
    drop(text);
    Ok(is_so)
}

// Is the journal legal, with this board?
fn is_legal_with(
    alloc: Global,
    plan: &Plan,
    journal: &Journal,
    shown: &str,
) -> Result<bool, NoMemory>
    requires asked { AreAsked plan.now journal.now.entries }
    requires few { AreFewEntries journal.now.entries }
{
    match judge(alloc, plan, journal)? {
        Verdict::Legal => is_board(alloc, plan, journal, shown),
        Verdict::WrongAt { .. } => Ok(false),
    }
}

// So of the journal that a text spells.
fn has_board(alloc: Global, plan: &Plan, text: &str, shown: &str) -> Result<bool, ReadError> {
    let journal = read_journal(alloc, plan, text.as_bytes())?;
    let is_so = is_legal_with(alloc, plan, &journal, shown);
    drop(journal);
    Ok(is_so?)
}

// The first journal that has another board.
fn first_other(alloc: Global, plan: &Plan) -> Result<Option<&'static str>, ReadError> {
    for (text, shown) in SHOWN {
        if !has_board(alloc, plan, text, shown)? {
            return Ok(Some(text));
        }
    }
    Ok(None)
}

// Ends the test where a journal has another board, and names it.
fn none_is_other(rt: &impl Abort, other: Option<&str>) {
    assert!(rt; other.is_none(), "another board: {other:?}");
}

#[test]
fn all_rounds_show_the_end_of_a_journal(rt: HostRuntime) -> Result<(), Fail> {
    let plan = read_plan(rt.alloc(), TWO_BOXES.as_bytes())?;
    let other = first_other(rt.alloc(), &plan);
    drop(plan);
    none_is_other(&rt, other?);
    Ok(())
}
