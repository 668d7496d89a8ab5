//! The board as it is printed.

ghost use Rattle.std.specs.Prelude.{◌≡◌, ◌++◌, IfOk, OnOk, All, length, map, string_bytes};
ghost use Rattle.line_plan.specs.Sections.{IsSection, sections_of};
ghost use Rattle.line_watch.specs.Boards.{board_text, round_text, rounds_text, section_count};
ghost use Rattle.line_watch.specs.Boards.{shown_text, sight_text};

use crate::board::Board;
use crate::numbers::section_numbered;
use crate::round::Round;
use crate::sight::Sight;
use line_plan::{Plan, Section};
use rail_text::NoMemory;
use script_text::{position_word, spent_word};
use std::alloc::{AllocError, Global};
use std::fmt::Write;

// What an instrument showed.
#[tactic(auto, unfolding(crate::specs::Boards::shown_text))]
fn put_shown(out: &mut String, sight: Sight) -> Result<(), AllocError>
    ensures { OnOk result (string_bytes out.new ≡ string_bytes out.old ++ shown_text sight) }
{
    let turns = sight.turns;
    write!(out, "{turns} ")?;
    out.push_str(position_word(sight.position))?;
    out.push_str(" ")?;
    out.push_str(spent_word(sight.spent))
}

// A sight's line.
#[tactic(auto, unfolding(crate::specs::Boards::sight_text))]
fn put_sight(
    out: &mut String,
    plan: &Plan,
    round: usize,
    section: Section,
    sight: Sight,
) -> Result<(), AllocError>
    requires { IsSection plan.now section }
    ensures { OnOk result (string_bytes out.new
        ≡ string_bytes out.old ++ sight_text plan.now round section sight) }
{
    write!(out, "{round} ")?;
    section.put_name(out, plan)?;
    out.push_str(" ")?;
    put_shown(out, sight)?;
    out.push_str("\n")
}

// A round's lines.
fn put_round(
    out: &mut String,
    plan: &Plan,
    number: usize,
    sights: &[Sight],
) -> Result<(), AllocError>
    requires { length sights.now ≡ section_count (length plan.now.boxes) }
    ensures { OnOk result (string_bytes out.new
        ≡ string_bytes out.old ++ round_text plan.now number (sections_of plan.now) sights.now) }
{
    plan.meets_conditions();
    let boxes = plan.boxes.len() as u32;
    for (place, sight) in sights.iter().enumerate() {
        put_sight(out, plan, number, section_numbered(boxes, place), *sight)?;
    }
    Ok(())
}

// The lines of rounds, numbered from 1.
fn put_rounds(out: &mut String, plan: &Plan, rounds: &[Round]) -> Result<(), AllocError>
    requires { All (λ round. length round.sights ≡ section_count (length plan.now.boxes)) rounds.now }
    ensures { OnOk result (string_bytes out.new
        ≡ string_bytes out.old ++ rounds_text plan.now 1 (map (λ round. round.sights) rounds.now)) }
{
    for (place, round) in rounds.iter().enumerate() {
        put_round(out, plan, place + 1, round.sights())?;
    }
    Ok(())
}

/// Puts a board, as far as its rounds are filled, behind a text, by the plan for which it was made: [`print_board`]
/// says how.
#[tactic(auto, unfolding(crate::specs::Boards::board_text))]
pub fn put_board(out: &mut String, plan: &Plan, board: &Board) -> Result<(), AllocError>
    requires { board.now.boxes ≡ length plan.now.boxes }
    ensures { OnOk result (string_bytes out.new ≡ string_bytes out.old ++ board_text plan.now board.now.rounds) }
{
    let rounds = board.rounds();
    let count = rounds.len();
    write!(out, "board {count}\n")?;
    put_rounds(out, plan, rounds)
}

/// The text of a board of which all rounds are filled, by the plan for which it was made: `board` and the number of
/// rounds, and then, round by round from 1, a line for each section in the order in which sections are printed: the
/// round, the way, the rear box and the box in advance, the turn count, the position, and `spent` or `unspent`.
pub fn print_board(alloc: Global, plan: &Plan, board: &Board) -> Result<Vec<u8>, NoMemory>
    requires filled { board.now.left ≡ 0 }
    requires plan { board.now.boxes ≡ length plan.now.boxes }
    ensures { IfOk result (λ text. text.items ≡ board_text plan.now board.now.rounds) }
{
    let _left = board.left();
    let mut out = String::new(alloc);
    put_board(&mut out, plan, board)?;
    Ok(out.into_bytes())
}
