//! What a signalman does, as it is printed.

ghost use Rattle.std.specs.Prelude.{◌≡◌, ◌++◌, ◌∷◌, OnOk, string_bytes, IsTrue, decimal};
ghost use Rattle.line_plan.specs.Plans.{is_train};
ghost use Rattle.line_plan.specs.Ways.{way_word};
ghost use Rattle.line_law.specs.Known.{is_code_no, knows_act};
ghost use Rattle.script_text.specs.Acts.{act_text};
ghost use Rattle.script_text.specs.Names.{position_text, code_no_text, train_text};

use crate::names::{position_word, put_code, put_small, put_train, put_way};
use bell_codes::CodeNo;
use block_words::{Position, Way};
use line_law::Act;
use line_plan::Plan;
use std::alloc::AllocError;

// A word, a way and a position.
fn put_position(
    out: &mut String,
    word: &str,
    way: Way,
    position: Position,
) -> Result<(), AllocError>
    ensures { OnOk result (string_bytes out.new
        ≡ string_bytes out.old ++ (word.now ++ 32 ∷ way_word way ++ 32 ∷ position_text position)) }
{
    put_way(out, word, way)?;
    out.push(' ')?;
    out.push_str(position_word(position))
}

// A word, a way and a code of the plan.
fn put_side_and_code(
    out: &mut String,
    plan: &Plan,
    word: &str,
    side: Way,
    code: CodeNo,
) -> Result<(), AllocError>
    requires { IsTrue (is_code_no plan.now code) }
    ensures { OnOk result (string_bytes out.new
        ≡ string_bytes out.old ++ (word.now ++ 32 ∷ way_word side ++ 32 ∷ code_no_text plan.now.codes code)) }
{
    put_way(out, word, side)?;
    out.push(' ')?;
    put_code(out, plan, code)
}

/// Puts what a signalman of a box does behind a text.
pub fn put_act(out: &mut String, plan: &Plan, box_no: u32, act: Act) -> Result<(), AllocError>
    requires { IsTrue (knows_act plan.now box_no act) }
    ensures { OnOk result (string_bytes out.new ≡ string_bytes out.old ++ act_text plan.now act) }
{
    match act {
        Act::Ring { side, code } => put_side_and_code(out, plan, "ring", side, code),
        Act::Hear { side } => put_way(out, "hear", side),
        Act::AwaitBell { side, code } => put_side_and_code(out, plan, "await_bell", side, code),
        Act::Turn { way, position } => put_position(out, "turn", way, position),
        Act::AwaitBlock { way, position } => put_position(out, "await_block", way, position),
        Act::Pull { lever } => put_small(out, "pull", lever),
        Act::Put { lever } => put_small(out, "put", lever),
        Act::Bring { train } => put_train(out, plan, "bring", train),
        Act::Pass { lever } => put_small(out, "pass", lever),
        Act::Overrun { lever } => put_small(out, "overrun", lever),
        Act::AwaitTrain { way } => put_way(out, "await_train", way),
        Act::Berth { way } => put_way(out, "berth", way),
        Act::BerthPart { way } => put_way(out, "berth_part", way),
        Act::ClearPortion { way } => put_way(out, "clear_portion", way),
        Act::Wind { way } => put_way(out, "wind", way),
        Act::Release { way } => put_way(out, "release", way),
    }
}
