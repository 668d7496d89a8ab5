//! The words that name things of a plan and of its boxes.

ghost use Rattle.std.specs.Prelude.{◌≡◌, ◌<◌, ◌++◌, ◌∷◌, decimal, length, string_bytes, IsTrue, OnOk};
ghost use Rattle.bell_codes.specs.Codes.{code_text};
ghost use Rattle.line_law.specs.Known.{is_code_no};
ghost use Rattle.line_plan.specs.Plans.{is_train};
ghost use Rattle.line_plan.specs.Ways.{way_word};
ghost use Rattle.script_text.specs.Names.{code_named, code_no_text, place_named, place_text, position_named};
ghost use Rattle.script_text.specs.Names.{position_text, train_named, train_text, way_named};
ghost use Rattle.script_text.specs.Replies.{is_place};

use crate::numbers::put_number;
use bell_codes::{CodeNo, read_code};
use block_words::{Position, Way};
use line_plan::{Plan, way_word};
use std::alloc::AllocError;

/// The way that a word names.
pub fn way_named(word: &[u8]) -> Option<Way>
    ensures { result ≡ way_named word.now }
{
    if word == b"up".as_slice() {
        Some(Way::Up)
    } else if word == b"down".as_slice() {
        Some(Way::Down)
    } else {
        None
    }
}

/// The position that a word names.
pub fn position_named(word: &[u8]) -> Option<Position>
    ensures { result ≡ position_named word.now }
{
    if word == b"normal".as_slice() {
        Some(Position::Normal)
    } else if word == b"line_clear".as_slice() {
        Some(Position::LineClear)
    } else if word == b"train_on_line".as_slice() {
        Some(Position::TrainOnLine)
    } else {
        None
    }
}

/// The number of the code that a word spells, where it is of the plan's code table.
pub fn code_named(plan: &Plan, word: &[u8]) -> Option<CodeNo>
    ensures { result ≡ code_named plan.now word.now }
{
    match read_code(word) {
        Ok(code) => plan.codes.number_of(code),
        Err(_) => None,
    }
}

/// The place of a box with this name.
pub fn place_named(plan: &Plan, box_no: u32, word: &[u8]) -> Option<u32>
    requires { box_no < length plan.now.boxes }
    ensures { result ≡ place_named plan.now box_no word.now }
{
    let here = &plan.boxes.as_slice()[box_no as usize];
    here.places.number_of_word(word)
}

/// The train with this name. Trains are numbered from 1.
pub fn train_named(plan: &Plan, word: &[u8]) -> Option<u32>
    ensures { result ≡ train_named plan.now word.now }
{
    let number = plan.train_names.number_of_word(word)?;
    Some(number + 1)
}

/// A position's word.
pub fn position_word(position: Position) -> &'static str
    ensures { result.now ≡ position_text position }
{
    match position {
        Position::Normal => "normal",
        Position::LineClear => "line_clear",
        Position::TrainOnLine => "train_on_line",
    }
}

/// The name of a place of a box.
#[tactic(auto, using(crate::proofs::Named::place_is))]
pub fn place_word(plan: &Plan, box_no: u32, place: u32) -> &str
    requires at { box_no < length plan.now.boxes }
    requires place { IsTrue (is_place plan.now box_no place) }
    ensures { result.now ≡ place_text plan.now box_no place }
{
    let here = &plan.boxes.as_slice()[box_no as usize];
    here.places.name_of(place)
}

/// The name of a train.
pub fn train_word(plan: &Plan, train: u32) -> &str
    requires { IsTrue (is_train plan.now.trains train) }
    ensures { result.now ≡ train_text plan.now train }
{
    plan.train(train).name.as_str()
}

// The groups of a code, each in decimal, with `-` between each two.
#[tactic(auto, unfolding(bell_codes::specs::Codes::code_text))]
fn put_groups(out: &mut String, groups: &[u8]) -> Result<(), AllocError>
    ensures { OnOk result (string_bytes out.new ≡ string_bytes out.old ++ code_text groups.now) }
{
    if let [first, rest @ ..] = groups {
        put_number(out, u64::from(*first))?;
        for beats in rest {
            out.push('-')?;
            put_number(out, u64::from(*beats))?;
        }
    }
    Ok(())
}

/// Puts a code of the plan's code table behind a text.
pub fn put_code(out: &mut String, plan: &Plan, code: CodeNo) -> Result<(), AllocError>
    requires { IsTrue (is_code_no plan.now code) }
    ensures { OnOk result (string_bytes out.new ≡ string_bytes out.old ++ code_no_text plan.now.codes code) }
{
    let code = plan.codes.code(code);
    put_groups(out, code.groups())
}

/// Puts a word and a number behind a text.
pub fn put_small(out: &mut String, word: &str, number: u32) -> Result<(), AllocError>
    ensures { OnOk result (string_bytes out.new ≡ string_bytes out.old ++ (word.now ++ 32 ∷ decimal number)) }
{
    out.push_str(word)?;
    out.push(' ')?;
    put_number(out, u64::from(number))
}

/// Puts a word and a way behind a text.
pub fn put_way(out: &mut String, word: &str, way: Way) -> Result<(), AllocError>
    ensures { OnOk result (string_bytes out.new ≡ string_bytes out.old ++ (word.now ++ 32 ∷ way_word way)) }
{
    out.push_str(word)?;
    out.push(' ')?;
    out.push_str(way_word(way))
}

/// Puts a word and a train behind a text.
pub fn put_train(out: &mut String, plan: &Plan, word: &str, train: u32) -> Result<(), AllocError>
    requires { IsTrue (is_train plan.now.trains train) }
    ensures { OnOk result (string_bytes out.new
        ≡ string_bytes out.old ++ (word.now ++ 32 ∷ train_text plan.now train)) }
{
    out.push_str(word)?;
    out.push(' ')?;
    out.push_str(train_word(plan, train))
}
