//! What the words behind a moment say that a signalman does.

ghost use Rattle.std.specs.Prelude.{◌≡◌, ◌<◌, length, map};
ghost use Rattle.rail_text.specs.Words.{number_in};
ghost use Rattle.locking_table.specs.Places.{most_levers};
ghost use Rattle.rail_text.specs.Gives.{GivesCause};
ghost use Rattle.script_text.specs.Acts.{fixed, side_in, code_in, with_berth, lever_in, arm_in, train_in, two_words};
ghost use Rattle.script_text.specs.Acts.{third_word, side_and_code, way_and_position, berth_and_position};
ghost use Rattle.script_text.specs.Acts.{outgoing_and_position, one_side, one_berth, one_lever, one_arm, one_train};
ghost use Rattle.script_text.specs.Acts.{act_rows, way_act, worded_act, act_worded, act_of};
ghost use Rattle.script_text.specs.Names.{row_named, way_named, position_named};

use crate::names::{position_named, train_named, way_named};
use bell_codes::{CodeNo, read_code};
use block_words::{Position, Way};
use line_law::{Act, knows_arm, knows_berth, knows_lever, knows_outgoing, knows_side, knows_train};
use line_plan::{Plan, comes_in};
use locking_table::MOST_LEVERS;
use rail_text::{Cause, LineWords, read_number};

// `up` or `down`.
fn way_in(word: &[u8]) -> Result<Way, Cause>
    ensures { result ≡ fixed (way_named word.now) }
{
    way_named(word).ok_or(Cause::UnknownWord)
}

// `normal`, `line_clear` or `train_on_line`.
fn position_in(word: &[u8]) -> Result<Position, Cause>
    ensures { result ≡ fixed (position_named word.now) }
{
    position_named(word).ok_or(Cause::UnknownWord)
}

// A way on whose side the box has a neighbour.
#[tactic(auto, unfolding(crate::specs::Acts::side_in))]
fn side_in(plan: &Plan, box_no: u32, word: &[u8]) -> Result<Way, Cause>
    ensures { result ≡ side_in plan.now box_no word.now }
{
    let side = way_in(word)?;
    if knows_side(plan, box_no, side) {
        Ok(side)
    } else {
        Err(Cause::NoLine)
    }
}

// The number of a code of the plan's code table.
#[tactic(auto, unfolding(crate::specs::Acts::code_in))]
fn code_in(plan: &Plan, word: &[u8]) -> Result<CodeNo, Cause>
    ensures { result ≡ code_in plan.now word.now }
{
    match read_code(word) {
        Err(_) => Err(Cause::BadCode),
        Ok(code) => plan.codes.number_of(code).ok_or(Cause::UnknownCode),
    }
}

// A line that comes into the box from a neighbour and has a berth there.
fn with_berth(plan: &Plan, box_no: u32, way: Way) -> Result<Way, Cause>
    requires { box_no < length plan.now.boxes }
    ensures { result ≡ with_berth plan.now box_no way }
{
    if !comes_in(plan.boxes.len() as u32, box_no, way) {
        Err(Cause::NoLine)
    } else if knows_berth(plan, box_no, way) {
        Ok(way)
    } else {
        Err(Cause::NoBerth)
    }
}

// A number that a lever may have.
fn lever_number(word: &[u8]) -> Result<u32, Cause>
    ensures { result ≡ number_in 1 most_levers word.now }
{
    match read_number(word) {
        None => Err(Cause::BadNumber),
        Some(number) if 1 <= number && number <= u64::from(MOST_LEVERS) => Ok(number as u32),
        Some(_) => Err(Cause::OutOfRange),
    }
}

// A lever of the box's frame.
#[tactic(auto, unfolding(crate::specs::Acts::lever_in))]
fn lever_in(plan: &Plan, box_no: u32, word: &[u8]) -> Result<u32, Cause>
    requires { box_no < length plan.now.boxes }
    ensures { result ≡ lever_in plan.now box_no word.now }
{
    let lever = lever_number(word)?;
    if knows_lever(plan, box_no, lever) {
        Ok(lever)
    } else {
        Err(Cause::UnknownLever)
    }
}

// A lever of the box's frame that works a signal or starter.
#[tactic(auto, unfolding(crate::specs::Acts::arm_in))]
fn arm_in(plan: &Plan, box_no: u32, word: &[u8]) -> Result<u32, Cause>
    requires { box_no < length plan.now.boxes }
    ensures { result ≡ arm_in plan.now box_no word.now }
{
    let lever = lever_in(plan, box_no, word)?;
    if knows_arm(plan, box_no, lever) {
        Ok(lever)
    } else {
        Err(Cause::NoArm)
    }
}

// A train that is brought at the box.
#[tactic(auto, unfolding(crate::specs::Acts::train_in))]
fn train_in(plan: &Plan, box_no: u32, word: &[u8]) -> Result<u32, Cause>
    ensures { result ≡ train_in plan.now box_no word.now }
{
    match train_named(plan, word) {
        None => Err(Cause::UnknownName),
        Some(train) if knows_train(plan, box_no, train) => Ok(train),
        Some(_) => Err(Cause::OtherBox),
    }
}

// The two words behind the moment and the call's word, where there are exactly two.
fn two_words<'a>(words: &LineWords<'a>) -> Result<(&'a [u8], &'a [u8]), Cause>
    ensures { GivesCause (λ both. (both.0.now, both.1.now)) result (two_words words.now) }
{
    let Some(first) = words.word(2) else {
        return Err(Cause::WordCount);
    };
    let Some(second) = words.word(3) else {
        return Err(Cause::WordCount);
    };
    match words.word(4) {
        None => Ok((first, second)),
        Some(_) => Err(Cause::WordCount),
    }
}

// The one word behind them, where there is exactly one.
fn third_word<'a>(words: &LineWords<'a>) -> Result<&'a [u8], Cause>
    ensures { GivesCause (λ word. word.now) result (third_word words.now) }
{
    let Some(only) = words.word(2) else {
        return Err(Cause::WordCount);
    };
    match words.word(3) {
        None => Ok(only),
        Some(_) => Err(Cause::WordCount),
    }
}

// A side with a neighbour, and a code.
#[tactic(auto, unfolding(crate::specs::Acts::side_and_code))]
fn side_and_code(plan: &Plan, box_no: u32, words: &LineWords<'_>) -> Result<(Way, CodeNo), Cause>
    ensures { result ≡ side_and_code plan.now box_no words.now }
{
    let (side, code) = two_words(words)?;
    let side = side_in(plan, box_no, side)?;
    let code = code_in(plan, code)?;
    Ok((side, code))
}

// A way and a position, by their forms.
#[tactic(auto, unfolding(crate::specs::Acts::way_and_position))]
fn way_and_position(words: &LineWords<'_>) -> Result<(Way, Position), Cause>
    ensures { result ≡ way_and_position words.now }
{
    let (way, position) = two_words(words)?;
    let way = way_in(way)?;
    let position = position_in(position)?;
    Ok((way, position))
}

// A line with a berth, and a position.
#[tactic(auto, unfolding(crate::specs::Acts::berth_and_position))]
fn berth_and_position(
    plan: &Plan,
    box_no: u32,
    words: &LineWords<'_>,
) -> Result<(Way, Position), Cause>
    requires { box_no < length plan.now.boxes }
    ensures { result ≡ berth_and_position plan.now box_no words.now }
{
    let (way, position) = way_and_position(words)?;
    let way = with_berth(plan, box_no, way)?;
    Ok((way, position))
}

// An outgoing line, and a position.
#[tactic(auto, unfolding(crate::specs::Acts::outgoing_and_position))]
fn outgoing_and_position(
    plan: &Plan,
    box_no: u32,
    words: &LineWords<'_>,
) -> Result<(Way, Position), Cause>
    ensures { result ≡ outgoing_and_position plan.now box_no words.now }
{
    let (way, position) = way_and_position(words)?;
    if knows_outgoing(plan, box_no, way) {
        Ok((way, position))
    } else {
        Err(Cause::NoLine)
    }
}

// A side with a neighbour.
#[tactic(auto, unfolding(crate::specs::Acts::one_side))]
fn one_side(plan: &Plan, box_no: u32, words: &LineWords<'_>) -> Result<Way, Cause>
    ensures { result ≡ one_side plan.now box_no words.now }
{
    side_in(plan, box_no, third_word(words)?)
}

// A line with a berth.
#[tactic(auto, unfolding(crate::specs::Acts::one_berth))]
fn one_berth(plan: &Plan, box_no: u32, words: &LineWords<'_>) -> Result<Way, Cause>
    requires { box_no < length plan.now.boxes }
    ensures { result ≡ one_berth plan.now box_no words.now }
{
    let way = way_in(third_word(words)?)?;
    with_berth(plan, box_no, way)
}

// A lever.
#[tactic(auto, unfolding(crate::specs::Acts::one_lever))]
fn one_lever(plan: &Plan, box_no: u32, words: &LineWords<'_>) -> Result<u32, Cause>
    requires { box_no < length plan.now.boxes }
    ensures { result ≡ one_lever plan.now box_no words.now }
{
    lever_in(plan, box_no, third_word(words)?)
}

// A lever of a signal or starter.
#[tactic(auto, unfolding(crate::specs::Acts::one_arm))]
fn one_arm(plan: &Plan, box_no: u32, words: &LineWords<'_>) -> Result<u32, Cause>
    requires { box_no < length plan.now.boxes }
    ensures { result ≡ one_arm plan.now box_no words.now }
{
    arm_in(plan, box_no, third_word(words)?)
}

// A train of the box.
#[tactic(auto, unfolding(crate::specs::Acts::one_train))]
fn one_train(plan: &Plan, box_no: u32, words: &LineWords<'_>) -> Result<u32, Cause>
    ensures { result ≡ one_train plan.now box_no words.now }
{
    train_in(plan, box_no, third_word(words)?)
}

// The calls of an incoming line.
#[derive(Clone, Copy)]
enum LineWord {
    AwaitTrain,
    Berth,
    BerthPart,
    ClearPortion,
    Wind,
    Release,
}

// The calls, by the word of each.
#[derive(Clone, Copy)]
enum ActWord {
    Ring,
    Hear,
    AwaitBell,
    Turn,
    AwaitBlock,
    Pull,
    Put,
    Pass,
    Overrun,
    Bring,
    Line(LineWord),
}

// The call in the first of these rows with this word.
fn word_named(rows: &[(&'static str, ActWord)], word: &[u8]) -> Option<ActWord>
    ensures { result ≡ row_named (map (λ row. (row.0.now, row.1)) rows.now) word.now }
{
    for row in rows {
        if word == row.0.as_bytes() {
            return Some(row.1);
        }
    }
    None
}

// The call of this word.
fn act_word(word: &[u8]) -> Option<ActWord>
    ensures { result ≡ row_named act_rows word.now }
{
    let rows = [
        ("ring", ActWord::Ring),
        ("hear", ActWord::Hear),
        ("await_bell", ActWord::AwaitBell),
        ("turn", ActWord::Turn),
        ("await_block", ActWord::AwaitBlock),
        ("pull", ActWord::Pull),
        ("put", ActWord::Put),
        ("pass", ActWord::Pass),
        ("overrun", ActWord::Overrun),
        ("bring", ActWord::Bring),
        ("await_train", ActWord::Line(LineWord::AwaitTrain)),
        ("berth", ActWord::Line(LineWord::Berth)),
        ("berth_part", ActWord::Line(LineWord::BerthPart)),
        ("clear_portion", ActWord::Line(LineWord::ClearPortion)),
        ("wind", ActWord::Line(LineWord::Wind)),
        ("release", ActWord::Line(LineWord::Release)),
    ];
    word_named(&rows, word)
}

// A call of an incoming line.
fn line_act(word: LineWord, way: Way) -> Act
    ensures { result ≡ way_act word way }
{
    match word {
        LineWord::AwaitTrain => Act::AwaitTrain { way },
        LineWord::Berth => Act::Berth { way },
        LineWord::BerthPart => Act::BerthPart { way },
        LineWord::ClearPortion => Act::ClearPortion { way },
        LineWord::Wind => Act::Wind { way },
        LineWord::Release => Act::Release { way },
    }
}

// What a line with such a call says behind its word.
fn worded_act(plan: &Plan, box_no: u32, words: &LineWords<'_>, word: ActWord) -> Result<Act, Cause>
    requires { box_no < length plan.now.boxes }
    ensures { result ≡ worded_act plan.now box_no words.now word }
{
    match word {
        ActWord::Ring => {
            let (side, code) = side_and_code(plan, box_no, words)?;
            Ok(Act::Ring { side, code })
        }
        ActWord::Hear => {
            let side = one_side(plan, box_no, words)?;
            Ok(Act::Hear { side })
        }
        ActWord::AwaitBell => {
            let (side, code) = side_and_code(plan, box_no, words)?;
            Ok(Act::AwaitBell { side, code })
        }
        ActWord::Turn => {
            let (way, position) = berth_and_position(plan, box_no, words)?;
            Ok(Act::Turn { way, position })
        }
        ActWord::AwaitBlock => {
            let (way, position) = outgoing_and_position(plan, box_no, words)?;
            Ok(Act::AwaitBlock { way, position })
        }
        ActWord::Pull => {
            let lever = one_lever(plan, box_no, words)?;
            Ok(Act::Pull { lever })
        }
        ActWord::Put => {
            let lever = one_lever(plan, box_no, words)?;
            Ok(Act::Put { lever })
        }
        ActWord::Pass => {
            let lever = one_arm(plan, box_no, words)?;
            Ok(Act::Pass { lever })
        }
        ActWord::Overrun => {
            let lever = one_arm(plan, box_no, words)?;
            Ok(Act::Overrun { lever })
        }
        ActWord::Bring => {
            let train = one_train(plan, box_no, words)?;
            Ok(Act::Bring { train })
        }
        ActWord::Line(line) => {
            let way = one_berth(plan, box_no, words)?;
            Ok(line_act(line, way))
        }
    }
}

// What the words of a line say behind the call's word.
fn named_act(plan: &Plan, box_no: u32, words: &LineWords<'_>, word: &[u8]) -> Result<Act, Cause>
    requires { box_no < length plan.now.boxes }
    ensures { result ≡ act_worded plan.now box_no words.now (row_named act_rows word.now) }
{
    match act_word(word) {
        Some(name) => worded_act(plan, box_no, words, name),
        None => Err(Cause::UnknownWord),
    }
}

/// What the words of a call behind its first say that a signalman does, or what is wrong with them first.
#[tactic(auto, unfolding(crate::specs::Acts::act_of))]
pub fn read_act(plan: &Plan, box_no: u32, words: &LineWords<'_>) -> Result<Act, Cause>
    requires { box_no < length plan.now.boxes }
    ensures { result ≡ act_of plan.now box_no words.now }
{
    match words.word(1) {
        Some(word) => named_act(plan, box_no, words, word),
        None => Err(Cause::UnknownWord),
    }
}
