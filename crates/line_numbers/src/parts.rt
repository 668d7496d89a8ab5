//! The numbers of the parts of calls, replies and things.

ghost use Rattle.std.specs.Prelude.{◌≡◌};
ghost use Rattle.block_words.specs.Instruments.{position_code};
ghost use Rattle.line_law.specs.Replies.{mark_number, way_number, welwyn_number};
ghost use Rattle.line_numbers.specs.Parts.{code_of, number_if, position_of, way_of};

use bell_codes::CodeNo;
use block_words::{Position, Way, WelwynState};

/// The number of a way.
pub fn way_number(way: Way) -> u32
    ensures { result ≡ way_number way }
{
    match way {
        Way::Up => 0,
        Way::Down => 1,
    }
}

/// The number of a position.
pub fn position_number(position: Position) -> u32
    ensures { result ≡ position_code position }
{
    match position {
        Position::Normal => 0,
        Position::LineClear => 1,
        Position::TrainOnLine => 2,
    }
}

/// The number of a Welwyn state.
pub fn welwyn_number(state: WelwynState) -> u32
    ensures { result ≡ welwyn_number state }
{
    match state {
        WelwynState::Ready => 0,
        WelwynState::Given => 1,
        WelwynState::Berthed => 2,
    }
}

/// The number of a mark: 1 where it is set.
pub fn mark_number(mark: bool) -> u32
    ensures { result ≡ mark_number mark }
{
    if mark { 1 } else { 0 }
}

/// The number of a code that may be there: 0 for none.
pub fn code_if(code: Option<CodeNo>) -> u32
    ensures { result ≡ number_if code }
{
    match code {
        Some(code) => u32::from(code),
        None => 0,
    }
}

/// The number of a train that may be there: 0 for none.
pub fn train_if(train: Option<u32>) -> u32
    ensures { result ≡ number_if train }
{
    match train {
        Some(train) => train,
        None => 0,
    }
}

/// The way of a number. A number that no way has is read as one too.
pub fn way_of(number: u32) -> Way
    ensures { result ≡ way_of number }
{
    if number == 0 { Way::Up } else { Way::Down }
}

/// The position of a number. A number that no position has is read as one too.
pub fn position_of(number: u32) -> Position
    ensures { result ≡ position_of number }
{
    match number {
        0 => Position::Normal,
        1 => Position::LineClear,
        _ => Position::TrainOnLine,
    }
}

/// The code of a number. A number that no code has is read as one too.
pub fn code_of(number: u32) -> CodeNo
    ensures { result ≡ code_of number }
{
    (number % 256) as CodeNo
}
