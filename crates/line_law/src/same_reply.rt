//! When two replies are the same: they are of one kind, and tell the same numbers.

ghost use Rattle.std.specs.Prelude.{◌≡◌, ◌==◌, ◌↔◌, IsTrue};
ghost use Rattle.std.proofs.Common.{rules};
ghost use Rattle.std.specs.Cmp.Lexicographic.{pointwise};
ghost use Rattle.std.specs.Cmp.Rules.{comparing};
ghost use Rattle.std.specs.Ordering.{on};
ghost use Rattle.block_words.specs.Instruments.{position_code};
ghost use Rattle.line_law.specs.Replies.{mark_number, reply_numbers, same_reply, shown_code, way_number, welwyn_number};

use crate::call::Reply;
use bell_codes::CodeNo;
use block_words::{Position, Way, WelwynState};

fn welwyn_number(state: WelwynState) -> u64
    ensures { result ≡ welwyn_number state }
{
    match state {
        WelwynState::Ready => 0,
        WelwynState::Given => 1,
        WelwynState::Berthed => 2,
    }
}

fn position_number(position: Position) -> u64
    ensures { result ≡ position_code position }
{
    match position {
        Position::Normal => 0,
        Position::LineClear => 1,
        Position::TrainOnLine => 2,
    }
}

fn way_number(way: Way) -> u64
    ensures { result ≡ way_number way }
{
    match way {
        Way::Up => 0,
        Way::Down => 1,
    }
}

fn mark_number(mark: bool) -> u64
    ensures { result ≡ mark_number mark }
{
    if mark { 1 } else { 0 }
}

fn shown_code(shown: Option<CodeNo>) -> u64
    ensures { result ≡ shown_code shown }
{
    match shown {
        Some(code) => u64::from(code) + 1,
        None => 0,
    }
}

impl Reply {
    // Which of the replies it is, numbered in their order from 0; then the numbers that it tells, with 0 for each that
    // it tells less than four.
    #[inline(always)]
    fn numbers(&self) -> [u64; 5]
        ensures { result ≡ reply_numbers self.now }
    {
        match *self {
            Reply::Rung { k } => [0, k, 0, 0, 0],
            Reply::BellBusy { k, code } => [1, k, u64::from(code), 0, 0],
            Reply::Heard { k, code } => [2, k, u64::from(code), 0, 0],
            Reply::Silent { k } => [3, k, 0, 0, 0],
            Reply::BellNotYet { k, shown } => [4, k, shown_code(shown), 0, 0],
            Reply::Turned { v } => [5, v, 0, 0, 0],
            Reply::AlreadyThere => [6, 0, 0, 0, 0],
            Reply::NotFromNormal => [7, 0, 0, 0, 0],
            Reply::HomeReversed { lever } => [8, u64::from(lever), 0, 0, 0],
            Reply::TrackOccupied { place, train } => [9, u64::from(place), u64::from(train), 0, 0],
            Reply::WelwynHolds { state } => [10, welwyn_number(state), 0, 0, 0],
            Reply::CountFull { out } => [11, u64::from(out), 0, 0, 0],
            Reply::Seen { v } => [12, v, 0, 0, 0],
            Reply::BlockNotYet { v, shown } => [13, v, position_number(shown), 0, 0],
            Reply::Pulled => [14, 0, 0, 0, 0],
            Reply::PulledUnder { v } => [15, v, 0, 0, 0],
            Reply::AlreadyReversed => [16, 0, 0, 0, 0],
            Reply::Spare => [17, 0, 0, 0, 0],
            Reply::HeldByLever { lever, row } => [18, u64::from(lever), u64::from(row), 0, 0],
            Reply::HeldByTrack { place, train } => [19, u64::from(place), u64::from(train), 0, 0],
            Reply::HeldByInstrument {
                way,
                v,
                shown,
                spent,
            } => [
                20,
                way_number(way),
                v,
                position_number(shown),
                mark_number(spent),
            ],
            Reply::Put => [21, 0, 0, 0, 0],
            Reply::AlreadyNormal => [22, 0, 0, 0, 0],
            Reply::Brought => [23, 0, 0, 0, 0],
            Reply::AlreadyBrought => [24, 0, 0, 0, 0],
            Reply::Occupied { place, train } => [25, u64::from(place), u64::from(train), 0, 0],
            Reply::Passed { train } => [26, u64::from(train), 0, 0, 0],
            Reply::Entered { k, train } => [27, k, u64::from(train), 0, 0],
            Reply::NoTrain => [28, 0, 0, 0, 0],
            Reply::AtDanger => [29, 0, 0, 0, 0],
            Reply::ArmOff => [30, 0, 0, 0, 0],
            Reply::SectionFull { k } => [31, k, 0, 0, 0],
            Reply::Approaching { j, train } => [32, j, u64::from(train), 0, 0],
            Reply::TrainNotYet { j } => [33, j, 0, 0, 0],
            Reply::Berthed { j, train } => [34, j, u64::from(train), 0, 0],
            Reply::PartBerthed { j, train } => [35, j, u64::from(train), 0, 0],
            Reply::NoTrainAt { j } => [36, j, 0, 0, 0],
            Reply::BerthOccupied { train } => [37, u64::from(train), 0, 0, 0],
            Reply::PortionAhead { train } => [38, u64::from(train), 0, 0, 0],
            Reply::Cleared { j, train } => [39, j, u64::from(train), 0, 0],
            Reply::NoPortion => [40, 0, 0, 0, 0],
            Reply::Winding { ready_at } => [41, u64::from(ready_at), 0, 0, 0],
            Reply::AlreadyWinding => [42, 0, 0, 0, 0],
            Reply::NotAtNormal => [43, 0, 0, 0, 0],
            Reply::Released => [44, 0, 0, 0, 0],
            Reply::NotWinding => [45, 0, 0, 0, 0],
            Reply::TooSoon { ready_at } => [46, u64::from(ready_at), 0, 0, 0],
        }
    }

    /// Whether the other reply is this one, in its kind and in all that it tells.
    #[inline(always)]
    pub fn is_same(&self, other: &Reply) -> bool
        ensures same { result ≡ same_reply self.now other.now }
        ensures one { IsTrue result ↔ (self.now ≡ other.now) }
    {
        self.numbers() == other.numbers()
    }
}

impl PartialEq for Reply {
    ghost eq = { on reply_numbers (pointwise ◌==◌) };

    ghost laws = { Prim.search (comparing, rules) };

    fn eq(&self, other: &Reply) -> bool {
        self.is_same(other)
    }
}

impl Eq for Reply {
    ghost laws = { Prim.search (comparing, rules) };
}
