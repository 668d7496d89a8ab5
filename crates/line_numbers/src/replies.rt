//! Replies in numbers.

ghost use Rattle.std.specs.Prelude.{◌≡◌};
ghost use Rattle.line_numbers.specs.ReplyParts.{done_number, reply_kind, reply_numbers, told, told_count, told_nothing};
ghost use Rattle.line_numbers.specs.ReplyParts.{told_otherwise, told_shown};

use crate::parts::{code_if, mark_number, position_number, way_number, welwyn_number};
use line_law::{Reply, is_refused};

/// A reply in numbers: its kind, whether what was asked for is done, and what it tells. A field that it doesn't tell is
/// 0; the kind says which it tells.
///
/// | `kind` | The reply | What it tells |
/// |---|---|---|
/// | 0 | rung | `count` |
/// | 1 | the bell is busy | `shown` (the code), `count` |
/// | 2 | heard | `shown` (the code), `count` |
/// | 3 | the bell is silent | `count` |
/// | 4 | the bell not yet | `shown` (the code), `count` |
/// | 5 | turned | `count` |
/// | 6 | the commutator is there already | |
/// | 7 | Line Clear is turned to from Normal alone | |
/// | 8 | a home lever is reversed | `lever` |
/// | 9 | the track is occupied | `place`, `train` |
/// | 10 | Welwyn control holds the commutator | `shown` (the state) |
/// | 11 | as many trains are out as may be | `count` |
/// | 12 | seen | `count` |
/// | 13 | the instrument not yet | `shown` (the position), `count` |
/// | 14 | pulled | |
/// | 15 | pulled under a Line Clear | `count` |
/// | 16 | the lever is reversed already | |
/// | 17 | the lever is a spare one | |
/// | 18 | held by a lever | `lever`, `row` |
/// | 19 | held by a track circuit | `place`, `train` |
/// | 20 | held by the instrument | `way`, `shown` (the position), `spent`, `count` |
/// | 21 | put back | |
/// | 22 | the lever is normal already | |
/// | 23 | brought | |
/// | 24 | the train was brought before | |
/// | 25 | a train stands in the way | `place`, `train` |
/// | 26 | passed | `train` |
/// | 27 | entered the section | `train`, `count` |
/// | 28 | no train at the signal | |
/// | 29 | the arm is at danger | |
/// | 30 | the arm is off | |
/// | 31 | the plain line is full | `count` |
/// | 32 | approaching | `train`, `count` |
/// | 33 | the train not yet | `count` |
/// | 34 | berthed | `train`, `count` |
/// | 35 | berthed in part | `train`, `count` |
/// | 36 | no train on the plain line | `count` |
/// | 37 | the berth is occupied | `train` |
/// | 38 | a portion is ahead | `train` |
/// | 39 | the portion is cleared | `train`, `count` |
/// | 40 | no portion is left | |
/// | 41 | winding | `moment` |
/// | 42 | the winding has begun | |
/// | 43 | the commutator isn't at Normal | |
/// | 44 | released | |
/// | 45 | no winding has begun | |
/// | 46 | too soon | `moment` |
#[repr(C)]
#[derive(Clone, Copy, Debug, PartialEq, Eq)]
pub struct ReplyNumbers {
    /// The count of codes, turns or trains.
    pub count: u64,
    /// Which of the replies it is.
    pub kind: u32,
    /// 1 where what was asked for is done, else 0.
    pub done: u32,
    /// The lever that is named.
    pub lever: u32,
    /// The row of the locking table, from 1.
    pub row: u32,
    /// The place in the box, from 0.
    pub place: u32,
    /// The train, from 1.
    pub train: u32,
    /// What is shown: a code (0 for none), a position or a Welwyn state, by the kind.
    pub shown: u32,
    /// The way, 0 up, 1 down.
    pub way: u32,
    /// 1 where the instrument was spent.
    pub spent: u32,
    /// The moment at which a release may come.
    pub moment: u32,
}

// Which of the replies it is, in their order from 0.
fn reply_kind(reply: Reply) -> u32
    ensures { result ≡ reply_kind reply }
{
    match reply {
        Reply::Rung { .. } => 0,
        Reply::BellBusy { .. } => 1,
        Reply::Heard { .. } => 2,
        Reply::Silent { .. } => 3,
        Reply::BellNotYet { .. } => 4,
        Reply::Turned { .. } => 5,
        Reply::AlreadyThere => 6,
        Reply::NotFromNormal => 7,
        Reply::HomeReversed { .. } => 8,
        Reply::TrackOccupied { .. } => 9,
        Reply::WelwynHolds { .. } => 10,
        Reply::CountFull { .. } => 11,
        Reply::Seen { .. } => 12,
        Reply::BlockNotYet { .. } => 13,
        Reply::Pulled => 14,
        Reply::PulledUnder { .. } => 15,
        Reply::AlreadyReversed => 16,
        Reply::Spare => 17,
        Reply::HeldByLever { .. } => 18,
        Reply::HeldByTrack { .. } => 19,
        Reply::HeldByInstrument { .. } => 20,
        Reply::Put => 21,
        Reply::AlreadyNormal => 22,
        Reply::Brought => 23,
        Reply::AlreadyBrought => 24,
        Reply::Occupied { .. } => 25,
        Reply::Passed { .. } => 26,
        Reply::Entered { .. } => 27,
        Reply::NoTrain => 28,
        Reply::AtDanger => 29,
        Reply::ArmOff => 30,
        Reply::SectionFull { .. } => 31,
        Reply::Approaching { .. } => 32,
        Reply::TrainNotYet { .. } => 33,
        Reply::Berthed { .. } => 34,
        Reply::PartBerthed { .. } => 35,
        Reply::NoTrainAt { .. } => 36,
        Reply::BerthOccupied { .. } => 37,
        Reply::PortionAhead { .. } => 38,
        Reply::Cleared { .. } => 39,
        Reply::NoPortion => 40,
        Reply::Winding { .. } => 41,
        Reply::AlreadyWinding => 42,
        Reply::NotAtNormal => 43,
        Reply::Released => 44,
        Reply::NotWinding => 45,
        Reply::TooSoon { .. } => 46,
    }
}

// Whether what was asked for is done: 1 where it is.
fn done_number(reply: Reply) -> u32
    ensures { result ≡ done_number reply }
{
    if is_refused(&reply) { 0 } else { 1 }
}

// Numbers that tell nothing.
fn told_nothing() -> ReplyNumbers
    ensures { result ≡ told_nothing }
{
    ReplyNumbers {
        count: 0,
        kind: 0,
        done: 0,
        lever: 0,
        row: 0,
        place: 0,
        train: 0,
        shown: 0,
        way: 0,
        spent: 0,
        moment: 0,
    }
}

// What a reply without a count tells.
fn told_otherwise(reply: Reply) -> ReplyNumbers
    ensures { result ≡ told_otherwise reply }
{
    let nothing = told_nothing();
    match reply {
        Reply::HomeReversed { lever } => ReplyNumbers { lever, ..nothing },
        Reply::HeldByLever { lever, row } => ReplyNumbers {
            lever,
            row,
            ..nothing
        },
        Reply::TrackOccupied { place, train }
        | Reply::HeldByTrack { place, train }
        | Reply::Occupied { place, train } => ReplyNumbers {
            place,
            train,
            ..nothing
        },
        Reply::Passed { train } | Reply::BerthOccupied { train } | Reply::PortionAhead { train } =>
            ReplyNumbers { train, ..nothing },
        Reply::WelwynHolds { state } => ReplyNumbers {
            shown: welwyn_number(state),
            ..nothing
        },
        Reply::Winding { ready_at } | Reply::TooSoon { ready_at } => ReplyNumbers {
            moment: ready_at,
            ..nothing
        },
        _ => nothing,
    }
}

// Numbers that tell a count alone.
fn told_count(count: u64) -> ReplyNumbers
    ensures { result ≡ told_count count }
{
    ReplyNumbers {
        count,
        ..told_nothing()
    }
}

// A count, and what a bell or an instrument shows.
fn told_shown(count: u64, shown: u32) -> ReplyNumbers
    ensures { result ≡ told_shown count shown }
{
    ReplyNumbers {
        shown,
        ..told_count(count)
    }
}

// What a reply tells.
fn told(reply: Reply) -> ReplyNumbers
    ensures { result ≡ told reply }
{
    match reply {
        Reply::Rung { k } | Reply::Silent { k } | Reply::SectionFull { k } => told_count(k),
        Reply::Turned { v } | Reply::Seen { v } | Reply::PulledUnder { v } => told_count(v),
        Reply::TrainNotYet { j } | Reply::NoTrainAt { j } => told_count(j),
        Reply::CountFull { out } => told_count(u64::from(out)),
        Reply::BellBusy { code, k } | Reply::Heard { code, k } => told_shown(k, u32::from(code)),
        Reply::BellNotYet { shown, k } => told_shown(k, code_if(shown)),
        Reply::BlockNotYet { shown, v } => told_shown(v, position_number(shown)),
        Reply::HeldByInstrument {
            way,
            shown,
            spent,
            v,
        } => ReplyNumbers {
            way: way_number(way),
            spent: mark_number(spent),
            ..told_shown(v, position_number(shown))
        },
        Reply::Entered { train, k } => ReplyNumbers {
            train,
            ..told_count(k)
        },
        Reply::Approaching { train, j }
        | Reply::Berthed { train, j }
        | Reply::PartBerthed { train, j }
        | Reply::Cleared { train, j } => ReplyNumbers {
            train,
            ..told_count(j)
        },
        _ => told_otherwise(reply),
    }
}

/// The numbers of a reply.
pub fn reply_numbers(reply: &Reply) -> ReplyNumbers
    ensures { result ≡ reply_numbers reply.now }
{
    ReplyNumbers {
        kind: reply_kind(*reply),
        done: done_number(*reply),
        ..told(*reply)
    }
}
