//! The marks that entries leave on their words.

ghost use Rattle.std.specs.Prelude.{◌≡◌};
ghost use Rattle.line_races.specs.Marks.{
  is_await,
  is_turned,
  kept_by,
  made_by,
  mark_awaited,
  mark_ended,
  mark_left,
  mark_missed,
};

use block_words::Position;
use line_law::{Act, Reply};

/// What an entry leaves on its word, by its number, for the man at the other end to come upon.
#[derive(Clone, Copy, Debug, PartialEq, Eq)]
pub enum Mark {
    /// A code was rung.
    RungAs(u64),
    /// The bell was found busy.
    BusyAt(u64),
    /// A code was heard.
    HeardAs(u64),
    /// The bell was listened to in vain.
    InVainAt(u64),
    /// An instrument was turned.
    TurnedAs(u64),
    /// An instrument was looked at, or a starter was pulled under it or held by it.
    UsedAt(u64),
    /// A train entered its section.
    EnteredAs(u64),
    /// The plain line was full until this train had left it.
    FullUntil(u64),
    /// The train wasn't found on the plain line.
    NoneAt(u64),
    /// The train has left the plain line.
    LeftAs(u64),
    /// An instrument was turned from this position.
    TurnedFrom(Position),
}

/// The mark that an entry leaves by its reply.
pub fn mark_left(reply: Reply) -> Option<Mark>
    ensures { result ≡ mark_left reply }
{
    match reply {
        Reply::Rung { k } => Some(Mark::RungAs(k)),
        Reply::BellBusy { k, code: _ } => Some(Mark::BusyAt(k)),
        Reply::Heard { k, code: _ } => Some(Mark::HeardAs(k)),
        Reply::Silent { k } | Reply::BellNotYet { k, shown: _ } => Some(Mark::InVainAt(k)),
        Reply::Turned { v } => Some(Mark::TurnedAs(v)),
        Reply::Seen { v }
        | Reply::BlockNotYet { v, shown: _ }
        | Reply::PulledUnder { v }
        | Reply::HeldByInstrument {
            way: _,
            v,
            shown: _,
            spent: _,
        } => Some(Mark::UsedAt(v)),
        Reply::Entered { k, train: _ } => Some(Mark::EnteredAs(k)),
        Reply::SectionFull { k } => Some(Mark::FullUntil(k.saturating_sub(4))),
        Reply::TrainNotYet { j } | Reply::NoTrainAt { j } => Some(Mark::NoneAt(j)),
        Reply::Berthed { j, train: _ } | Reply::Cleared { j, train: _ } => Some(Mark::LeftAs(j)),
        _ => None,
    }
}

/// The mark that made a reply possible.
pub fn made_by(reply: Reply) -> Option<Mark>
    ensures { result ≡ made_by reply }
{
    match reply {
        Reply::Heard { k, code: _ } => Some(Mark::RungAs(k)),
        Reply::Rung { k } => Some(Mark::HeardAs(k.saturating_sub(1))),
        Reply::Seen { v } | Reply::PulledUnder { v } => Some(Mark::TurnedAs(v)),
        Reply::Approaching { j, train: _ }
        | Reply::Berthed { j, train: _ }
        | Reply::PartBerthed { j, train: _ }
        | Reply::Cleared { j, train: _ } => Some(Mark::EnteredAs(j)),
        Reply::Entered { k, train: _ } => Some(Mark::LeftAs(k.saturating_sub(4))),
        _ => None,
    }
}

/// The mark that can't come behind a reply without being another one.
pub fn kept_by(reply: Reply) -> Option<Mark>
    ensures { result ≡ kept_by reply }
{
    match reply {
        Reply::Rung { k } => Some(Mark::InVainAt(k.saturating_sub(1))),
        Reply::Heard { k, code: _ } => Some(Mark::BusyAt(k)),
        Reply::BellNotYet { k, shown: _ } => Some(Mark::RungAs(k)),
        Reply::HeldByInstrument {
            way: _,
            v,
            shown: _,
            spent: _,
        }
        | Reply::BlockNotYet { v, shown: _ } => Some(Mark::TurnedAs(v)),
        Reply::Turned { v } => Some(Mark::UsedAt(v.saturating_sub(1))),
        Reply::Entered { k, train: _ } => Some(Mark::NoneAt(k)),
        Reply::Berthed { j, train: _ } | Reply::Cleared { j, train: _ } => {
            Some(Mark::FullUntil(j))
        }
        _ => None,
    }
}

/// Whether a reply tells of a turn.
pub fn is_turned(reply: Reply) -> bool
    ensures { result ≡ is_turned reply }
{
    match reply {
        Reply::Turned { v: _ } => true,
        _ => false,
    }
}

/// The mark of a turn that ends this position.
pub fn mark_ended(position: Position, reply: Reply) -> Option<Mark>
    ensures { result ≡ mark_ended position reply }
{
    match reply {
        Reply::Turned { v: _ } => Some(Mark::TurnedFrom(position)),
        _ => None,
    }
}

// The mark of a turn that ends the position for which a call waits.
fn mark_awaited(act: Act) -> Option<Mark>
    ensures { result ≡ mark_awaited act }
{
    match act {
        Act::AwaitBlock { way: _, position } => Some(Mark::TurnedFrom(position)),
        _ => None,
    }
}

/// The mark of a turn that ends the position which an await saw.
pub fn mark_missed(act: Act, reply: Reply) -> Option<Mark>
    ensures { result ≡ mark_missed act reply }
{
    match reply {
        Reply::Seen { v: _ } => mark_awaited(act),
        _ => None,
    }
}

/// Whether the man waits at this call.
pub fn is_await(act: Act) -> bool
    ensures { result ≡ is_await act }
{
    match act {
        Act::AwaitBell { side: _, code: _ }
        | Act::AwaitBlock {
            way: _,
            position: _,
        }
        | Act::AwaitTrain { way: _ } => true,
        _ => false,
    }
}
