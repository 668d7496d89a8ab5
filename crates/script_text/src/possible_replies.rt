//! Which replies a call may have.

ghost use Rattle.std.specs.Prelude.{◌≡◌};
ghost use Rattle.script_text.specs.PossibleReplies.{answers_await_bell, answers_await_block, answers_await_train};
ghost use Rattle.script_text.specs.PossibleReplies.{answers_berth, answers_berth_part, answers_bring};
ghost use Rattle.script_text.specs.PossibleReplies.{answers_clear_portion, answers_hear, answers_move, answers_overrun};
ghost use Rattle.script_text.specs.PossibleReplies.{answers_pass, answers_pull, answers_put, answers_release};
ghost use Rattle.script_text.specs.PossibleReplies.{answers_ring, answers_turn, answers_wind, may_answer};
ghost use Rattle.script_text.specs.PossibleReplies.{refuses_berth};

use line_law::{Act, Reply};

fn answers_ring(reply: &Reply) -> bool
    ensures { result ≡ answers_ring reply.now }
{
    matches!(*reply, Reply::Rung { .. } | Reply::BellBusy { .. })
}

fn answers_hear(reply: &Reply) -> bool
    ensures { result ≡ answers_hear reply.now }
{
    matches!(*reply, Reply::Heard { .. } | Reply::Silent { .. })
}

fn answers_await_bell(reply: &Reply) -> bool
    ensures { result ≡ answers_await_bell reply.now }
{
    matches!(*reply, Reply::Heard { .. } | Reply::BellNotYet { .. })
}

fn answers_turn(reply: &Reply) -> bool
    ensures { result ≡ answers_turn reply.now }
{
    matches!(
        *reply,
        Reply::Turned { .. }
            | Reply::AlreadyThere
            | Reply::NotFromNormal
            | Reply::HomeReversed { .. }
            | Reply::TrackOccupied { .. }
            | Reply::WelwynHolds { .. }
            | Reply::CountFull { .. }
    )
}

fn answers_await_block(reply: &Reply) -> bool
    ensures { result ≡ answers_await_block reply.now }
{
    matches!(*reply, Reply::Seen { .. } | Reply::BlockNotYet { .. })
}

fn answers_pull(reply: &Reply) -> bool
    ensures { result ≡ answers_pull reply.now }
{
    matches!(
        *reply,
        Reply::Pulled
            | Reply::PulledUnder { .. }
            | Reply::AlreadyReversed
            | Reply::Spare
            | Reply::HeldByLever { .. }
            | Reply::HeldByTrack { .. }
            | Reply::HeldByInstrument { .. }
    )
}

fn answers_put(reply: &Reply) -> bool
    ensures { result ≡ answers_put reply.now }
{
    matches!(
        *reply,
        Reply::Put | Reply::AlreadyNormal | Reply::HeldByLever { .. } | Reply::HeldByTrack { .. }
    )
}

fn answers_bring(reply: &Reply) -> bool
    ensures { result ≡ answers_bring reply.now }
{
    matches!(
        *reply,
        Reply::Brought | Reply::AlreadyBrought | Reply::Occupied { .. }
    )
}

// What a train may be answered at a signal, whether its arm is off or not.
fn answers_move(reply: &Reply) -> bool
    ensures { result ≡ answers_move reply.now }
{
    matches!(
        *reply,
        Reply::Passed { .. }
            | Reply::Entered { .. }
            | Reply::NoTrain
            | Reply::Occupied { .. }
            | Reply::SectionFull { .. }
    )
}

fn answers_pass(reply: &Reply) -> bool
    ensures { result ≡ answers_pass reply.now }
{
    matches!(*reply, Reply::AtDanger) || answers_move(reply)
}

fn answers_overrun(reply: &Reply) -> bool
    ensures { result ≡ answers_overrun reply.now }
{
    matches!(*reply, Reply::ArmOff) || answers_move(reply)
}

fn answers_await_train(reply: &Reply) -> bool
    ensures { result ≡ answers_await_train reply.now }
{
    matches!(
        *reply,
        Reply::Approaching { .. } | Reply::TrainNotYet { .. }
    )
}

// The refusals of a train at a berth.
fn refuses_berth(reply: &Reply) -> bool
    ensures { result ≡ refuses_berth reply.now }
{
    matches!(
        *reply,
        Reply::PortionAhead { .. } | Reply::BerthOccupied { .. } | Reply::NoTrainAt { .. }
    )
}

fn answers_berth(reply: &Reply) -> bool
    ensures { result ≡ answers_berth reply.now }
{
    matches!(*reply, Reply::Berthed { .. }) || refuses_berth(reply)
}

fn answers_berth_part(reply: &Reply) -> bool
    ensures { result ≡ answers_berth_part reply.now }
{
    matches!(*reply, Reply::PartBerthed { .. }) || refuses_berth(reply)
}

fn answers_clear_portion(reply: &Reply) -> bool
    ensures { result ≡ answers_clear_portion reply.now }
{
    matches!(*reply, Reply::Cleared { .. } | Reply::NoPortion)
}

fn answers_wind(reply: &Reply) -> bool
    ensures { result ≡ answers_wind reply.now }
{
    matches!(
        *reply,
        Reply::Winding { .. } | Reply::AlreadyWinding | Reply::NotAtNormal
    )
}

fn answers_release(reply: &Reply) -> bool
    ensures { result ≡ answers_release reply.now }
{
    matches!(
        *reply,
        Reply::Released | Reply::NotWinding | Reply::TooSoon { .. }
    )
}

/// Whether the reply is one that such a call may have, whatever its line, lever or train.
#[tactic(auto, unfolding(crate::specs::PossibleReplies::may_answer))]
pub fn may_answer(act: Act, reply: &Reply) -> bool
    ensures { result ≡ may_answer act reply.now }
{
    match act {
        Act::Ring { .. } => answers_ring(reply),
        Act::Hear { .. } => answers_hear(reply),
        Act::AwaitBell { .. } => answers_await_bell(reply),
        Act::Turn { .. } => answers_turn(reply),
        Act::AwaitBlock { .. } => answers_await_block(reply),
        Act::Pull { .. } => answers_pull(reply),
        Act::Put { .. } => answers_put(reply),
        Act::Bring { .. } => answers_bring(reply),
        Act::Pass { .. } => answers_pass(reply),
        Act::Overrun { .. } => answers_overrun(reply),
        Act::AwaitTrain { .. } => answers_await_train(reply),
        Act::Berth { .. } => answers_berth(reply),
        Act::BerthPart { .. } => answers_berth_part(reply),
        Act::ClearPortion { .. } => answers_clear_portion(reply),
        Act::Wind { .. } => answers_wind(reply),
        Act::Release { .. } => answers_release(reply),
    }
}
