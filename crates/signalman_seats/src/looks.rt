//! The operations of a call on its shared word.

ghost use Rattle.std.specs.Prelude.{◌≡◌, ◌<◌, ◌≤◌, ◌+◌, ◌^◌, true, false, IfSome};
ghost use Rattle.instrument_rule.specs.declared.view.View.{View};
ghost use Rattle.instrument_rule.specs.Calls.{MayStep, Sits};
ghost use Rattle.instrument_rule.specs.Posts.{plan_of, view_of};
ghost use Rattle.instrument_rule.specs.Views.{caller_of};
ghost use Rattle.signalman_seats.specs.Asking.{AsksAt, CameTo, Decided, HasShown, IsMissed, LookedOn};
ghost use Rattle.signalman_seats.specs.Men.{Answered, IsAtDesk};

use crate::pausing::Pauses;
use block_words::WordOp;
use box_desk::{Desk, Step, WordAsk};
use instrument_rule::{Line, Post};
use line_law::{Call, Reply};

// Judges what the first operation of a call has shown, and does the second where it is due. It gives the word as it
// stood before the operation that decided the call; where a look has decided nothing yet, the error is the number that
// it showed.
fn judge(
    post: &mut Post,
    line: &Line,
    desk: &Desk,
    ask: &WordAsk,
    shown: u64,
    last: bool,
) -> Result<u64, u64>
    requires line { post.old.seat.table_id ≡ line.now.table.shared.table_id }
    requires few { desk.now.calls < 2 ^ 32 }
    requires shown { (v : View) × HasShown (plan_of line.now) desk.now ask.now last v shown (view_of post.old) }
    ensures same { post.new.seat.table_id ≡ post.old.seat.table_id }
    ensures came { (v : View) → HasShown (plan_of line.now) desk.now ask.now last v shown (view_of post.old)
        → CameTo (plan_of line.now) ask.now last v result (view_of post.new) }
{
    if desk.met(ask, shown) {
        match ask.second {
            Some(second) => Ok(post.step(line, &ask.call, second, true)),
            None => Ok(shown),
        }
    } else if last {
        Ok(shown)
    } else {
        Err(shown)
    }
}

// The first operation of a call, which may be a look, and the second where it is then due.
fn look(post: &mut Post, line: &Line, desk: &Desk, ask: &WordAsk, last: bool) -> Result<u64, u64>
    requires line { post.old.seat.table_id ≡ line.now.table.shared.table_id }
    requires sits { Sits (plan_of line.now) (view_of post.old) }
    requires may { MayStep (plan_of line.now) ask.now.call (view_of post.old) }
    requires ask { AsksAt (plan_of line.now) (view_of post.old) desk.now ask.now }
    requires few { desk.now.calls < 2 ^ 32 }
    requires last { ask.now.awaits ≡ false → last ≡ true }
    ensures same { post.new.seat.table_id ≡ post.old.seat.table_id }
    ensures came { CameTo (plan_of line.now) ask.now last (view_of post.old) result (view_of post.new) }
{
    let shown = post.step(line, &ask.call, ask.first, last);
    judge(post, line, desk, ask, shown, last)
}

// Looks of an await whose word showed this number at the last, one after another: so many at most, and none after one
// that shows another number. It gives how many they were, and what they came to. None of them is the await's last.
fn look_on(
    post: &mut Post,
    line: &Line,
    desk: &Desk,
    ask: &WordAsk,
    unmet: u64,
    most: u32,
) -> (u32, Result<u64, u64>)
    requires line { post.old.seat.table_id ≡ line.now.table.shared.table_id }
    requires sits { Sits (plan_of line.now) (view_of post.old) }
    requires may { MayStep (plan_of line.now) ask.now.call (view_of post.old) }
    requires ask { AsksAt (plan_of line.now) (view_of post.old) desk.now ask.now }
    requires few { desk.now.calls < 2 ^ 32 }
    requires awaits { ask.now.awaits ≡ true }
    requires unmet { IsMissed (plan_of line.now) ask.now.call (view_of post.old) unmet }
    requires most { 0 < most }
    ensures same { post.new.seat.table_id ≡ post.old.seat.table_id }
    ensures some { (0 < result.0) × (result.0 ≤ most) }
    ensures came { LookedOn (plan_of line.now) ask.now.call (view_of post.old) result.0 result.1
        (view_of post.new) }
{
    let WordAsk { call, first, .. } = *ask;
    let place = post.place(line, &call, first);
    for taken in 0..most {
        let shown = post.look_at(line, place, &call, first);
        if shown != unmet {
            return (taken + 1, judge(post, line, desk, ask, shown, false));
        }
    }
    (most, Err(unmet))
}

// The next looks of an await, of which none is its last: one, or, where this number was shown and nobody else is at
// work, so many at most. It gives how many they were, and what they came to.
fn look_next(
    post: &mut Post,
    line: &Line,
    desk: &Desk,
    ask: &WordAsk,
    alone: Option<u64>,
    most: u32,
) -> (u32, Result<u64, u64>)
    requires line { post.old.seat.table_id ≡ line.now.table.shared.table_id }
    requires sits { Sits (plan_of line.now) (view_of post.old) }
    requires may { MayStep (plan_of line.now) ask.now.call (view_of post.old) }
    requires ask { AsksAt (plan_of line.now) (view_of post.old) desk.now ask.now }
    requires few { desk.now.calls < 2 ^ 32 }
    requires awaits { ask.now.awaits ≡ true }
    requires alone { IfSome alone (λ unmet. IsMissed (plan_of line.now) ask.now.call (view_of post.old) unmet) }
    requires most { 0 < most }
    ensures same { post.new.seat.table_id ≡ post.old.seat.table_id }
    ensures some { (0 < result.0) × (result.0 ≤ most) }
    ensures came { LookedOn (plan_of line.now) ask.now.call (view_of post.old) result.0 result.1
        (view_of post.new) }
{
    match alone {
        Some(unmet) => look_on(post, line, desk, ask, unmet, most),
        None => (1, look(post, line, desk, ask, false)),
    }
}

// What comes after an unmet look, so many having been taken: a pause, or, where nobody else is at work, the number that
// it showed.
fn rest<P: Pauses>(pauses: &P, taken: u32, unmet: u64) -> Option<u64>
    ensures { IfSome result (λ shown. shown ≡ unmet) }
{
    if pauses.is_alone(taken) {
        return Some(unmet);
    }
    pauses.pause(taken);
    None
}

/// What the operations of a call on its word came to: the word as it stood before the one that decided the call, and
/// how many looks were taken.
pub struct DecidingWord {
    pub word: u64,
    pub looks: u32,
}

// Does the operations of a call on its word, of an await look after look, so many at most.
fn decide<P: Pauses>(
    post: &mut Post,
    line: &Line,
    desk: &Desk,
    ask: &WordAsk,
    looks: u32,
    pauses: &P,
) -> DecidingWord
    requires line { post.old.seat.table_id ≡ line.now.table.shared.table_id }
    requires sits { Sits (plan_of line.now) (view_of post.old) }
    requires may { MayStep (plan_of line.now) ask.now.call (view_of post.old) }
    requires ask { AsksAt (plan_of line.now) (view_of post.old) desk.now ask.now }
    requires few { desk.now.calls < 2 ^ 32 }
    requires looks { 0 < looks }
    ensures same { post.new.seat.table_id ≡ post.old.seat.table_id }
    ensures counted { (view_of post.new).looks ≡ (view_of post.old).looks + result.looks }
    ensures decided { Decided (plan_of line.now) ask.now.call looks (view_of post.old) result.word
        (view_of post.new) }
{
    let mut left = if ask.awaits { looks } else { 1 };
    let mut alone = None;
    while left > 1 {
        let (taken, found) = look_next(post, line, desk, ask, alone, left - 1);
        left -= taken;
        match found {
            Ok(word) => {
                let looks = looks - left;
                pauses.ended(looks);
                return DecidingWord { word, looks };
            }
            Err(unmet) => alone = rest(pauses, looks - left, unmet),
        }
    }
    let word = look(post, line, desk, ask, true).unwrap();
    if ask.awaits {
        pauses.ended(looks);
        DecidingWord { word, looks }
    } else {
        DecidingWord { word, looks: 0 }
    }
}

/// What a call was answered, after how many looks.
pub struct Answer {
    pub reply: Reply,
    pub looks: u32,
}

/// Does one call of the post's box, at its desk and on its word, and gives the reply.
pub fn work<P: Pauses>(
    post: &mut Post,
    line: &Line,
    desk: &mut Desk,
    call: &Call,
    looks: u32,
    pauses: &P,
) -> Answer
    requires line { post.old.seat.table_id ≡ line.now.table.shared.table_id }
    requires sits { Sits (plan_of line.now) (view_of post.old) }
    requires may { MayStep (plan_of line.now) call.now (view_of post.old) }
    requires desk { IsAtDesk (plan_of line.now) (caller_of (view_of post.old).posts) (view_of post.old).seen
        desk.old }
    requires few { desk.old.calls < 2 ^ 32 }
    requires looks { 0 < looks }
    ensures same { post.new.seat.table_id ≡ post.old.seat.table_id }
    ensures counted { (view_of post.new).looks ≡ (view_of post.old).looks + result.looks }
    ensures answered { Answered (plan_of line.now) call.now looks result.reply (view_of post.old)
        (view_of post.new) desk.new }
    ensures calls { desk.new.calls ≡ desk.old.calls + 1 }
{
    match desk.prepare(call) {
        Step::Local(reply) => {
            post.step(line, call, WordOp::Local, true);
            Answer { reply, looks: 0 }
        }
        Step::NeedsWord(ask) => {
            let DecidingWord { word, looks } = decide(post, line, desk, &ask, looks, pauses);
            let reply = desk.finish(ask, word);
            Answer { reply, looks }
        }
    }
}
