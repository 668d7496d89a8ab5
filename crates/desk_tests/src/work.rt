//! One call of a desk, over words that are plain numbers.

ghost use Rattle.std.specs.Prelude.{◌≡◌, ℕ, List, length};
ghost use Rattle.desk_tests.specs.DeskLines.{Asks, HoldNumbers, IsDeskAfter, IsDone, IsOperated, IsReady};
ghost use Rattle.line_law.specs.declared.call.Entry.{Entry};
ghost use Rattle.line_plan.specs.Plans.{PlanFields};

use crate::operations::operate;
use block_words::WordOp;
use box_desk::{Desk, Step, WordAsk};
use line_law::{Call, Reply};

/// What came of a call: the reply of the desk, and what it had asked for, with the word as it was before the operation
/// that decided the call.
#[derive(Clone, Copy)]
pub struct Worked {
    pub reply: Reply,
    pub asked: Option<(WordAsk, u64)>,
}

// Does the operations that a desk has asked for: the first, and the second where that is due. The answer is the word as
// it was before the one that decides the call.
fn operate_all(desk: &Desk, words: &mut [u64], boxes: u32, box_no: u32, ask: &WordAsk) -> u64
    requires { (plan : PlanFields) × (es : List Entry) × (boxes ≡ length plan.boxes)
        × Asks plan es box_no desk.now ask.now × HoldNumbers plan es words.old }
    ensures { (plan : PlanFields) (es : List Entry) → boxes ≡ length plan.boxes → Asks plan es box_no desk.now ask.now
        → HoldNumbers plan es words.old → IsOperated plan es box_no ask.now.call result words.new }
{
    let act = ask.call.act;
    let met = operate(words, boxes, box_no, act, ask.first);
    let Some(second) = ask.second else {
        return met;
    };
    if !desk.met(ask, met) {
        return met;
    }
    operate(words, boxes, box_no, act, second)
}

// Decides a call that a desk has asked a word for.
fn decide(desk: &mut Desk, words: &mut [u64], boxes: u32, box_no: u32, ask: WordAsk) -> Worked
    requires { (plan : PlanFields) × (es : List Entry) × (boxes ≡ length plan.boxes)
        × Asks plan es box_no desk.old ask × HoldNumbers plan es words.old }
    ensures { (plan : PlanFields) (es : List Entry) → boxes ≡ length plan.boxes → Asks plan es box_no desk.old ask
        → HoldNumbers plan es words.old → IsDone plan es box_no ask.call result.reply desk.new words.new }
{
    let met = operate_all(desk, words, boxes, box_no, &ask);
    Worked {
        reply: desk.finish(ask, met),
        asked: Some((ask, met)),
    }
}

/// One call of the desk of a box, on the words of a line of so many boxes.
pub fn work(desk: &mut Desk, words: &mut [u64], boxes: u32, box_no: u32, call: &Call) -> Worked
    requires { (plan : PlanFields) × (es : List Entry) × (boxes ≡ length plan.boxes)
        × IsReady plan es box_no call.now × IsDeskAfter plan es box_no desk.old × HoldNumbers plan es words.old }
    ensures { (plan : PlanFields) (es : List Entry) → boxes ≡ length plan.boxes → IsReady plan es box_no call.now
        → IsDeskAfter plan es box_no desk.old → HoldNumbers plan es words.old
        → IsDone plan es box_no call.now result.reply desk.new words.new }
{
    match desk.prepare(call) {
        Step::Local(reply) => {
            operate(words, boxes, box_no, call.act, WordOp::Local);
            Worked { reply, asked: None }
        }
        Step::NeedsWord(ask) => decide(desk, words, boxes, box_no, ask),
    }
}
