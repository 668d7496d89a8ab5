//! What the bell codes of a plan mean.

ghost use Rattle.std.specs.Prelude.{◌≡◌, ◌≤◌, ◌<◌, ◌++◌, IsTrue, OnOk, length, string_bytes};
ghost use Rattle.line_law.specs.Known.{is_code_no};
ghost use Rattle.box_view.specs.Meanings.{asked_text, class_name, is_offer, meaning_text, offer_text, opening_meaning};
ghost use Rattle.box_view.specs.Meanings.{opening_offer};

use bell_codes::CodeNo;
use line_plan::Plan;
use reply_sentences::Sentence;
use std::alloc::AllocError;

// What the ten codes mean with which every code table begins.
fn opening_meaning(code: CodeNo) -> &'static str
    ensures { result.now ≡ opening_meaning code }
{
    match code {
        1 => "Call Attention",
        2 => "express passenger",
        3 => "ordinary passenger",
        4 => "empty coaching stock",
        5 => "light engine",
        6 => "Train Entering Section",
        7 => "Train Out of Section",
        8 => "Cancelling",
        9 => "Obstruction Danger",
        _ => "Testing",
    }
}

// The name of the class that a further code offers.
#[tactic(auto, using(crate::proofs::Classes::class_there))]
fn class_name(plan: &Plan, code: CodeNo) -> &str
    requires code { IsTrue (is_code_no plan.now code) }
    requires further { 10 < code }
    ensures { result.now ≡ class_name plan.now code }
{
    plan.meets_conditions();
    let class = &plan.classes.as_slice()[code as usize - 7];
    class.name.as_str()
}

/// Puts what a code means behind a text, as `ordinary passenger`.
pub fn put_meaning(out: &mut String, plan: &Plan, code: CodeNo) -> Result<(), AllocError>
    requires { IsTrue (is_code_no plan.now code) }
    ensures { OnOk result (string_bytes out.new ≡ string_bytes out.old ++ meaning_text plan.now code) }
{
    if code <= 10 {
        return out.push_str(opening_meaning(code));
    }
    out.push_str("class ")?;
    out.push_str(class_name(plan, code))
}

/// Says what a code means.
pub fn say_meaning(sentence: &mut Sentence, plan: &Plan, code: CodeNo) -> Result<(), AllocError>
    requires { IsTrue (is_code_no plan.now code) }
    ensures { OnOk result (length sentence.old ≤ length sentence.new) }
{
    if code <= 10 {
        return sentence.say(opening_meaning(code));
    }
    sentence.say("class ")?;
    sentence.say(class_name(plan, code))
}

// What a train is called that is offered by one of the first five codes.
fn opening_offer(code: CodeNo) -> &'static str
    ensures { result.now ≡ opening_offer code }
{
    match code {
        2 => "an express passenger train",
        3 => "an ordinary passenger train",
        4 => "empty coaching stock",
        _ => "a light engine",
    }
}

// Whether a code offers a train.
fn is_offer(code: CodeNo) -> bool
    ensures { result ≡ is_offer code }
{
    (2 <= code && code <= 5) || 11 <= code
}

// Puts what a train is called that is offered by a code behind a text.
fn put_offer(out: &mut String, plan: &Plan, code: CodeNo) -> Result<(), AllocError>
    requires code { IsTrue (is_code_no plan.now code) }
    requires offer { IsTrue (is_offer code) }
    ensures { OnOk result (string_bytes out.new ≡ string_bytes out.old ++ offer_text plan.now code) }
{
    if code <= 5 {
        return out.push_str(opening_offer(code));
    }
    out.push_str("a train of class ")?;
    out.push_str(class_name(plan, code))
}

/// Puts a code as a question behind a text, where it offers a train, as `is line clear for a light engine?`, or else
/// what it means.
pub fn put_asked(out: &mut String, plan: &Plan, code: CodeNo) -> Result<(), AllocError>
    requires { IsTrue (is_code_no plan.now code) }
    ensures { OnOk result (string_bytes out.new ≡ string_bytes out.old ++ asked_text plan.now code) }
{
    if !is_offer(code) {
        return put_meaning(out, plan, code);
    }
    out.push_str("is line clear for ")?;
    put_offer(out, plan, code)?;
    out.push('?')
}
