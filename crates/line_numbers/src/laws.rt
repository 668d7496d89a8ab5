//! Laws of the numbers: what is found again from them.

ghost use Rattle.std.specs.Prelude.{◌≡◌, ◌<◌, ℕ, Some};
ghost use Rattle.rail_text.specs.declared.cause.Cause.{Cause};
ghost use Rattle.line_law.specs.declared.call.Call.{Call};
ghost use Rattle.line_law.specs.declared.call.Reply.{Reply};
ghost use Rattle.look_records.specs.declared.thing.BoxThing.{BoxThing};
ghost use Rattle.line_numbers.specs.declared.calls.CallNumbers.{CallNumbers};
ghost use Rattle.line_numbers.specs.CallParts.{call_in, call_numbers, code_named};
ghost use Rattle.line_numbers.specs.CauseNumbers.{cause_in, cause_number};
ghost use Rattle.line_numbers.specs.ReplyParts.{ShowsCode, reply_in, reply_numbers};
ghost use Rattle.line_numbers.specs.ThingParts.{IsFromOne, thing_in, thing_numbers};

/// A law: a call is found again from its numbers, where its code is one of a `u8`; and numbers in which a call is found
/// are exactly the numbers of that call. So calls and the numbers that are taken correspond one to one.
#[tactic(auto, using(crate::proofs::CallsAgain::call_again))]
pub fn numbers_law()
    ensures call { (b : ℕ) (call : Call) → code_named call.act < 256 → call_in (call_numbers b call) ≡ Some call }
    ensures numbers { (n : CallNumbers) (call : Call) → call_in n ≡ Some call → call_numbers n.box_no call ≡ n }
{}

/// A law: a reply is found again from its numbers, where the code that it tells a bell to show is a code; so two
/// replies with the same numbers are the same.
#[tactic(auto, using(crate::proofs::RepliesAgain::reply_again, crate::proofs::RepliesAgain::one_reply))]
pub fn reply_law()
    ensures again { (reply : Reply) → ShowsCode reply → reply_in (reply_numbers reply) ≡ Some reply }
    ensures one { (reply other : Reply) → ShowsCode reply → ShowsCode other
        → reply_numbers reply ≡ reply_numbers other → reply ≡ other }
{}

/// A law: a thing is found again from its numbers, where its trains and its code are numbered from 1; so two things
/// with the same numbers are the same.
#[tactic(auto, using(crate::proofs::ThingsAgain::thing_again, crate::proofs::ThingsAgain::one_thing))]
pub fn thing_law()
    ensures again { (thing : BoxThing) → IsFromOne thing → thing_in (thing_numbers thing) ≡ Some thing }
    ensures one { (thing other : BoxThing) → IsFromOne thing → IsFromOne other
        → thing_numbers thing ≡ thing_numbers other → thing ≡ other }
{}

/// A law: a cause is found again from its number.
#[tactic(auto, using(crate::proofs::CausesAgain::cause_again))]
pub fn cause_law()
    ensures { (cause : Cause) → cause_in (cause_number cause) ≡ Some cause }
{}
