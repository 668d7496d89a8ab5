//! Which replies are refusals, and what a refused call leaves.

ghost use Rattle.std.specs.Prelude.{◌≡◌, ℕ, Bool, false, IsTrue};
ghost use Rattle.block_words.specs.declared.Position.{Position as Shown};
ghost use Rattle.block_words.specs.declared.Way.{Way};
ghost use Rattle.line_plan.specs.Plans.{PlanFields};
ghost use Rattle.line_law.specs.declared.call.Call.{Call};
ghost use Rattle.line_law.specs.declared.call.Reply.TheVariants.{HeldByInstrument};
ghost use Rattle.line_law.specs.Law.{step};
ghost use Rattle.line_law.specs.Refusals.{is_held_by_instrument, is_refused, is_success, with_moment, with_spent};
ghost use Rattle.line_law.specs.States.{LineState};

use crate::call::Reply;

// Whether what was asked for is done.
fn is_success(reply: Reply) -> bool
    ensures { result ≡ is_success reply }
{
    match reply {
        Reply::Rung { .. }
        | Reply::Heard { .. }
        | Reply::Turned { .. }
        | Reply::Seen { .. }
        | Reply::Pulled
        | Reply::PulledUnder { .. }
        | Reply::Put
        | Reply::Brought
        | Reply::Passed { .. }
        | Reply::Entered { .. }
        | Reply::Approaching { .. }
        | Reply::Berthed { .. }
        | Reply::PartBerthed { .. }
        | Reply::Cleared { .. }
        | Reply::Winding { .. }
        | Reply::Released => true,
        _ => false,
    }
}

/// Whether a reply is a refusal: what was asked for isn't done.
pub fn is_refused(reply: &Reply) -> bool
    ensures { result ≡ is_refused reply.now }
{
    !is_success(*reply)
}

/// A law: a refused call leaves every box, and all that neighbours share, as they were, but for the last moment of the
/// box that calls; and a starter's pull that its instrument holds leaves that instrument spent, and nothing else does.
#[tactic(auto, using(crate::proofs::RefusalLaws::refusal_leaves, crate::proofs::RefusalLaws::held_spends))]
pub fn refusal_law()
    ensures leaves { (plan : PlanFields) (state : LineState) (b : ℕ) (call : Call)
        → IsTrue (is_refused (step plan state b call).reply)
        → is_held_by_instrument (step plan state b call).reply ≡ false
        → (step plan state b call).after ≡ with_moment state b call }
    ensures spent { (plan : PlanFields) (state : LineState) (b : ℕ) (call : Call) (way : Way) (v : ℕ) (shown : Shown)
        (spent : Bool) → (step plan state b call).reply ≡ HeldByInstrument way shown spent v
        → (step plan state b call).after ≡ with_spent (with_moment state b call) b way }
{}
