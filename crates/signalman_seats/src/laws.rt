//! Why a call is refused.

ghost use Rattle.std.specs.Prelude.{◌≡◌, ◌<◌, ◌+◌, ◌^◌, ℕ, true, [], ◌∷◌, ◌++◌, All, List, length};
ghost use Rattle.line_plan.specs.Plans.{IsPlan, PlanFields};
ghost use Rattle.line_law.specs.declared.call.Call.{Call};
ghost use Rattle.line_law.specs.declared.call.Entry.{Entry};
ghost use Rattle.line_law.specs.declared.call.Reply.{Reply};
ghost use Rattle.line_law.specs.History.{IsLegal, part_of, state_of};
ghost use Rattle.line_law.specs.Law.{box_plan_of, step};
ghost use Rattle.line_law.specs.Serial.{is_not_yet};
ghost use Rattle.word_laws.specs.Footprint.{Tally};
ghost use Rattle.word_laws.specs.Operations.{IsOnWord, caller};
ghost use Rattle.word_laws.specs.TellsWord.{kind_told};
ghost use Rattle.word_laws.specs.WordNumbers.{number_after, word_of};
ghost use Rattle.instrument_rule.specs.declared.view.View.{View};
ghost use Rattle.instrument_rule.specs.Calls.{here_at};
ghost use Rattle.signalman_seats.specs.Men.{Performed, answered};
ghost use Rattle.signalman_seats.specs.Refusals.{IsRefusedAfter, IsRefusedBy, word_refusal};

/// A law of the last call of a legal history, such as a man has seen once he has called.
///
/// Where no test of his box refused it, so that it came to its word, the number that the word read refuses it or not,
/// with this reply: a ring where a code stands unheard, hearing where none does, a starter's pull where the instrument
/// isn't at Line Clear unspent, a train at a starter where its lane is taken, an arrival where the lane is empty, and
/// an await where the word isn't what it looks for. It has such a reply there alone.
///
/// Where the call was decided in his box, the reply is the one that the law gives after any legal history with the same
/// part of the box, whatever the others did in it. So it is the one that the law gives after what he had seen before
/// the call.
///
/// So a man who has performed a call that came to its word knows the cause of its refusal: what the word read at the
/// one step at which the call was decided.
///
/// Where an await was told that it isn't satisfied yet, he took exactly the looks that he was given, none of them a
/// glance; and at each of them the word of the call refused it, as it read after a legal history that he had then seen.
#[tactic(auto, using(crate::proofs::Refusing::refused_at_word, crate::proofs::Refusing::refused_in_box))]
pub fn refusal_law()
    ensures word { (plan : PlanFields) (es : List Entry) (e : Entry) → IsPlan plan → IsLegal plan (es ++ e ∷ [])
        → length es < 2 ^ 32 → IsOnWord (kind_told e.reply)
        → IsRefusedBy (word_refusal (box_plan_of plan e.box_no) e.call.act (caller plan es e)
        (number_after plan es (word_of plan e))) e.reply }
    ensures own { (plan : PlanFields) (es others : List Entry) (e : Entry) → IsLegal plan (es ++ e ∷ [])
        → IsLegal plan others → part_of e.box_no others ≡ part_of e.box_no es → kind_told e.reply ≡ Tally
        → (step plan (state_of plan others) e.box_no e.call).reply ≡ e.reply }
    ensures seen { (plan : PlanFields) (b : ℕ) (call : Call) (looks : ℕ) (reply : Reply) (v w : View)
        → Performed plan b call looks reply v w → kind_told reply ≡ Tally
        → (step plan (state_of plan v.seen) b call).reply ≡ reply }
    ensures step { (plan : PlanFields) (b : ℕ) (call : Call) (looks : ℕ) (reply : Reply) (v w : View)
        → (done : Performed plan b call looks reply v w) → IsPlan plan → IsOnWord (kind_told reply)
        → IsRefusedBy (word_refusal (box_plan_of plan b) call.act (here_at plan done.last.log b call) done.last.read)
        reply }
    ensures in_vain { (plan : PlanFields) (b : ℕ) (call : Call) (looks : ℕ) (reply : Reply) (v w : View)
        → Performed plan b call looks reply v w → is_not_yet reply ≡ true
        → (w.looks ≡ v.looks + looks) × (w.glances ≡ v.glances) × (logs : List (List Entry)) × (length logs ≡ looks)
        × All (IsRefusedAfter plan b call (word_of plan (answered b call reply))) logs }
{}
