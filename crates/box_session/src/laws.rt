//! Why the journal of a session is what it has to be.

ghost use Rattle.std.specs.Prelude.{◌≡◌, ◌<◌, ◌++◌, ◌∷◌, ℕ, List, [], length};
ghost use Rattle.line_plan.specs.Plans.{IsPlan, PlanFields};
ghost use Rattle.line_law.specs.declared.call.Call.{Call};
ghost use Rattle.line_law.specs.Serial.{AreCalls, AreScripts, calls_left};
ghost use Rattle.box_session.specs.Sessions.{IsSession, session_journal, with_call};

/// A law: where a man makes calls that he may make in turn from the start of the day, and the others have scripts, the
/// journal is legal, with exactly his calls in their order, and each entry stands in its turn. It grows by each of his
/// calls, and by what the others then do.
pub fn session_law()
    ensures session { (plan : PlanFields) (scripts : List (List Call)) (b : ℕ) (calls : List Call) → IsPlan plan
        → AreScripts plan scripts → b < length plan.boxes → calls_left scripts b ≡ [] → AreCalls plan b 0 calls
        → IsSession plan scripts b calls (session_journal plan scripts b calls) }
    ensures grows { (plan : PlanFields) (scripts : List (List Call)) (b : ℕ) (calls : List Call) (call : Call)
        → session_journal plan scripts b (calls ++ call ∷ [])
        ≡ with_call plan scripts b (session_journal plan scripts b calls) call }
{}
