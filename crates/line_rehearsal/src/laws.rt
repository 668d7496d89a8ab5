//! Why men who are stopped stay so.

ghost use Rattle.std.specs.Prelude.{◌≡◌, ℕ, List, Some};
ghost use Rattle.line_plan.specs.Plans.{PlanFields};
ghost use Rattle.line_law.specs.declared.call.Call.{Call};
ghost use Rattle.line_law.specs.declared.call.Entry.{Entry};
ghost use Rattle.line_law.specs.History.{IsLegalFrom, state_after};
ghost use Rattle.line_law.specs.Law.{MayCall};
ghost use Rattle.line_law.specs.Serial.{AreLeft, calls_left};
ghost use Rattle.line_law.specs.States.{IsStateOf, LineState};
ghost use Rattle.line_rehearsal.specs.Stops.{AreInVain, AreNextCalls, AreStopped};
ghost use Rattle.serial_working.specs.Rosters.{head_of};

/// A law: where every box with a call left stands at an await that the line doesn't satisfy, whatever these boxes do
/// next is refused so, however often and in whatever order each makes its next call, and changes nothing but last
/// moments. So nothing there will ever satisfy one. And each may make its next call again behind them.
pub fn stuck_law()
    ensures in_vain { (plan : PlanFields) (state : LineState) (left : List (List Call)) (es : List Entry)
        → AreStopped plan state left → AreNextCalls left es → IsLegalFrom plan state es
        → AreInVain plan state left es }
    ensures again { (plan : PlanFields) (state : LineState) (left : List (List Call)) (es : List Entry) (b : ℕ)
        (call : Call) → IsStateOf plan state → AreLeft plan state left → AreNextCalls left es
        → head_of (calls_left left b) ≡ Some call → MayCall plan (state_after plan state es) b call }
{}
