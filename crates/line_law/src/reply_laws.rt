//! What replies tell.

ghost use Rattle.std.specs.Prelude.{◌+◌, ◌++◌, ◌∷◌, List, All, length};
ghost use Rattle.line_plan.specs.Plans.{IsPlan, PlanFields};
ghost use Rattle.line_law.specs.declared.call.Entry.{Entry};
ghost use Rattle.line_law.specs.History.{IsLegal};
ghost use Rattle.line_law.specs.Tellings.{IsTold};

/// A law: each reply of a legal history tells what is there. Its codes are in the code table, its trains are the
/// plan's, and its places, levers and rows are of the box that called; no count is above the number of calls made so
/// far, and a moment at which a release may come lies at most the plan's delay after the day's last.
#[tactic(auto, using(crate::proofs::ToldHistories::each_told, crate::proofs::ToldHistories::all_told))]
pub fn replies_law()
    ensures each { (plan : PlanFields) (es more : List Entry) (e : Entry) → IsPlan plan
        → IsLegal plan (es ++ e ∷ more) → IsTold plan e.box_no (length es + 1) e.reply }
    ensures all { (plan : PlanFields) (es : List Entry) → IsPlan plan → IsLegal plan es
        → All (λ e. IsTold plan e.box_no (length es) e.reply) es }
{}
