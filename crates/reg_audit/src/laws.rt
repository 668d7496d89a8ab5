//! Laws of the audit.

ghost use Rattle.std.specs.Prelude.{◌<◌, ℕ, List, length};
ghost use Rattle.block_words.specs.declared.Way.{Way};
ghost use Rattle.line_plan.specs.Plans.{PlanFields};
ghost use Rattle.line_law.specs.declared.call.Entry.{Entry};
ghost use Rattle.line_law.specs.History.{IsLegal};
ghost use Rattle.line_law.specs.Ways.{of_way};
ghost use Rattle.reg_audit.specs.Audits.{IsAuditOf};
ghost use Rattle.reg_audit.specs.Behind.{IsInHand, in_hand};
ghost use Rattle.reg_audit.specs.Marks.{breaches_of};

/// A law of the audit: what is found of a legal journal, as the marks tell it, is exactly its breaches, by entry and
/// then by rule.
#[tactic(auto, using(crate::proofs::Exactly::audit_exact))]
pub fn audit_law()
    ensures { (plan : PlanFields) (es : List Entry) → IsLegal plan es
        → IsAuditOf plan es (breaches_of plan es) }
{}

/// A law of what a box has in hand behind a legal journal: on each side the marks tell exactly what was done there
/// since, in the words of the nine rules, and which code was rung or heard last without being an answer.
#[tactic(auto, using(crate::proofs::HandKept::in_hand_is))]
pub fn in_hand_law()
    ensures { (plan : PlanFields) (es : List Entry) (b : ℕ) (side : Way) → IsLegal plan es → b < length plan.boxes
        → IsInHand plan es b side (of_way (in_hand plan b es).marks side) (of_way (in_hand plan b es).asked side) }
{}
