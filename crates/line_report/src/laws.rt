//! Laws of what is told of a line.

ghost use Rattle.std.specs.Prelude.{◌≡◌, ◌↔◌, ℕ, ◌+◌, ◌<◌, ◌≤◌, ◌^◌, List, ◌++◌, All, IsTrue, Ok, length};
ghost use Rattle.line_plan.specs.Plans.{IsPlan, PlanFields};
ghost use Rattle.line_plan.specs.Sections.{IsSection, limit_of};
ghost use Rattle.line_plan.specs.declared.section.Section.{Section};
ghost use Rattle.line_law.specs.declared.call.Call.{Call};
ghost use Rattle.line_law.specs.declared.call.Entry.{Entry};
ghost use Rattle.line_law.specs.declared.call.Reply.{Reply};
ghost use Rattle.line_law.specs.History.{IsLegal, after_entry, state_of};
ghost use Rattle.line_law.specs.Known.{KnowsCall};
ghost use Rattle.line_law.specs.Law.{MayCall, step};
ghost use Rattle.line_law.specs.Lines.{IsLineOf, PlainState};
ghost use Rattle.line_law.specs.Sections.{IsClean, held_by};
ghost use Rattle.line_report.specs.Asked.{AreAsked};
ghost use Rattle.line_report.specs.Gains.{gains, loses};
ghost use Rattle.line_report.specs.Journals.{journal_text};
ghost use Rattle.line_report.specs.Reading.{journal_of, most_journal_bytes};
ghost use Rattle.line_report.specs.Sections.{most_of};
ghost use Rattle.line_report.specs.Spelled.{IsAnswered};
ghost use Rattle.line_report.specs.Verdicts.{IsWrongAt, verdict_of};
ghost use Rattle.line_report.specs.declared.judging.Verdict.TheVariants.{Legal, WrongAt};
ghost use Rattle.script_text.specs.Entries.{IsSpelled};
ghost use Rattle.script_text.specs.PossibleReplies.{may_answer};
ghost use Rattle.train_laws.specs.Authorities.{count_if};

/// A law: every entry of a legal history of a plan's line can be printed, where the history has fewer than ten thousand
/// million entries. The line has its box and knows its call; each code, place, train, lever and row that its reply
/// names is there, and each count has at most ten digits.
pub fn histories_can_be_printed()
    ensures { (plan : PlanFields) (es : List Entry) → IsPlan plan → length es < 10 ^ 10 → IsLegal plan es
        → All (IsSpelled plan) es }
{}

/// A law: every reply that the law of the line gives to a call which the plan knows, on a line of the plan, is one that
/// such a call may have; so are all replies of a legal history.
#[tactic(auto, using(crate::proofs::Answered::step_answered, crate::proofs::Answered::history_answered))]
pub fn answers_law()
    ensures call { (plan : PlanFields) (plain : PlainState) (b : ℕ) (call : Call) → IsLineOf plan plain
        → KnowsCall plan b call → IsTrue (may_answer call.act (step plan plain.line b call).reply) }
    ensures history { (plan : PlanFields) (es : List Entry) → IsPlan plan → IsLegal plan es → All IsAnswered es }
{}

/// A law: the journal of a legal history, as it is printed and whatever stands behind it, is read as exactly that
/// journal, where the text keeps within the limit of a journal's; and a judge finds it legal.
#[tactic(auto, using(crate::proofs::PrintedJournals::legal_read, crate::proofs::PrintedJournals::legal_judged))]
pub fn printed_journal_law()
    ensures read { (plan : PlanFields) (es : List Entry) (rest : List ℕ) → IsPlan plan → IsLegal plan es
        → length (journal_text plan es ++ rest) ≤ most_journal_bytes plan.version
        → journal_of plan (journal_text plan es ++ rest) ≡ Ok es }
    ensures judged { (plan : PlanFields) (es : List Entry) → IsPlan plan → IsLegal plan es
        → verdict_of plan es ≡ Legal }
{}

/// A law of the judge: where the calls of each box are ones that the plan knows, with moments that don't fall, a
/// journal is found legal exactly where it is a legal history of the line; else the entry found wrong is the first
/// whose reply isn't the law's.
#[tactic(auto, using(crate::proofs::Verdicts::legal_exactly, crate::proofs::Verdicts::wrong_exactly))]
pub fn verdict_law()
    ensures legal { (plan : PlanFields) (es : List Entry) → IsPlan plan → AreAsked plan es
        → (verdict_of plan es ≡ Legal ↔ IsLegal plan es) }
    ensures wrong { (plan : PlanFields) (es : List Entry) (k : ℕ) (said law : Reply) → IsPlan plan → AreAsked plan es
        → verdict_of plan es ≡ WrongAt k said law → IsWrongAt plan es k said law }
{}

/// A law of a section: after an entry that the law of the line allows it holds the trains that it held before, and one
/// more where the entry's call and reply tell that it gains a train, less one where they tell that it loses one.
#[tactic(auto, using(crate::proofs::HeldTold::held_told))]
pub fn held_law()
    ensures { (plan : PlanFields) (plain : PlainState) (e : Entry) (section : Section) → IsPlan plan
        → IsLineOf plan plain → IsSection plan section → MayCall plan plain.line e.box_no e.call
        → e.reply ≡ (step plan plain.line e.box_no e.call).reply
        → held_by plan (after_entry plan plain.line e) section + count_if (loses plan section e)
        ≡ held_by plan plain.line section + count_if (gains plan section e) }
{}

/// A law of the most trains that a section held: it held so many after some of the entries, and after none more; and
/// where a legal history is clean for it, that is no more than it may hold.
#[tactic(auto, using(crate::proofs::MostTrains::most_reached, crate::proofs::MostTrains::most_bounds, crate::proofs::MostTrains::one_train_reaches))]
pub fn most_trains_law()
    ensures held { (plan : PlanFields) (es : List Entry) (section : Section)
        → (before : List Entry) × (more : List Entry) × (es ≡ before ++ more)
        × (most_of plan es section ≡ held_by plan (state_of plan before) section) }
    ensures most { (plan : PlanFields) (before more : List Entry) (section : Section)
        → held_by plan (state_of plan before) section ≤ most_of plan (before ++ more) section }
    ensures clean { (plan : PlanFields) (es : List Entry) (section : Section) → IsPlan plan → IsSection plan section
        → IsLegal plan es → IsClean plan section es → most_of plan es section ≤ limit_of plan section }
{}
