//! The plan that a text spells.

ghost use Rattle.std.specs.Prelude.{◌≡◌, ◌≤◌};
ghost use Rattle.std.specs.Prelude.{ℕ, List, Ok, IfOk, IsErrOf, MatchResult, length, true};
ghost use Rattle.rail_text.specs.Gives.{GivesText};
ghost use Rattle.rail_text.specs.Texts.{text_onto};
ghost use Rattle.rail_text.specs.declared.cause.Cause.{Cause};
ghost use Rattle.plan_draft.specs.Drafts.{start};
ghost use Rattle.line_plan.specs.Limits.{most_bytes};
ghost use Rattle.line_plan.specs.Plans.{PlanFields, IsPlan};
ghost use Rattle.plan_draft.specs.Reading.{has_ended, plan_of, words_onto};
ghost use Rattle.plan_text.specs.Printing.{plan_text};
ghost use Rattle.plan_text.specs.Spelled.{Spells};

use line_plan::{PLAN_LIMIT, Plan};
use plan_draft::PlanDraft;
use rail_text::{Cause, ReadError, read_text, text_error};
use std::alloc::Global;

// What the lines of a text make of the draft of a plan. Its length is tested before the tables with which every plan
// begins take memory.
#[tactic(auto, using(crate::proofs::Drafted::reading_rules), unfolding(rail_text::specs::Texts::text_onto))]
fn draft_in(alloc: Global, bytes: &[u8]) -> Result<PlanDraft, ReadError>
    ensures reads { GivesText (λ draft. draft) result
        (text_onto words_onto (λ draft. has_ended draft.stage) most_bytes start bytes.now) }
    ensures ended { IfOk result (λ draft. has_ended draft.stage ≡ true) }
    ensures memory { IsErrOf result ReadError.NoMemory → length bytes.now ≤ most_bytes }
{
    if bytes.len() > PLAN_LIMIT {
        return Err(text_error(0, Cause::TooLong));
    }
    let mut draft = PlanDraft::new(alloc)?;
    match read_text(&mut draft, PLAN_LIMIT, bytes) {
        Ok(()) => Ok(draft),
        Err(error) => {
            drop(draft);
            Err(error)
        }
    }
}

// The plan that the bytes spell, which meets every condition of a plan.
#[tactic(auto, using(crate::proofs::Drafted::reading_rules), unfolding(plan_draft::specs::Reading::plan_of))]
fn plan_in(alloc: Global, bytes: &[u8]) -> Result<Plan, ReadError>
    ensures exact { GivesText (λ plan. plan) result (plan_of bytes.now) }
    ensures plan { IfOk result (λ plan. IsPlan plan) }
    ensures memory { IsErrOf result ReadError.NoMemory → length bytes.now ≤ most_bytes }
{
    match draft_in(alloc, bytes) {
        Ok(draft) => Ok(draft.into_plan()),
        Err(error) => Err(error),
    }
}

/// The plan that the bytes spell, or the line and the cause of the first fault. Lines are numbered from 1, and each is
/// tested in this order:
///
/// - `Cut` where it has no end, `BadByte`, `LongLine` above 200 bytes; then an empty line and one that begins with `#`
///   are passed over; `Spacing` where a word is empty;
/// - `AfterEnd` behind the line `end`, else `WrongKeyword` where its first word may not stand there;
/// - `WordCount`, but for the line `row`; then its words from left to right, each by the cause of its form and then by
///   its conditions; and last what the line asks as a whole. `box` has first of all `TooMany`, `train` and `end`
///   `TooFewBoxes`.
///
/// A text above `PLAN_LIMIT` bytes is `TooLong` at line 0, and one that has no line `end` is `NoEnd` behind its last
/// line. What is read meets every condition of a plan, and is read back where it is printed. A text is refused where it
/// spells no plan; one that spells a plan fails for want of memory alone, and one that is too long never does.
#[tactic(auto, using(crate::proofs::SpellLaws::reader_laws))]
pub fn read_plan(alloc: Global, bytes: &[u8]) -> Result<Plan, ReadError>
    ensures exact { GivesText (λ plan. plan) result (plan_of bytes.now) }
    ensures plan { IfOk result (λ plan. IsPlan plan) }
    ensures spelled { IfOk result (λ plan. Spells bytes.now plan) }
    ensures reads { (plan : PlanFields) → IsPlan plan → Spells bytes.now plan →
        MatchResult result (λ read. read ≡ plan) (λ error. error ≡ ReadError.NoMemory) }
    ensures refused { (line : ℕ) (cause : Cause) → IsErrOf result (ReadError.Refused line cause) → (plan : PlanFields)
        → IsPlan plan → ¬ Spells bytes.now plan }
    ensures printed { IfOk result (λ plan. plan_of (plan_text plan) ≡ Ok plan) }
    ensures memory { IsErrOf result ReadError.NoMemory → length bytes.now ≤ most_bytes }
{
    plan_in(alloc, bytes)
}

/// A law: what is read of a text meets every condition of a plan.
#[tactic(auto, using(crate::proofs::Drafted::plan_rules))]
pub fn read_is_a_plan()
    ensures { (bytes : List ℕ) → (plan : PlanFields) → plan_of bytes ≡ Ok plan → IsPlan plan }
{}
