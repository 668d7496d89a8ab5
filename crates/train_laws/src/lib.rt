//! The theorems on trains and levers: one train in a section, when a lever may be pulled, one pull for each Line Clear,
//! and the upgrade from minutes to seconds.
#![tactic(auto)]

ghost use Rattle.std.specs.Prelude.{◌≡◌, ◌↔◌, ℕ, ◌≤◌, ◌<◌, List, [], ◌∷◌, ◌++◌, Some, None, true, false, Contains};
ghost use Rattle.std.specs.Prelude.{length};
ghost use Rattle.block_words.specs.declared.WelwynState.TheVariants.{Ready};
ghost use Rattle.line_plan.specs.Plans.{IsPlan, PlanFields};
ghost use Rattle.line_plan.specs.Sections.{IsSection, limit_of};
ghost use Rattle.line_plan.specs.declared.section.Section.{Section};
ghost use Rattle.line_law.specs.declared.call.Act.TheVariants.{Pass, Pull};
ghost use Rattle.line_law.specs.declared.call.Call.{Call};
ghost use Rattle.line_law.specs.declared.call.Entry.{Entry};
ghost use Rattle.line_law.specs.declared.state.Control.TheVariants.{Absolute, Permissive};
ghost use Rattle.train_laws.specs.Arms.{GoesPast, WasPulled, WasPulledAgain, arm_off, lever_reversed};
ghost use Rattle.train_laws.specs.Authorities.{authorities, control_in, permit_of};
ghost use Rattle.line_law.specs.History.{IsLegal, state_of};
ghost use Rattle.line_law.specs.Law.{step};
ghost use Rattle.line_law.specs.Lines.{AreNumbered, plain_line_of};
ghost use Rattle.line_law.specs.States.{LineState};
ghost use Rattle.train_laws.specs.MayPull.{IsPullTold};
ghost use Rattle.train_laws.specs.Passages.{EntersAs, LeavesAs, trains_entered, trains_left};
ghost use Rattle.train_laws.specs.Pulls.{PullsUnder};
ghost use Rattle.line_law.specs.Sections.{IsClean, held_by};
ghost use Rattle.train_laws.specs.Upgrades.{in_seconds, state_in_seconds};
ghost use Rattle.line_plan.specs.Upgrades.{upgraded};

/// A law of one section: after every legal history that is clean for it, and so after each clean prefix of one, it
/// holds no more trains than it may. For on an absolute line there is at most one authority, and none while its control
/// is Ready; on a permissive line of n there are no more than trains are out, and those are at most n.
#[tactic(auto, using(crate::proofs::OneTrain::held_few, crate::proofs::OneTrain::one_authority, crate::proofs::OneTrain::none_ready, crate::proofs::OneTrain::few_out, crate::proofs::OneTrain::held_few_before))]
pub fn one_train_law()
    ensures held { (plan : PlanFields) (es : List Entry) (section : Section) → IsPlan plan → IsSection plan section
        → IsLegal plan es → IsClean plan section es → held_by plan (state_of plan es) section ≤ limit_of plan section }
    ensures prefix { (plan : PlanFields) (es more : List Entry) (section : Section) → IsPlan plan
        → IsSection plan section → IsLegal plan (es ++ more) → IsClean plan section es
        → held_by plan (state_of plan es) section ≤ limit_of plan section }
    ensures authorities { (plan : PlanFields) (es : List Entry) (section : Section) → IsPlan plan
        → IsSection plan section → IsLegal plan es → IsClean plan section es → permit_of plan section ≡ None
        → authorities plan (state_of plan es) section ≤ 1 }
    ensures ready { (plan : PlanFields) (es : List Entry) (section : Section) → IsPlan plan → IsSection plan section
        → IsLegal plan es → IsClean plan section es → control_in (state_of plan es) section ≡ Absolute Ready
        → authorities plan (state_of plan es) section ≡ 0 }
    ensures out { (plan : PlanFields) (es : List Entry) (section : Section) (n : ℕ) → IsPlan plan
        → IsSection plan section → IsLegal plan es → IsClean plan section es → permit_of plan section ≡ Some n
        → (out : ℕ) × (control_in (state_of plan es) section ≡ Permissive out)
        × (authorities plan (state_of plan es) section ≤ out) × (out ≤ n) }
{}

/// A law: a pull succeeds exactly where frame, track circuits and instruments allow it; and each other reply names the
/// first thing that isn't so. So does each pull of a legal history, of the state in which it stands there.
pub fn pull_law()
    ensures told { (plan : PlanFields) (state : LineState) (b : ℕ) (call : Call) (lever : ℕ) → call.act ≡ Pull lever
        → IsPullTold plan state b lever (step plan state b call).reply }
    ensures each { (plan : PlanFields) (es more : List Entry) (e : Entry) (lever : ℕ) → IsLegal plan (es ++ e ∷ more)
        → e.call.act ≡ Pull lever → IsPullTold plan (state_of plan es) e.box_no lever e.reply }
{}

/// A law of one section: of two pulls of its starter under Line Clear the later tells a later turn of the instrument,
/// so that no Line Clear serves two pulls.
#[tactic(auto, using(crate::proofs::OnePull::one_pull))]
pub fn one_pull_law()
    ensures { (plan : PlanFields) (es between more : List Entry) (e f : Entry) (section : Section) (v u : ℕ)
        → IsPlan plan → IsSection plan section → IsLegal plan (es ++ e ∷ (between ++ f ∷ more))
        → PullsUnder plan section v e → PullsUnder plan section u f → v < u }
{}

/// A law of one section: trains leave its plain line in the order in which they entered, each once, all but those that
/// are still there; they are numbered from 1 as they enter; so it is one train that enters as the k-th and leaves as
/// the k-th.
pub fn passage_law()
    ensures order { (plan : PlanFields) (es : List Entry) (section : Section) → IsPlan plan → IsSection plan section
        → IsLegal plan es
        → trains_entered plan section es ≡ trains_left section es ++ plain_line_of (state_of plan es) section }
    ensures numbered { (plan : PlanFields) (es : List Entry) (section : Section) → IsPlan plan → IsSection plan section
        → IsLegal plan es
        → AreNumbered 0 (length (trains_entered plan section es)) (trains_entered plan section es) }
    ensures one { (plan : PlanFields) (es : List Entry) (e f : Entry) (section : Section) (k train other : ℕ)
        → IsPlan plan → IsSection plan section → IsLegal plan es → Contains es e → Contains es f
        → EntersAs plan section k train e → LeavesAs section k other f → train ≡ other }
{}

/// A law of box `b`'s lever: a train that has passed or overrun its signal has left the arm at danger, and there it
/// stays until the lever is pulled; and where the lever was reversed, as it always was where the train passed, until
/// the lever has been put back and pulled again.
pub fn arm_law()
    ensures danger { (plan : PlanFields) (es : List Entry) (e : Entry) (b lever : ℕ) → IsPlan plan
        → IsLegal plan (es ++ e ∷ []) → GoesPast b lever e
        → arm_off (state_of plan (es ++ e ∷ [])) b lever ≡ false }
    ensures pulled { (plan : PlanFields) (es between : List Entry) (e : Entry) (b lever : ℕ) → IsPlan plan
        → IsLegal plan (es ++ e ∷ between) → GoesPast b lever e
        → arm_off (state_of plan (es ++ e ∷ between)) b lever ≡ true → WasPulled b lever between }
    ensures again { (plan : PlanFields) (es between : List Entry) (e : Entry) (b lever : ℕ) → IsPlan plan
        → IsLegal plan (es ++ e ∷ between) → GoesPast b lever e → lever_reversed (state_of plan es) b lever ≡ true
        → arm_off (state_of plan (es ++ e ∷ between)) b lever ≡ true → WasPulledAgain b lever between }
    ensures passed { (plan : PlanFields) (es between : List Entry) (e : Entry) (b lever : ℕ) → IsPlan plan
        → IsLegal plan (es ++ e ∷ between) → GoesPast b lever e → e.call.act ≡ Pass lever
        → arm_off (state_of plan (es ++ e ∷ between)) b lever ≡ true → WasPulledAgain b lever between }
{}

/// A law of the upgrade from minutes to seconds: a history is legal for a plan of version 1 exactly where the same
/// history in seconds is legal for the plan's upgrade, and both end in the same state, but for its moments in seconds.
#[tactic(auto, using(crate::proofs::Upgrading::legal_in_seconds, crate::proofs::Upgrading::state_upgrade))]
pub fn upgrade_law()
    ensures legal { (plan : PlanFields) (es : List Entry) → plan.version ≡ 1
        → (IsLegal plan es ↔ IsLegal (upgraded plan) (in_seconds es)) }
    ensures state { (plan : PlanFields) (es : List Entry) → plan.version ≡ 1
        → state_of (upgraded plan) (in_seconds es) ≡ state_in_seconds (state_of plan es) }
{}
