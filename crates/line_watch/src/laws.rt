//! What the sights of one history tell of it.

ghost use Rattle.std.specs.Prelude.{◌≡◌, ◌≤◌, [], ◌∷◌, ◌++◌, ℕ, List, length};
ghost use mathlib.Core.List.{IsPrefix};
ghost use Rattle.line_plan.specs.Plans.{IsPlan, PlanFields};
ghost use Rattle.line_plan.specs.Sections.{IsSection, sections_of};
ghost use Rattle.line_plan.specs.declared.section.Section.{Section};
ghost use Rattle.line_law.specs.declared.call.Entry.{Entry};
ghost use Rattle.line_law.specs.History.{IsLegal, part_of};
ghost use Rattle.line_watch.specs.declared.sight.Sight.{Sight};
ghost use Rattle.line_watch.specs.Shown.{IsBoardOf};
ghost use Rattle.line_watch.specs.Sights.{AreMarkedAlike, IsFirstRight, IsRightAfter, instrument_after};
ghost use Rattle.line_watch.specs.Watching.{LooksInTurn, RoundsInTurn};

/// A law of the sights of one legal history. The turn count and the spent mark of an instrument never come back: where
/// they are the same after two beginnings of the history, the whole instrument is the same after each beginning between
/// these. So where a sight is right after some beginning, there is a shortest after which it is, and no other. And what
/// is seen later is first right no earlier: these shortest beginnings never get shorter. And they are fixed by the
/// parts: in another legal history with the same parts the instrument shows the same.
pub fn sight_law()
    ensures never_back { (plan : PlanFields) (es more later : List Entry) (section : Section) → IsPlan plan
        → IsLegal plan (es ++ (more ++ later))
        → AreMarkedAlike (instrument_after plan es section) (instrument_after plan (es ++ (more ++ later)) section)
        → instrument_after plan (es ++ more) section ≡ instrument_after plan es section }
    ensures first { (plan : PlanFields) (log before : List Entry) (section : Section) (sight : Sight) → IsPlan plan
        → IsLegal plan log → IsPrefix before log → IsRightAfter plan before section sight
        → (first : List Entry) × IsFirstRight plan log section sight first × IsPrefix first before }
    ensures one { (plan : PlanFields) (log first other : List Entry) (section : Section) (sight : Sight)
        → IsFirstRight plan log section sight first → IsFirstRight plan log section sight other → first ≡ other }
    ensures later { (plan : PlanFields) (log before after first next : List Entry) (section : Section)
        (sight shown : Sight) → IsPlan plan → IsLegal plan log → IsPrefix before after → IsPrefix after log
        → IsRightAfter plan before section sight → IsRightAfter plan after section shown
        → IsFirstRight plan log section sight first → IsFirstRight plan log section shown next
        → length first ≤ length next }
    ensures parts { (plan : PlanFields) (log other before : List Entry) (section : Section) (sight : Sight)
        → IsPlan plan → IsSection plan section → IsLegal plan log → IsLegal plan other
        → ((b : ℕ) → part_of b log ≡ part_of b other) → IsPrefix before log
        → IsRightAfter plan before section sight
        → (there : List Entry) × IsPrefix there other × IsRightAfter plan there section sight }
{}

/// A law: where an observer looked at all sections of a line round after round, and at last after all that was done on
/// it, what he saw is a board of any legal history with the same parts, as the line's journal is.
pub fn board_law()
    ensures { (plan : PlanFields) (log other before : List Entry) (rounds : List (List Sight)) (last : List Sight)
        → IsPlan plan → IsLegal plan log → IsLegal plan other
        → ((b : ℕ) → part_of b log ≡ part_of b other)
        → RoundsInTurn plan (rounds ++ last ∷ []) before log
        → LooksInTurn plan (sections_of plan) last log log
        → IsBoardOf plan other (rounds ++ last ∷ []) }
{}
