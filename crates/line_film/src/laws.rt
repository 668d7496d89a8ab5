//! What a film shows.

ghost use Rattle.std.specs.Prelude.{◌≡◌, ◌≤◌, ℕ, List, length, take};
ghost use Rattle.line_plan.specs.Plans.{PlanFields};
ghost use Rattle.line_law.specs.declared.call.Entry.{Entry};
ghost use Rattle.line_film.specs.declared.changes.Change.{Change};
ghost use Rattle.line_film.specs.Frames.{AreFrames, seen_after, with_frames};

/// A law: where the changes of the first entries are put over what is seen before the first of them, each thing in its
/// place, there stands what is seen of the line after those entries.
#[tactic(auto, using(crate::proofs::Framed::framed))]
pub fn film_law()
    ensures { (plan : PlanFields) (es : List Entry) (frames : List (List Change)) (n : ℕ) → AreFrames plan es frames
        → n ≤ length es → with_frames (seen_after plan es 0) (take n frames) ≡ seen_after plan es n }
{}
