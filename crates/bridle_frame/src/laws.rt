//! Why one test with the lever at mid is enough.

ghost use Rattle.std.specs.Prelude.{ℕ, All, List};
ghost use Rattle.locking_table.specs.declared.places.End.{End};
ghost use Rattle.locking_table.specs.declared.places.Stand.TheVariants.{AtMid};
ghost use Rattle.locking_table.specs.Places.{stand_at, stand_of};
ghost use Rattle.bridle_frame.specs.declared.bridle.Bridle.{Bridle};
ghost use Rattle.bridle_frame.specs.Seated.{IsSeated};

/// A law: where every bridle is seated with a lever at mid, every bridle is seated with it at either end, since a
/// lever at mid stands at no notch.
#[tactic(auto, using(crate::proofs::Seats::seat_rules))]
pub fn mid_is_enough()
    ensures { (ends : List End) (lever : ℕ) (e : End) (bridles : List Bridle)
        → All (IsSeated (stand_of ends lever AtMid)) bridles
        → All (IsSeated (stand_of ends lever (stand_at e))) bridles }
{}
