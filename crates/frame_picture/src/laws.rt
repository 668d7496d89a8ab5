//! Nothing of a chart is drawn over anything else.

ghost use Rattle.std.specs.Prelude.{◌≡◌, ◌+◌, ◌<◌, ◌≤◌, ℕ};
ghost use Rattle.bridle_frame.specs.declared.bridle.Bridle.{Bridle};
ghost use Rattle.frame_chart.specs.Spans.{AreApart, span_of};
ghost use Rattle.frame_picture.specs.declared.places.Layout.{Layout};
ghost use Rattle.frame_picture.specs.Places.{channel_at, column_of};
ghost use Rattle.frame_picture.specs.Scenes.{AreBesideOneAnother, bar_of, span_of_bar};

/// A law: levers stand in columns that don't overlap, and channels lie at heights that don't. The bar of a bridle has
/// the bridle's span; so the bars of bridles that no lever crosses both, as any two in one channel of a chart, lie in
/// columns that don't overlap.
#[tactic(auto, using(crate::proofs::Apart::apart_rules))]
pub fn apart_law()
    ensures levers { (one other : ℕ) → one < other → column_of one + 36 ≤ column_of other }
    ensures channels { (layout : Layout) (one other : ℕ) → one < other
        → channel_at layout one + 30 ≤ channel_at layout other }
    ensures spans { (bridle : Bridle) (channel : ℕ) → span_of_bar (bar_of bridle channel) ≡ span_of bridle }
    ensures bars { (one other : Bridle) (channel : ℕ) → AreApart (span_of one) (span_of other)
        → AreBesideOneAnother (bar_of one channel) (bar_of other channel) }
{}
