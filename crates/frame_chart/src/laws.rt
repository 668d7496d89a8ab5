//! What a shown chart and the rule of laying say.

ghost use Rattle.std.specs.Prelude.{◌≡◌, ◌≤◌, ℕ, List};
ghost use Rattle.frame_chart.specs.declared.charts.Chart.{Chart};
ghost use Rattle.frame_chart.specs.declared.span.Span.{Span};
ghost use Rattle.frame_chart.specs.Charts.{IsByRule, IsShownChart, IsSoundLayout, different};

/// A law: no sound layout has fewer different channels than a chart that is shown, since the bridles that its column
/// crosses lie in channels that differ.
#[tactic(auto, using(crate::proofs::Shown::shown_has_fewest))]
pub fn shown_chart_has_fewest()
    ensures { (spans : List Span) (chart : Chart) (channels : List ℕ) → IsShownChart spans chart
        → IsSoundLayout spans channels → chart.count ≤ different channels }
{}

/// A law: the rule leaves one sound layout. So which channel each bridle has follows from the rule alone.
#[tactic(auto, using(crate::proofs::OneLayout::one_layout))]
pub fn rule_leaves_one_layout()
    ensures { (spans : List Span) (one other : List ℕ) → IsSoundLayout spans one → IsSoundLayout spans other
        → IsByRule spans one → IsByRule spans other → one ≡ other }
{}
