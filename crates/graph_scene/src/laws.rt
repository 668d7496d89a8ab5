//! What is shown of a journal, in the railway's words.

ghost use Rattle.std.specs.Prelude.{◌≡◌, ℕ, ◌+◌, ◌<◌, ◌≤◌, true, All, IsTrue, List, ◌∷◌};
ghost use Rattle.std.specs.List.{AllPairs, Contains};
ghost use Rattle.graph_scene.specs.declared.bars.Bar.{Bar};
ghost use Rattle.graph_scene.specs.declared.deeds.TrainDeed.{TrainDeed};
ghost use Rattle.graph_scene.specs.declared.lines.TrainLine.{TrainLine};
ghost use Rattle.graph_scene.specs.Deeds.{deeds_of};
ghost use Rattle.graph_scene.specs.Lines.{IsBringing, line_of, lines_of};
ghost use Rattle.graph_scene.specs.Moments.{AreOf, IsEntry, axis_of, end_of, is_shown, place_of, room_of, start_at};
ghost use Rattle.graph_scene.specs.Turns.{bars_of};
ghost use Rattle.line_law.specs.declared.call.Entry.{Entry};
ghost use Rattle.line_law.specs.History.{IsLegal};
ghost use Rattle.line_law.specs.Known.{moments_of};
ghost use Rattle.line_plan.specs.Plans.{PlanFields, is_train};

/// A law: the entries of a legal journal are of the boxes of its line, each at a moment of a day.
#[tactic(auto, using(crate::proofs::Legal::legal_of))]
pub fn legal_law()
    ensures { (plan : PlanFields) (es : List Entry) → IsLegal plan es → AreOf plan es }
{}

/// A law: each deed of a train stands in the line of that train, and that line is drawn. Each line that is drawn has
/// all deeds of its train and no others, in the order of their entries, and no train has two lines.
#[tactic(auto, using(crate::proofs::Drawn::line_rules))]
pub fn lines_law()
    ensures deed { (plan : PlanFields) (es : List Entry) (its : TrainDeed) → Contains (deeds_of plan es) its
        → Contains (line_of (deeds_of plan es) its.train).deeds its }
    ensures line { (plan : PlanFields) (es : List Entry) (its : TrainDeed) → Contains (deeds_of plan es) its
        → IsTrue (is_train plan.trains its.train)
        → Contains (lines_of plan es) (line_of (deeds_of plan es) its.train) }
    ensures own { (plan : PlanFields) (es : List Entry)
        → All (λ line. line ≡ line_of (deeds_of plan es) line.train) (lines_of plan es) }
    ensures order { (plan : PlanFields) (es : List Entry) → All (λ line.
        AllPairs (λ (one other : TrainDeed). one.entry < other.entry) line.deeds) (lines_of plan es) }
    ensures once { (plan : PlanFields) (es : List Entry)
        → AllPairs (λ (one other : TrainLine). one.train < other.train) (lines_of plan es) }
{}

/// A law: in a legal journal the line of each train begins with its bringing.
#[tactic(auto, using(crate::proofs::Bringing::first_brought))]
pub fn bringing_law()
    ensures { (plan : PlanFields) (es : List Entry) (train : ℕ) (first : TrainDeed) (later : List TrainDeed)
        → IsLegal plan es → (line_of (deeds_of plan es) train).deeds ≡ first ∷ later → IsBringing first }
{}

/// A law: no entry begins two bars, and the bars stand in the order of the entries that begin them.
#[tactic(auto, using(crate::proofs::Begun::bars_rise))]
pub fn bars_law()
    ensures { (es : List Entry) → AllPairs (λ (one other : Bar). one.from < other.from) (bars_of es) }
{}

/// A law: an entry that is shown takes room. Of two entries the one of the earlier moment stands on the left, and there
/// is room between them for its mark and the words beside that; so does of two of one moment the one that stands first
/// in the journal. The graph ends behind the room of each entry.
#[tactic(auto, using(crate::proofs::Apart::place_rules))]
pub fn apart_law()
    ensures room { (plan : PlanFields) (e : Entry) → is_shown plan e ≡ true → 8 ≤ room_of plan e }
    ensures moment { (plan : PlanFields) (es : List Entry) (i j : ℕ) (one other : Entry) → IsEntry es i one
        → IsEntry es j other → one.call.moment ≡ other.call.moment → i < j
        → place_of plan es i + room_of plan one ≤ place_of plan es j }
    ensures earlier { (plan : PlanFields) (es : List Entry) (i j : ℕ) (one other : Entry) → IsEntry es i one
        → IsEntry es j other → one.call.moment < other.call.moment → other.call.moment < moments_of plan.version
        → place_of plan es i + room_of plan one ≤ place_of plan es j }
    ensures end { (plan : PlanFields) (es : List Entry) (i : ℕ) (one : Entry) → AreOf plan es → IsEntry es i one
        → place_of plan es i + room_of plan one ≤ start_at (axis_of plan es) (end_of plan es) }
{}
