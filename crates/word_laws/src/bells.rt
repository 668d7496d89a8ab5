//! What is rung and heard on a bell.

ghost use Rattle.std.specs.Prelude.{◌≡◌, ℕ, List, [], ◌∷◌, ◌++◌, length, IsTrue};
ghost use Rattle.block_words.specs.declared.Way.{Way};
ghost use Rattle.line_plan.specs.Plans.{IsPlan, PlanFields};
ghost use Rattle.line_law.specs.declared.call.Entry.{Entry};
ghost use Rattle.line_law.specs.History.{IsLegal, state_of};
ghost use Rattle.word_laws.specs.Rings.{bell_at, count_told, heard_on, is_on_bell, rung_on, unheard_on};

/// A law of the bell between the boxes `p` and `p + 1` that is rung one way: the codes heard on it are those rung on
/// it, in order and none twice, all but the one that stands unheard, if one does; its count is the number of codes
/// rung; and each reply of a call on it tells that number.
pub fn bell_law()
    ensures heard { (plan : PlanFields) (es : List Entry) (p : ℕ) (way : Way) → IsPlan plan → IsLegal plan es
        → rung_on p way es ≡ heard_on p way es ++ unheard_on (state_of plan es) p way }
    ensures counted { (plan : PlanFields) (es : List Entry) (p : ℕ) (way : Way) → IsPlan plan → IsLegal plan es
        → (bell_at (state_of plan es) p way).count ≡ length (rung_on p way es) }
    ensures told { (plan : PlanFields) (es more : List Entry) (e : Entry) (p : ℕ) (way : Way) → IsPlan plan
        → IsLegal plan (es ++ e ∷ more) → IsTrue (is_on_bell p way e)
        → count_told e.reply ≡ length (rung_on p way (es ++ e ∷ [])) }
{}
