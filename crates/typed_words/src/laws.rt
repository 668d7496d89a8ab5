//! Whole words are understood as themselves, and so are calls as a script has them.

ghost use Rattle.std.specs.Prelude.{◌≡◌, ◌↔◌, ◌≤◌, ℕ, List, Ok, Some, bytes_eq, true};
ghost use Rattle.std.specs.List.{list_any};
ghost use Rattle.line_law.specs.Known.{KnowsCall};
ghost use Rattle.line_law.specs.declared.call.Call.{Call};
ghost use Rattle.line_plan.specs.Plans.{IsPlan, PlanFields};
ghost use Rattle.script_text.specs.Acts.{act_text};
ghost use Rattle.script_text.specs.Calls.{call_text};
ghost use Rattle.typed_words.specs.declared.table.WordKind.{WordKind};
ghost use Rattle.typed_words.specs.Chosen.{IsUnderstood, words_at};
ghost use Rattle.typed_words.specs.Lines.{word_in_full};
ghost use Rattle.typed_words.specs.Typed.{TypedLine, line_read};

/// A law: a word that may stand at a place is understood as itself there, also where it is the beginning of another.
pub fn whole_words_law()
    ensures { (kind : WordKind) (at : ℕ) (word : List ℕ) → list_any (bytes_eq word) (words_at kind) ≡ true
        → word_in_full (Some kind) at word ≡ Ok word }
{}

/// A law: a typed word is understood exactly as a word that may stand at its place and begins so, where that is the
/// typed one or the only one that begins so.
pub fn understood_law()
    ensures { (kind : WordKind) (at : ℕ) (typed word : List ℕ) →
        (word_in_full (Some kind) at typed ≡ Ok word) ↔ IsUnderstood kind typed word }
{}

/// A law: a call that the plan knows is understood as it is printed in a script, behind its moment where this isn't
/// below the last one, and without it where this is the last one.
pub fn written_out_law()
    ensures timed { (plan : PlanFields) (b last : ℕ) (call : Call) → IsPlan plan → KnowsCall plan b call
        → last ≤ call.moment → line_read plan b last (call_text plan call) ≡ TypedLine.Call call }
    ensures untimed { (plan : PlanFields) (b : ℕ) (call : Call) → IsPlan plan → KnowsCall plan b call
        → line_read plan b call.moment (act_text plan call.act) ≡ TypedLine.Call call }
{}
