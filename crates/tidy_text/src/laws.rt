//! What mending the form of a text keeps, and what it makes of it.

ghost use Rattle.std.specs.Prelude.{◌≡◌, ◌<◌, ◌&&◌, ℕ, List, false, length, map, true};
ghost use Rattle.std.specs.List.{list_all};
ghost use Rattle.rail_text.specs.Lines.{Line, lines_of, words_of};
ghost use Rattle.tidy_text.specs.Tidy.{blank_words, is_comment, is_tidy, is_tidy_line, tidy_line, tidy_text};
ghost use Rattle.tidy_text.specs.Tidy.{without_marks};

/// A law: a line keeps its words. Those of the mended line, between single spaces, are those between the blanks of the
/// line, in order and no other, but for a line that is a comment or has none.
#[tactic(auto, using(crate::proofs::Kept::kept_words))]
pub fn words_law()
    ensures { (text : List ℕ) → is_comment text ≡ false → 0 < length (blank_words text)
        → words_of (tidy_line text) ≡ blank_words text }
{}

/// A law: the lines of a mended text are those of the text without its byte order marks, each mended. Each has its end,
/// has no tab and no carriage return, and no empty word where it is read.
#[tactic(auto, using(crate::proofs::Mended::mended_texts, crate::proofs::Mended::mended_tidy))]
pub fn form_law()
    ensures lines { (bytes : List ℕ) → map (λ line. line.text) (lines_of (tidy_text bytes))
        ≡ map (λ line. tidy_line line.text) (lines_of (without_marks bytes)) }
    ensures tidy { (bytes : List ℕ)
        → list_all (λ line. line.ended && is_tidy_line line.text) (lines_of (tidy_text bytes)) ≡ true }
{}

/// A law: a tidy text stays as it is.
#[tactic(auto, using(crate::proofs::Kept::tidy_stays))]
pub fn stays_law()
    ensures { (bytes : List ℕ) → is_tidy bytes ≡ true → tidy_text bytes ≡ bytes }
{}
