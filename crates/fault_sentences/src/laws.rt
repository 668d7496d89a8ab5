//! A law of what is shown.

ghost use Rattle.std.specs.Prelude.{◌≡◌, ℕ, List, map, true};
ghost use Rattle.std.specs.List.{list_all};
ghost use Rattle.rail_text.specs.Forms.{is_printable};
ghost use Rattle.fault_sentences.specs.Explained.{shown_byte};

/// A law: of a line nothing is shown that may not stand in a line, and a line of bytes that all may is shown as it
/// stands.
#[tactic(auto, using(crate::proofs::Shown::shown_laws))]
pub fn shown_lines_law()
    ensures printed { (bytes : List ℕ) → list_all is_printable (map shown_byte bytes) ≡ true }
    ensures same { (bytes : List ℕ) → list_all is_printable bytes ≡ true → map shown_byte bytes ≡ bytes }
{}
