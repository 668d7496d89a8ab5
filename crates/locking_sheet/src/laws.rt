//! What holds of every printed locking table.

ghost use Rattle.std.specs.Prelude.{◌≡◌, ℕ, ◌<◌, ◌≤◌, ◌==◌, List, Ok, filter, length, true};
ghost use Rattle.rail_text.specs.Lines.{lacks};
ghost use Rattle.locking_table.specs.declared.row.Row.{Row};
ghost use Rattle.locking_table.specs.Places.{most_levers};
ghost use Rattle.line_plan.specs.declared.frame.Lever.{Lever};
ghost use Rattle.row_texts.specs.Places.{once};
ghost use Rattle.row_texts.specs.Texts.{rows_of};
ghost use Rattle.locking_sheet.specs.Laws.{IsFrame};
ghost use Rattle.locking_sheet.specs.Sheets.{IsSheet, SheetFields, places_at, row_at};
ghost use Rattle.locking_sheet.specs.Texts.{IsSheetText};

/// A law: the rows that are read of the text of a locking table are those of the table, in their order.
#[tactic(auto, using(crate::proofs::ReadBack::read_back))]
pub fn read_back_law()
    ensures { (name : List ℕ) (levers : List Lever) (rows : List Row) (text : List ℕ) → lacks 10 name ≡ true
        → IsFrame levers rows → IsSheetText name levers rows text → rows_of text ≡ Ok rows }
{}

/// A law: each row stands once at its subject, and at no other lever; and once at its object as the converse, and at no
/// other.
#[tactic(auto, using(crate::proofs::Once::once_rules))]
pub fn place_law()
    ensures own { (rows : List Row) (sheet : SheetFields) (place lever : ℕ) → IsSheet rows sheet
        → place < length rows → lever ≤ most_levers
        → filter (λ p. p == place) (places_at sheet.own lever)
        ≡ once ((row_at rows place).subject == lever) place }
    ensures converse { (rows : List Row) (sheet : SheetFields) (place lever : ℕ) → IsSheet rows sheet
        → place < length rows → lever ≤ most_levers
        → filter (λ p. p == place) (places_at sheet.converse lever)
        ≡ once ((row_at rows place).object == lever) place }
{}
