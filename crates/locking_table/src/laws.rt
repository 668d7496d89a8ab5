//! What holds a lever, in the words of the locking.

ghost use Rattle.std.specs.Prelude.{◌≡◌, ◌≢◌, ◌↔◌, ℕ, All, Err, List, None, Ok, Some, false, true};
ghost use Rattle.locking_table.specs.declared.places.End.{End};
ghost use Rattle.locking_table.specs.declared.places.Stand.{Stand};
ghost use Rattle.locking_table.specs.declared.row.Holder.{Holder};
ghost use Rattle.locking_table.specs.declared.row.Row.{Row};
ghost use Rattle.locking_table.specs.declared.row.RowKind.TheVariants.{LocksBoth};
ghost use Rattle.locking_table.specs.FirstFault.{NamesTwice, StopsAt};
ghost use Rattle.locking_table.specs.Index.{names};
ghost use Rattle.locking_table.specs.Meaning.{IsFirstToFail, MayMove, RowHolds, holder_of, row_allows, row_holds};
ghost use Rattle.locking_table.specs.Places.{at_ends, stand_of};
ghost use Rattle.locking_table.specs.Printing.{row_text};
ghost use Rattle.locking_table.specs.Reading.{row_of};
ghost use Rattle.locking_table.specs.Sound.{IsRow};
ghost use Rattle.locking_table.specs.Words.{words_of};

use crate::fault::RowFault;

/// A law: nothing holds a lever exactly where it may move, and what holds it is the first row that fails.
pub fn holder_law()
    ensures free { (ends : List End) (lever : ℕ) (rows : List Row) → (holder_of ends lever rows ≡ None)
        ↔ MayMove ends lever rows }
    ensures first { (ends : List End) (lever : ℕ) (rows : List Row) (holder : Holder)
        → holder_of ends lever rows ≡ Some holder → IsFirstToFail ends lever rows holder }
{}

/// A law: a row that doesn't name a lever means the same wherever that lever stands. So rows that hold and don't name
/// it neither hold the lever nor are broken by its move; and of rows that hold, only one that names the lever holds it.
/// A row that locks both ways lets every lever move but its object.
pub fn unnamed_lever_law()
    ensures same { (ends : List End) (lever : ℕ) (place : Stand) (row : Row) → names lever row ≡ false
        → row_holds (stand_of ends lever place) row ≡ row_holds (at_ends ends) row }
    ensures free { (ends : List End) (lever : ℕ) (rows : List Row) → All (λ row. names lever row ≡ false) rows
        → All (RowHolds (at_ends ends)) rows → MayMove ends lever rows }
    ensures holder { (ends : List End) (lever : ℕ) (row : Row) → RowHolds (at_ends ends) row
        → row_allows ends lever row ≡ false → names lever row ≡ true }
    ensures both { (ends : List End) (lever : ℕ) (row : Row) → row.kind ≡ LocksBoth → row.object ≢ lever
        → row_allows ends lever row ≡ true }
{}

/// A law of rows as texts: what is printed of a row is read as that row, and a text that is read as a row is the one
/// that is printed of it. A text is off the grammar at the first word with which no row's text goes on, or one past
/// the last. Refused for a lever that is named twice are the texts of the grammar that name one twice, and no other.
pub fn row_law()
    ensures printed { (row : Row) → IsRow row → row_of (row_text row) ≡ Ok row }
    ensures spelled { (text : List ℕ) (row : Row) → row_of text ≡ Ok row → IsRow row × (text ≡ row_text row) }
    ensures bad_row { (text : List ℕ) (number : ℕ) → row_of text ≡ Err (RowFault.BadRow number)
        → StopsAt (words_of text) number }
    ensures same_lever { (text : List ℕ) → (row_of text ≡ Err RowFault.SameLever) ↔ NamesTwice text }
{}
