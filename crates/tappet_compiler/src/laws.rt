//! The bridles of a table do what the table says.

ghost use Rattle.std.specs.Prelude.{◌≡◌, ◌↔◌, ℕ, List, option_map};
ghost use Rattle.locking_table.specs.declared.places.End.{End};
ghost use Rattle.locking_table.specs.declared.places.Stand.TheVariants.{AtMid};
ghost use Rattle.locking_table.specs.declared.row.Row.{Row};
ghost use Rattle.locking_table.specs.Meaning.{MayMove, holder_of, row_allows, row_holds};
ghost use Rattle.locking_table.specs.Places.{LeverPlace, stand_of};
ghost use Rattle.bridle_frame.specs.declared.frame.Shift.TheVariants.{Shifted};
ghost use Rattle.bridle_frame.specs.Seated.{seated};
ghost use Rattle.bridle_frame.specs.Shifts.{first_holder, reply_of, shift_of};
ghost use Rattle.tappet_compiler.specs.Compiled.{bridle_of, compiled};

use bridle_frame::mid_is_enough;
use locking_table::holder_law;

/// A law: in every state of a frame the bridle of a row is seated exactly where the row holds.
pub fn seated_where_row_holds()
    ensures { (places : LeverPlace) (row : Row) (number : ℕ)
        → seated places (bridle_of row number) ≡ row_holds places row }
{}

/// A law: the one test with the lever at mid is what the table allows, and the first bridle that isn't seated then
/// is of the row that holds the lever, and names the same lever.
pub fn same_holder()
    ensures mid { (ends : List End) (lever : ℕ) (row : Row)
        → row_allows ends lever row ≡ row_holds (stand_of ends lever AtMid) row }
    ensures holder { (ends : List End) (lever : ℕ) (rows : List Row)
        → first_holder (stand_of ends lever AtMid) lever (compiled 1 rows) ≡ holder_of ends lever rows }
    ensures shift { (ends : List End) (lever : ℕ) (rows : List Row)
        → shift_of ends lever (compiled 1 rows) ≡ reply_of (option_map (λ h. h.row) (holder_of ends lever rows)) }
    ensures moves { (ends : List End) (lever : ℕ) (rows : List Row)
        → (shift_of ends lever (compiled 1 rows) ≡ Shifted) ↔ MayMove ends lever rows }
{
    mid_is_enough();
    holder_law();
}
