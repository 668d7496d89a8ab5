//! Locking tables as designers write them: a line for each lever, with its rows as short items. The reader gives the
//! rows, or the line and the cause for which the text is refused.
#![tactic(auto)]

mod cause;
mod draft;
mod items;
mod marks;
mod places;
mod printing;
mod reading;

pub use cause::{RowsCause, RowsError};
pub use places::{Places, places_by_key};
pub use printing::{cause_sentence, row_lines};
pub use reading::read_rows;
