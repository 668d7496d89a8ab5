//! Where an entry stands in the sheets of its box.

ghost use Rattle.std.specs.Prelude.{◌≡◌, ◌<◌};
ghost use Rattle.register_sheet.specs.Columns.{column_no};

use bell_codes::CodeNo;
use block_words::Way;

/// A column of the register, in the order in which they stand in it: first what is received from the box in the rear
/// and given to it, then what passes between this box and the box in advance.
#[derive(Clone, Copy, Debug, PartialEq, Eq)]
pub enum Column {
    /// Is Line Clear received.
    Received,
    /// Accepted: the offer was repeated to the box in the rear.
    Accepted,
    /// Train Entering Section received.
    EnteringReceived,
    /// The train came to the berth.
    Arrived,
    /// Train Out of Section given.
    OutGiven,
    /// Offered to the box in advance.
    Offered,
    /// Accepted by the box in advance: it repeated the offer.
    AcceptedAhead,
    /// Train Entering Section given.
    EnteringGiven,
    /// The train went into the section ahead.
    Departed,
    /// Train Out of Section received.
    OutReceived,
}

/// Where an entry stands. Lines are numbered from 0 in the sheets of their box, those of both ways in one row.
#[derive(Clone, Copy, Debug)]
pub enum Spot {
    /// In a column of a line that it opens.
    NewLine {
        way: Way,
        code: CodeNo,
        column: Column,
    },
    /// In a column of a line.
    Written {
        way: Way,
        line: usize,
        column: Column,
    },
    /// Among the remarks of a line, or of the sheet.
    Remark {
        way: Way,
        line: Option<usize>,
    },
    /// Beside the sheets: the register doesn't ask for it.
    Beside,
}

/// A column's number, from 0.
pub fn column_no(column: Column) -> usize
    ensures number { result ≡ column_no column }
    ensures few { result < 10 }
{
    match column {
        Column::Received => 0,
        Column::Accepted => 1,
        Column::EnteringReceived => 2,
        Column::Arrived => 3,
        Column::OutGiven => 4,
        Column::Offered => 5,
        Column::AcceptedAhead => 6,
        Column::EnteringGiven => 7,
        Column::Departed => 8,
        Column::OutReceived => 9,
    }
}
