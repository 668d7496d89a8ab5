//! Where things stand in a picture, in units of which a lever's column takes 36.

ghost use Rattle.std.specs.Prelude.{◌≡◌, ◌<◌, ◌≤◌, ◌^◌};
ghost use Rattle.frame_picture.specs.Places.{channel_at, chart_end, column_of, groove_length, height, levers_top};
ghost use Rattle.frame_picture.specs.Places.{row_columns, row_lines, rows_end, rows_top, tappet_length, tappets_top};
ghost use Rattle.frame_picture.specs.Places.{width};

// The room at each side.
pub const MARGIN: u64 = 48;
// The width of a lever's column.
const COLUMN: u64 = 36;
// The height of a channel.
const CHANNEL: u64 = 30;
// The height of a line of text.
pub const LINE: u64 = 16;
// The width of a column of rows.
pub const ROW_COLUMN: u64 = 430;
// The least width of a picture.
const LEAST_WIDTH: u64 = 800;

/// The places of the parts of a picture.
#[derive(Clone, Copy, Debug)]
pub struct Layout {
    /// The number of the last lever.
    pub levers: u32,
    /// How many channels there are.
    pub channels: u32,
    /// How many rows there are.
    pub rows: u32,
    /// How many characters the longest word of what levers work has.
    pub longest: u32,
}

/// The left edge of a lever's column.
pub fn column_of(lever: u32) -> u64
    ensures value { result ≡ column_of lever }
    ensures most { result < 2 ^ 38 }
{
    30 + COLUMN * lever as u64
}

impl Layout {
    /// The width of the picture.
    pub fn width(&self) -> u64
        ensures value { result ≡ width self.now }
        ensures least { 800 ≤ result }
        ensures most { result < 2 ^ 40 }
    {
        LEAST_WIDTH.max(column_of(self.levers) + COLUMN + MARGIN)
    }

    /// The tops of the levers, below what they work.
    pub fn levers_top(&self) -> u64
        ensures value { result ≡ levers_top self.now }
        ensures most { result < 2 ^ 36 }
    {
        84 + 6 * self.longest as u64
    }

    /// Where the levers end and the tappets begin.
    pub fn tappets_top(&self) -> u64
        ensures value { result ≡ tappets_top self.now }
        ensures most { result < 2 ^ 37 }
    {
        self.levers_top() + 120
    }

    /// The top of a channel.
    pub fn channel_at(&self, channel: u32) -> u64
        ensures value { result ≡ channel_at self.now channel }
        ensures most { result < 2 ^ 39 }
    {
        self.tappets_top() + CHANNEL * channel as u64
    }

    /// The length of a groove, across all columns.
    pub fn groove_length(&self) -> u64
        ensures value { result ≡ groove_length self.now }
        ensures most { result < 2 ^ 40 }
    {
        column_of(self.levers) + 18
    }

    /// The length of a tappet.
    pub fn tappet_length(&self) -> u64
        ensures value { result ≡ tappet_length self.now }
        ensures most { result < 2 ^ 40 }
    {
        CHANNEL * self.channels as u64 + 44
    }

    /// Where the tappets end.
    pub fn chart_end(&self) -> u64
        ensures value { result ≡ chart_end self.now }
        ensures most { result < 2 ^ 40 }
    {
        self.channel_at(self.channels) + CHANNEL
    }

    /// How many columns the rows are printed in.
    pub fn row_columns(&self) -> u64
        ensures value { result ≡ row_columns self.now }
        ensures least { 1 ≤ result }
        ensures most { result < 2 ^ 40 }
    {
        (self.width() - 2 * MARGIN) / ROW_COLUMN
    }

    /// The most lines of a column of rows.
    pub fn row_lines(&self) -> u64
        ensures value { result ≡ row_lines self.now }
        ensures least { 1 ≤ result }
        ensures most { result < 2 ^ 33 }
    {
        self.rows as u64 / self.row_columns() + 1
    }

    /// Where the rows begin.
    pub fn rows_top(&self) -> u64
        ensures value { result ≡ rows_top self.now }
        ensures least { 24 ≤ result }
        ensures most { result < 2 ^ 41 }
    {
        self.chart_end() + 84
    }

    /// Where the rows end.
    pub fn rows_end(&self) -> u64
        ensures value { result ≡ rows_end self.now }
        ensures most { result < 2 ^ 42 }
    {
        self.rows_top() + LINE * self.row_lines()
    }

    /// The height of the picture.
    pub fn height(&self) -> u64
        ensures value { result ≡ height self.now }
        ensures most { result < 2 ^ 43 }
    {
        self.rows_end() + 96
    }
}
