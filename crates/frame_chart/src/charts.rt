//! The type of a chart.

use line_plan::Items;

/// The bridles of a frame in channels, and the tappet column that shows that fewer channels can't do.
#[derive(Debug, Drop)]
pub struct Chart {
    /// The channel of each bridle, in the order of the bridles.
    pub channels: Items<u32>,
    /// How many channels there are.
    pub count: u32,
    /// The lever whose tappet column crosses as many bridles as there are channels; 0 without bridles.
    pub column: u32,
    /// The numbers of the bridles that the column crosses, in order.
    pub crossing: Items<u32>,
}
