//! The locking chart of a lever frame: its bridles laid into the fewest channels across the tappets, with the tappet
//! column that shows that fewer can't do.
//!
//! Levers, bridles and channels are numbered from 1.
#![tactic(auto)]

mod charting;
mod charts;
mod checking;
mod column;
mod drawing;
mod laws;
mod layout;
mod printing;
mod span;

pub use charting::chart;
pub use charts::Chart;
pub use checking::chart_holds;
pub use laws::{rule_leaves_one_layout, shown_chart_has_fewest};
pub use printing::{bridles_of, print_box_chart, print_chart};
