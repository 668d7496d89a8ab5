//! The plan of a line: its boxes, their levers, signals, berths and track circuits, its trains, and the limits under
//! which the signalmen work.
#![tactic(auto)]

mod berth;
mod box_plan;
mod copying;
mod frame;
mod growing;
mod items;
mod label;
mod limits;
mod numbers;
mod plan;
mod section;
mod signal;
mod ways;

pub use berth::Berth;
pub use box_plan::BoxPlan;
pub use copying::copied_names;
pub use frame::{Kind, Lever, kind_word};
pub use items::Items;
pub use label::Label;
pub use limits::{
    MOST_LOOKS, MOST_PLACES, MOST_PLAN_TRAINS, MOST_ROWS, PLAN_LIMIT, most_boxes, most_delay,
};
pub use numbers::Numbers;
pub use plan::{Class, Plan, TrainPlan};
pub use section::Section;
pub use signal::{Signal, To, TrackLock};
pub use ways::{comes_in, has_neighbour, leaves, way_word};
