//! What stands at a box or on a section, as JSON objects for other programs, and what has changed there.
#![tactic(auto)]

mod changes;
mod names;
mod objects;
mod same;
mod thing;
mod things;

pub use changes::{changes_text, look_text, looks_text};
pub use thing::{BoxThing, LineTrains, ThingKind};
pub use things::{section_things, things_at};
