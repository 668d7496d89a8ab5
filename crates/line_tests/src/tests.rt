//! Whole runs over texts and a sink in memory, where a worked case can't say what is shown: calls of the shelf and the
//! sink that fail, what passes the gate, signalmen who work badly at once, and the desk alone.

mod alone;
mod bad_signalmen;
mod desk;
mod faults;
mod gates;
mod orders;
