//! The signals of a box, and the track circuits that lock its levers. Places are numbered from 0 in their box.

use crate::items::Items;
use block_words::Way;

/// Where a signal leads.
#[derive(Clone, Copy, Debug, PartialEq, Eq)]
pub enum To {
    /// To a place of the box.
    Place(u32),
    /// Into the section of an outgoing line: such a signal is the starter of that line.
    Section(Way),
    /// Off the line.
    Away,
}

/// A signal or starter.
#[derive(Debug, Drop)]
pub struct Signal {
    /// The lever that works its arm.
    pub lever: u32,
    /// The place where a train stands at it.
    pub from: u32,
    /// The places over which a train runs that passes it, at most four.
    pub over: Items<u32>,
    /// Where the train then stands.
    pub to: To,
}

/// The track circuits that lock a lever while a train stands on one of them.
#[derive(Debug, Drop)]
pub struct TrackLock {
    pub lever: u32,
    /// One to eight places.
    pub places: Items<u32>,
}
