//! The berths of a box. Places are numbered from 0 in their box.

use crate::items::Items;

/// Where trains of an incoming line come to stand: the place before its home signals.
#[derive(Debug, Drop)]
pub struct Berth {
    pub place: u32,
    /// All levers whose signal or starter begins there, in lever order.
    pub homes: Items<u32>,
    /// The places that have to be clear for Line Clear beside the berth, at most eight.
    pub clearing: Items<u32>,
    /// How many trains may be accepted at once, from 1 to 3, where the line is permissive.
    pub permissive: Option<u8>,
}
