//! The equipment of a signal box.

use crate::incoming::IncomingLine;
use lever_frame::LeverFrame;
use line_law::ByWay;
use track_circuits::Tracks;
use train_moves::Trains;

/// What a box has for itself: the law's box state, in parts that work.
#[derive(Drop)]
pub(crate) struct Equipment {
    pub(crate) frame: LeverFrame,
    pub(crate) tracks: Tracks,
    /// Which trains of the plan were brought here.
    pub(crate) trains: Trains,
    pub(crate) lines: ByWay<IncomingLine>,
    /// How many codes it has rung towards each side.
    pub(crate) rung: ByWay<u64>,
    /// How many trains it has sent into each outgoing section.
    pub(crate) sent: ByWay<u64>,
    /// The moment of its last call.
    pub(crate) moment: u32,
}
