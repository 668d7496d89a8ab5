//! What a line of desks has.

use box_desk::Desk;
use line_law::Plain;

/// The desks of a line and its words, and the same line in one hand.
#[derive(Drop)]
pub struct DeskLine {
    pub desks: Vec<Desk>,
    pub words: Vec<u64>,
    pub plain: Plain,
    pub boxes: u32,
}
