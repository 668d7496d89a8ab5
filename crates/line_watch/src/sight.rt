//! What is seen of a section's instrument.

use block_words::Position;

/// What an instrument showed at one look.
#[derive(Clone, Copy, Debug, PartialEq, Eq)]
pub struct Sight {
    /// How many times it was turned.
    pub turns: u64,
    /// What it shows.
    pub position: Position,
    /// Whether a pull of the starter has reached it since it was turned.
    pub spent: bool,
}
