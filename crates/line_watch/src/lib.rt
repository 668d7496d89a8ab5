//! An observer of a line, who watches all its instruments while the boxes work, and the indicator board on which he
//! keeps what he saw.
#![tactic(auto)]

mod board;
mod laws;
mod numbers;
mod printing;
mod round;
mod sight;
mod told;
mod watcher;

pub use board::Board;
pub use laws::{board_law, sight_law};
pub use printing::{print_board, put_board};
pub use sight::Sight;
pub use watcher::Watcher;
