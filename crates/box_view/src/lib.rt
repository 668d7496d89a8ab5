//! What a signalman sees at his own box, as text.
#![tactic(auto)]

mod answer;
mod block_look;
mod codes;
mod frame_look;
mod listener;
mod look;
mod may;
mod meaning;
mod notices;
mod ordinals;
mod rules;
mod sides;
mod sounds;
mod why;
mod words;

pub use answer::put_answer;
pub use block_look::{first_coming, unheard_from};
pub use codes::put_codes;
pub use listener::listener_of;
pub use look::put_look;
pub use may::put_may;
pub use notices::{Listener, put_notices};
pub use why::put_why;
