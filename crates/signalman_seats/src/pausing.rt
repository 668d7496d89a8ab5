//! What a signalman does between the looks of an await.

use crossbeam_utils::Backoff;

/// What is done between the looks of an await.
///
/// It promises nothing and changes nothing that a contract sees, so that what is proved of a call holds for every
/// pause.
pub trait Pauses {
    /// What is done after an unmet look, so many looks of the await having been taken, before the next one.
    fn pause(&self, taken: u32);

    /// What is done once an await has ended, after so many looks.
    fn ended(&self, taken: u32);

    /// Whether nobody else is at work, so that nothing can change until this await has ended, so many of its looks
    /// having been taken. The looks that are left are then taken at once, without pauses.
    fn is_alone(&self, taken: u32) -> bool;
}

/// Pauses that back off, and wait for nobody.
#[derive(Drop)]
pub struct BacksOff {
    backoff: Backoff,
}

impl BacksOff {
    /// Pauses that have not begun to back off.
    pub fn new() -> BacksOff {
        BacksOff {
            backoff: Backoff::new(),
        }
    }
}

impl Pauses for BacksOff {
    fn pause(&self, _taken: u32) {
        self.backoff.snooze();
    }

    fn ended(&self, _taken: u32) {}

    fn is_alone(&self, _taken: u32) -> bool {
        false
    }
}
