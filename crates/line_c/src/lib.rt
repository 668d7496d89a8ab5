//! The line for C: what `menglazou.h` offers, each call at a handle that its caller keeps. Nothing here starts a
//! thread, keeps a global or prints.
#![tactic(auto)]

mod calls;
mod lines;
mod looks;
mod rooms;
mod status;
mod texts;

pub use calls::{EntryNumbers, line_answer, line_entry, line_perform, line_read_call};
pub use lines::{FaultNumbers, line_box, line_close, line_count, line_explain, line_open};
pub use looks::line_look;
pub use status::{
    CLOSED, DONE, FULL, HAS_SCRIPT, MOMENT_FALLS, NO_MEMORY, NO_ROOM, OPEN, REFUSED, UNKNOWN,
};
pub use texts::{line_journal, line_judge, line_request, line_text};
