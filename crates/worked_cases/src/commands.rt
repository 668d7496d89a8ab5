//! The working of a case of `signalbox`.

use crate::case_shelf::CaseShelf;
use crate::case_store::CaseStore;
use crate::worked_case::Answer;
use hand_working::{InputLines, Terminal};
use line_serving::RequestLines;
use rail_text::{MemSink, NoMemory};
use signalbox_top::signalbox_top;
use std::alloc::Global;

// The most bytes that a case may print, and that it may tell.
const ROOM: usize = 1_048_576;

// What is typed in a case: the text of this name.
const TYPED: &str = "typed";

// Nobody sits at a terminal.
const NO_TERMINAL: Terminal = Terminal {
    is_typed: false,
    has_colours: false,
};

// The text of this name, or none.
fn text_named(alloc: Global, texts: &[(String, Vec<u8>)], name: &str) -> Result<Vec<u8>, NoMemory> {
    for (other, bytes) in texts {
        if other.as_str() == name {
            return Ok(bytes.to_vec(alloc)?);
        }
    }
    Ok(Vec::new(alloc))
}

/// What `signalbox` answers to the words over a shelf of these texts. The lines of the text `typed` are typed; each
/// file that is written stands behind the output, under a line with its name.
pub fn work_command(
    alloc: Global,
    words: &[String],
    texts: Vec<(String, Vec<u8>)>,
) -> Result<Answer, NoMemory> {
    let typed = text_named(alloc, &texts, TYPED)?;
    let mut shelf = CaseShelf::new(alloc, texts);
    let mut lines = InputLines::new(alloc, typed.as_slice());
    let mut requests = RequestLines::new(typed.as_slice());
    let mut store = CaseStore::new(alloc);
    let mut out = MemSink::new(alloc, ROOM, ROOM, Vec::new(alloc))?;
    let mut told = MemSink::new(alloc, ROOM, ROOM, Vec::new(alloc))?;
    let status = signalbox_top(
        alloc,
        words,
        NO_TERMINAL,
        &mut shelf,
        &mut lines,
        &mut requests,
        &mut store,
        &mut out,
        &mut told,
    );
    let mut output = out.taken().to_vec(alloc)?;
    output.extend_from_slice(store.written())?;
    Ok(Answer {
        status: status.code(),
        output,
        told: told.taken().to_vec(alloc)?,
    })
}
