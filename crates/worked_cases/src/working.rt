//! The working of a case.

use crate::commands::work_command;
use crate::explanations::explain_first;
use crate::folder_kind::FolderKind;
use crate::worked_case::Answer;
use box_top::{OpenGate, box_top};
use rail_text::{MemShelf, MemSink, NoMemory};
use std::alloc::Global;
use std::sync::Wait;
use std::thread::Threads;

// The most bytes that a case may print.
const ROOM: usize = 1_048_576;

// What `box_main` answers to the words over a shelf of these texts, with the gate open.
fn work_run<R: Threads + Wait + Sync>(
    rt: &R,
    alloc: Global,
    words: &[String],
    texts: Vec<(String, Vec<u8>)>,
) -> Result<Answer, NoMemory> {
    let mut shelf = MemShelf::new(texts, Vec::new(alloc));
    let mut sink = MemSink::new(alloc, ROOM, ROOM, Vec::new(alloc))?;
    let status = box_top(rt, alloc, words, &mut shelf, &mut sink, &OpenGate);
    Ok(Answer {
        status: status.code(),
        output: sink.taken().to_vec(alloc)?,
        told: Vec::new(alloc),
    })
}

// What is told of the first of these texts that is refused.
fn explain_texts(
    alloc: Global,
    words: &[String],
    texts: Vec<(String, Vec<u8>)>,
) -> Result<Answer, NoMemory> {
    let answer = explain_first(alloc, words, &texts);
    drop(texts);
    answer
}

/// What is answered in a case of this kind to its words, over a shelf of its texts.
pub fn work<R: Threads + Wait + Sync>(
    rt: &R,
    alloc: Global,
    kind: FolderKind,
    words: &[String],
    texts: Vec<(String, Vec<u8>)>,
) -> Result<Answer, NoMemory> {
    match kind {
        FolderKind::Run => work_run(rt, alloc, words, texts),
        FolderKind::Explanation => explain_texts(alloc, words, texts),
        FolderKind::Command => work_command(alloc, words, texts),
    }
}
