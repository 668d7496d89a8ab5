//! A run over texts and a sink in memory. What is owned ends in a `drop` of its own before each exit: its end is proved
//! wherever a function may be left.

use box_top::{Gate, Status, box_top, desk_top};
use rail_text::{MemShelf, MemSink, NoMemory};
use std::alloc::Global;
use std::process::Abort;
use std::sync::Wait;
use std::thread::Threads;

/// The words that run a plan of two boxes.
pub const RUN_TWO: &[&str] = &["run", "plan", "ash", "beech"];

/// The words that watch it for two rounds.
pub const WATCH_TWO: &[&str] = &["watch", "2", "plan", "ash", "beech"];

/// The words that judge a journal.
pub const JUDGE: &[&str] = &["judge", "plan", "journal"];

/// A line of two boxes.
pub const TWO_BOXES: &[u8] =
    b"plan 1\nboxes 2\ndelay 2\nlooks 1000000000\nbox Ash\nbox Beech\nend\n";

/// Scripts without a call.
pub const ASH_IDLE: &[u8] = b"script Ash\nend\n";

pub const BEECH_IDLE: &[u8] = b"script Beech\nend\n";

/// A journal without an entry.
pub const IDLE_JOURNAL: &[u8] = b"journal 1\nend\n";

/// The words that audit a journal.
pub const AUDIT: &[&str] = &["audit", "plan", "journal"];

/// The words that work a single line with tokens.
pub const TOKEN: &[&str] = &["token", "single"];

/// A token script without a call.
pub const TOKEN_IDLE: &[u8] = b"token 1\ntokens 1 0\nend\n";

/// Which fetch and which put fails, counted from 1, if any, and how many bytes the sink has room for.
#[derive(Clone, Copy, Debug)]
pub struct Outside {
    pub bad_fetch: Option<u64>,
    pub bad_put: Option<u64>,
    pub room: usize,
}

/// No call fails, and there is ample room.
pub const SOUND: Outside = Outside {
    bad_fetch: None,
    bad_put: None,
    room: 16384,
};

/// The status of a run, and how many bytes its sink has taken, where they are the first of those that were looked for.
#[derive(Clone, Copy)]
pub struct Answer {
    pub status: Status,
    pub taken: Option<usize>,
}

impl Answer {
    /// Is this the answer to a command with that status and output, where the sink takes so many bytes at most?
    pub fn fills(self, room: usize, status: Status, printed: &[u8]) -> bool {
        if room < printed.len() {
            self.status == Status::SinkFault && self.taken == Some(room)
        } else {
            self.status == status && self.taken == Some(printed.len())
        }
    }
}

// The words of a command line, the shelf that the texts lie on, and the sink.
#[derive(Drop)]
struct Desk {
    words: Vec<String>,
    shelf: MemShelf,
    out: MemSink,
}

fn push_words(owned: &mut Vec<String>, alloc: Global, words: &[&str]) -> Result<(), NoMemory> {
    for word in words {
        owned.push(String::from_str(alloc, word)?)?;
    }
    Ok(())
}

fn words_of(alloc: Global, words: &[&str]) -> Result<Vec<String>, NoMemory> {
    let mut owned = Vec::new(alloc);
    match push_words(&mut owned, alloc, words) {
        Ok(()) => Ok(owned),
        Err(error) => {
            drop(owned);
            Err(error)
        }
    }
}

fn fails_of(alloc: Global, call: Option<u64>) -> Result<Vec<u64>, NoMemory> {
    let mut fails = Vec::new(alloc);
    if let Some(call) = call {
        fails.push(call)?;
    }
    Ok(fails)
}

// A text under the word that names it.
fn named(alloc: Global, name: &str, text: &[u8]) -> Result<(String, Vec<u8>), NoMemory> {
    let name = String::from_str(alloc, name)?;
    match text.to_vec(alloc) {
        Ok(text) => Ok((name, text)),
        Err(error) => {
            drop(name);
            Err(error.into())
        }
    }
}

// How many words stand before those that name texts.
fn words_before_texts(words: &[&str]) -> usize {
    match words {
        ["watch", ..] => 2,
        _ => 1,
    }
}

// Puts texts, each under the word that names it, behind others.
fn push_texts(
    held: &mut Vec<(String, Vec<u8>)>,
    alloc: Global,
    words: &[&str],
    texts: &[&[u8]],
) -> Result<(), NoMemory> {
    for (name, text) in words.iter().skip(words_before_texts(words)).zip(texts) {
        held.push(named(alloc, name, text)?)?;
    }
    Ok(())
}

// The texts, each under the word that names it.
fn shelf_of(
    alloc: Global,
    words: &[&str],
    texts: &[&[u8]],
    bad_fetch: Option<u64>,
) -> Result<MemShelf, NoMemory> {
    let fails = fails_of(alloc, bad_fetch)?;
    let mut held = Vec::new(alloc);
    match push_texts(&mut held, alloc, words, texts) {
        Ok(()) => Ok(MemShelf::new(held, fails)),
        Err(error) => {
            drop(held);
            drop(fails);
            Err(error)
        }
    }
}

// A sink that takes ten bytes in a put.
fn sink_of(alloc: Global, outside: Outside) -> Result<MemSink, NoMemory> {
    MemSink::new(alloc, outside.room, 10, fails_of(alloc, outside.bad_put)?)
}

// A desk with these words.
fn with_words(
    alloc: Global,
    words: &[&str],
    shelf: MemShelf,
    out: MemSink,
) -> Result<Desk, NoMemory> {
    match words_of(alloc, words) {
        Ok(words) => Ok(Desk { words, shelf, out }),
        Err(error) => {
            drop(shelf);
            drop(out);
            Err(error)
        }
    }
}

// A desk with these words, over a shelf of the texts that they name, as many as are given.
fn desk_of(
    alloc: Global,
    words: &[&str],
    texts: &[&[u8]],
    outside: Outside,
) -> Result<Desk, NoMemory> {
    let shelf = shelf_of(alloc, words, texts, outside.bad_fetch)?;
    match sink_of(alloc, outside) {
        Ok(out) => with_words(alloc, words, shelf, out),
        Err(error) => {
            drop(shelf);
            Err(error)
        }
    }
}

// How many bytes were taken, where they are the first of those that are looked for.
fn taken_of(taken: &[u8], wanted: &[u8]) -> Option<usize> {
    let front = wanted.get(..taken.len())?;
    if front == taken {
        Some(taken.len())
    } else {
        None
    }
}

/// Does what the words say, over a shelf of the texts that they name, as many as are given, and looks for these bytes
/// in the sink.
pub fn work_behind<R: Threads + Wait + Sync, G: Gate>(
    rt: &R,
    alloc: Global,
    words: &[&str],
    texts: &[&[u8]],
    outside: Outside,
    gate: &G,
    wanted: &[u8],
) -> Result<Answer, NoMemory> {
    let mut desk = desk_of(alloc, words, texts, outside)?;
    let status = box_top(rt, alloc, &desk.words, &mut desk.shelf, &mut desk.out, gate);
    let taken = taken_of(desk.out.taken(), wanted);
    drop(desk);
    Ok(Answer { status, taken })
}

/// The same, and gives what the sink has taken.
pub fn output_behind<R: Threads + Wait + Sync, G: Gate>(
    rt: &R,
    alloc: Global,
    words: &[&str],
    texts: &[&[u8]],
    outside: Outside,
    gate: &G,
) -> Result<(Status, Vec<u8>), NoMemory> {
    let mut desk = desk_of(alloc, words, texts, outside)?;
    let status = box_top(rt, alloc, &desk.words, &mut desk.shelf, &mut desk.out, gate);
    let output = desk.out.taken().to_vec(alloc);
    drop(desk);
    Ok((status, output?))
}

/// The same at the desk alone, where no call fails and there is ample room.
pub fn serve_at_desk(
    alloc: Global,
    words: &[&str],
    texts: &[&[u8]],
    wanted: &[u8],
) -> Result<Answer, NoMemory> {
    let mut desk = desk_of(alloc, words, texts, SOUND)?;
    let status = desk_top(alloc, &desk.words, &mut desk.shelf, &mut desk.out);
    let taken = taken_of(desk.out.taken(), wanted);
    drop(desk);
    Ok(Answer { status, taken })
}

/// Ends the test where what was answered isn't what is wanted, and tells the words and the number of the case.
pub fn agrees(rt: &impl Abort, words: &[&str], case: u64, is_so: bool) {
    assert!(rt; is_so, "{words:?} at {case}");
}
