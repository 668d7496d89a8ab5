//! The worked cases: each is worked by a program's own top call over a shelf and a sink in memory, and each that
//! differs from what is wanted is told.

use crate::case_folder::read_folder;
use crate::case_reader::CaseReader;
use crate::files::{names_in, path_of};
use crate::folder_kind::FolderKind;
use crate::report::{Tally, refused, refused_at_end, tell_case};
use crate::worked_case::{Answer, Case};
use crate::working::work;
use anyhow::{Context, Result};
use std::fs;
use std::rt::Files;
use std::sync::Wait;
use std::thread::Threads;

// Whether the answer is the one that is wanted; where it isn't, the difference is told.
fn is_wanted<R: Print + AllocGlobal>(
    rt: &R,
    name: &str,
    wanted: &Answer,
    came: &Answer,
) -> Result<bool> {
    if came == wanted {
        return Ok(true);
    }
    tell_case(rt, name, wanted, came)?;
    Ok(false)
}

// Compares what came of a case with what is wanted. Whether it agrees.
fn agrees<R: Print + AllocGlobal + Threads + Wait + Sync>(
    rt: &R,
    kind: FolderKind,
    case: Case,
) -> Result<bool> {
    let Case {
        name,
        words,
        texts,
        wanted,
    } = case;
    let came = work(rt, rt.alloc(), kind, &words, texts)?;
    is_wanted(rt, name.as_str(), &wanted, &came)
}

// Works the case of a kind that has this name, in the folder of all cases of the kind. Whether it agrees.
fn folder_agrees<R: Files + Print + AllocGlobal + Clone + Drop + Threads + Wait + Sync>(
    rt: &R,
    cases: &str,
    kind: FolderKind,
    name: &str,
) -> Result<bool> {
    let case = read_folder(rt, cases, kind, name).context(format_args!("{cases}/{name}"))?;
    agrees(rt, kind, case)
}

/// Works the cases of a kind, each a folder of its own.
pub fn work_folders<R: Files + Print + AllocGlobal + Clone + Drop + Threads + Wait + Sync>(
    rt: &R,
    cases: &str,
    kind: FolderKind,
) -> Result<Tally> {
    let mut tally = Tally::new();
    for name in names_in(rt, cases)? {
        tally.count(folder_agrees(rt, cases, kind, name.as_str())?);
    }
    Ok(tally)
}

// Works a case that ended, if one did, and counts it.
fn count_case<R: Print + AllocGlobal + Threads + Wait + Sync>(
    rt: &R,
    ended: Option<Case>,
    tally: &mut Tally,
) -> Result<()> {
    if let Some(case) = ended {
        tally.count(agrees(rt, FolderKind::Run, case)?);
    }
    Ok(())
}

// Takes a line of a file of short cases, and works the case that ends before it, if one does.
fn take_line<R: Print + AllocGlobal + Threads + Wait + Sync>(
    rt: &R,
    path: &str,
    number: usize,
    reader: &mut CaseReader<'_>,
    line: &str,
    tally: &mut Tally,
) -> Result<()> {
    match reader.take(number, line) {
        Ok(ended) => count_case(rt, ended, tally),
        Err(fault) => Err(refused(path, number, fault)),
    }
}

// Ends a file of short cases, and works the case that ends there, if one does.
fn take_end<R: Print + AllocGlobal + Threads + Wait + Sync>(
    rt: &R,
    path: &str,
    reader: &mut CaseReader<'_>,
    tally: &mut Tally,
) -> Result<()> {
    match reader.end() {
        Ok(ended) => count_case(rt, ended, tally),
        Err(fault) => Err(refused_at_end(path, fault)),
    }
}

// Takes the lines of a file of short cases, and works each case where it ends.
fn take_lines<R: Print + AllocGlobal + Threads + Wait + Sync>(
    rt: &R,
    path: &str,
    reader: &mut CaseReader<'_>,
    text: &str,
    tally: &mut Tally,
) -> Result<()> {
    for (before, line) in text.split('\n').enumerate() {
        take_line(rt, path, before.saturating_add(1), reader, line, tally)?;
    }
    take_end(rt, path, reader, tally)
}

// The short cases of the text of one file.
fn work_text<R: Print + AllocGlobal + Threads + Wait + Sync>(
    rt: &R,
    path: &str,
    name: &str,
    text: &str,
    tally: &mut Tally,
) -> Result<()> {
    let mut reader = CaseReader::new(rt.alloc(), name);
    let done = take_lines(rt, path, &mut reader, text, tally);
    drop(reader);
    done
}

// The short cases of one file.
fn work_file<R: Files + Print + AllocGlobal + Threads + Wait + Sync>(
    rt: &R,
    folder: &str,
    name: &str,
    tally: &mut Tally,
) -> Result<()> {
    let path = path_of(rt.alloc(), folder, name)?;
    let text = fs::read_to_string(rt, path.as_str()).context(format_args!("{path}"))?;
    let done = work_text(rt, path.as_str(), name, text.as_str(), tally);
    drop(text);
    done
}

/// Works the short cases of the files of a folder.
pub fn work_texts<R: Files + Print + AllocGlobal + Clone + Drop + Threads + Wait + Sync>(
    rt: &R,
    folder: &str,
) -> Result<Tally> {
    let mut tally = Tally::new();
    for name in names_in(rt, folder)? {
        work_file(rt, folder, name.as_str(), &mut tally)?;
    }
    Ok(tally)
}
