//! The folder of a case: its words, its texts, and the answer that is wanted.

use crate::files::{bytes_if_any, bytes_of, names_in, path_of, text_of};
use crate::folder_kind::FolderKind;
use crate::worked_case::{Answer, Case, words_in};
use anyhow::{Context, Result};
use std::alloc::{AllocError, Global};
use std::rt::Files;
use std::str;

/// The file of the words of the command line, one word a line.
const WORDS: &str = "words";

/// The file of what a run has to print, and of the explanation that is wanted.
const EXPECTED: &str = "expected";

/// The file of the exit status that is wanted.
const STATUS: &str = "status";

/// The file of what a command has to print.
const OUT: &str = "out";

/// The file of what a command has to tell.
const TOLD: &str = "told";

// One word a line; a line may be an empty word.
fn words_of(alloc: Global, text: &str) -> Result<Vec<String>, AllocError> {
    if text.is_empty() {
        return words_in(alloc, None, '\n');
    }
    words_in(alloc, Some(text.strip_suffix('\n').unwrap_or(text)), '\n')
}

// The words of the command line.
fn read_words<R: Files + AllocGlobal>(rt: &R, folder: &str) -> Result<Vec<String>> {
    let text = text_of(rt, folder, WORDS)?;
    Ok(words_of(rt.alloc(), text.as_str())?)
}

fn is_text(name: &str) -> bool {
    name != WORDS && name != EXPECTED && name != STATUS && name != OUT && name != TOLD
}

// Puts the text of this name behind the others, where the file is one.
fn take_text<R: Files + AllocGlobal>(
    rt: &R,
    folder: &str,
    name: String,
    texts: &mut Vec<(String, Vec<u8>)>,
) -> Result<()> {
    if is_text(name.as_str()) {
        let bytes = bytes_of(rt, folder, name.as_str())?;
        texts.push((name, bytes))?;
    }
    Ok(())
}

// The texts that lie beside the words and what is wanted.
fn texts_in<R: Files + AllocGlobal + Clone + Drop>(
    rt: &R,
    folder: &str,
) -> Result<Vec<(String, Vec<u8>)>> {
    let mut texts = Vec::new(rt.alloc());
    for name in names_in(rt, folder)? {
        take_text(rt, folder, name, &mut texts)?;
    }
    Ok(texts)
}

fn status_in(text: &str) -> Result<u8> {
    Ok(
        text.trim_end()
            .parse::<u8>()
            .context(format_args!("{STATUS} line 1"))?,
    )
}

// The exit status that is wanted.
fn read_status<R: Files + AllocGlobal>(rt: &R, folder: &str) -> Result<u8> {
    let text = text_of(rt, folder, STATUS)?;
    status_in(text.as_str())
}

// The exit status that is wanted: 0 where no file names another.
fn read_status_if_any<R: Files + AllocGlobal>(rt: &R, folder: &str) -> Result<u8> {
    let bytes = bytes_if_any(rt, folder, STATUS)?;
    if bytes.is_empty() {
        return Ok(0);
    }
    status_in(str::from_utf8(&bytes).unwrap_or(""))
}

// The answer that is wanted of a run.
fn read_run<R: Files + AllocGlobal>(rt: &R, folder: &str) -> Result<Answer> {
    let status = read_status(rt, folder)?;
    let output = bytes_of(rt, folder, EXPECTED)?;
    let told = Vec::new(rt.alloc());
    Ok(Answer {
        status,
        output,
        told,
    })
}

// The explanation that is wanted.
fn read_explanation<R: Files + AllocGlobal>(rt: &R, folder: &str) -> Result<Answer> {
    let output = bytes_of(rt, folder, EXPECTED)?;
    let told = Vec::new(rt.alloc());
    Ok(Answer {
        status: 0,
        output,
        told,
    })
}

// The answer that is wanted of a command for people.
fn read_command<R: Files + AllocGlobal>(rt: &R, folder: &str) -> Result<Answer> {
    let status = read_status_if_any(rt, folder)?;
    let output = bytes_if_any(rt, folder, OUT)?;
    let told = bytes_if_any(rt, folder, TOLD)?;
    Ok(Answer {
        status,
        output,
        told,
    })
}

// The answer that is wanted.
fn read_wanted<R: Files + AllocGlobal>(rt: &R, folder: &str, kind: FolderKind) -> Result<Answer> {
    match kind {
        FolderKind::Run => read_run(rt, folder),
        FolderKind::Explanation => read_explanation(rt, folder),
        FolderKind::Command => read_command(rt, folder),
    }
}

// The case in a folder.
fn read_case<R: Files + AllocGlobal + Clone + Drop>(
    rt: &R,
    folder: &str,
    kind: FolderKind,
    name: String,
) -> Result<Case> {
    let words = read_words(rt, folder)?;
    let texts = texts_in(rt, folder)?;
    let wanted = read_wanted(rt, folder, kind)?;
    Ok(Case {
        name,
        words,
        texts,
        wanted,
    })
}

/// The case of a kind that has this name, in the folder of all cases of the kind.
pub fn read_folder<R: Files + AllocGlobal + Clone + Drop>(
    rt: &R,
    cases: &str,
    kind: FolderKind,
    name: &str,
) -> Result<Case> {
    let folder = path_of(rt.alloc(), cases, name)?;
    let name = path_of(rt.alloc(), kind.folder(), name)?;
    read_case(rt, folder.as_str(), kind, name)
}
