//! Files and folders of cases.

use crate::worked_case::push_word;
use anyhow::{Context, Result};
use std::alloc::{AllocError, Global};
use std::fs;
use std::io::ErrorKind;
use std::rt::Files;

/// The path of what has this name in a folder.
pub fn path_of(alloc: Global, folder: &str, name: &str) -> Result<String, AllocError> {
    format!(in alloc; "{folder}/{name}")
}

/// The names of what lies in a folder, in order.
pub fn names_in<R: Files + AllocGlobal + Clone + Drop>(
    rt: &R,
    folder: &str,
) -> Result<Vec<String>> {
    let mut names = Vec::new(rt.alloc());
    for entry in fs::read_dir(rt, folder).context(format_args!("{folder}"))? {
        let entry = entry.context(format_args!("{folder}"))?;
        push_word(rt.alloc(), &mut names, entry.file_name())?;
    }
    names.sort()?;
    Ok(names)
}

/// The bytes of the file that has this name in a folder.
pub fn bytes_of<R: Files + AllocGlobal>(rt: &R, folder: &str, name: &str) -> Result<Vec<u8>> {
    let path = path_of(rt.alloc(), folder, name)?;
    Ok(fs::read(rt, path.as_str()).context(format_args!("{name}"))?)
}

/// The bytes of the file that has this name in a folder; none where there is no such file.
pub fn bytes_if_any<R: Files + AllocGlobal>(rt: &R, folder: &str, name: &str) -> Result<Vec<u8>> {
    let path = path_of(rt.alloc(), folder, name)?;
    match fs::read(rt, path.as_str()) {
        Err(error) if error.kind() == ErrorKind::NotFound => Ok(Vec::new(rt.alloc())),
        read => Ok(read.context(format_args!("{name}"))?),
    }
}

/// The text of the file that has this name in a folder.
pub fn text_of<R: Files + AllocGlobal>(rt: &R, folder: &str, name: &str) -> Result<String> {
    let path = path_of(rt.alloc(), folder, name)?;
    Ok(fs::read_to_string(rt, path.as_str()).context(format_args!("{name}"))?)
}
