//! The worked cases and rows: whole runs, texts with what is printed of them, and calls of the libraries with their
//! answers. Each that differs from what is wanted is told. How they are written is told in docs/CASES.md.
#![tactic(auto)]

mod answers;
mod case_fault;
mod case_folder;
mod case_line;
mod case_reader;
mod case_shelf;
mod case_store;
mod cases;
mod charts;
mod codes;
mod commands;
mod explanations;
mod files;
mod folder_kind;
mod frames;
mod moments;
mod plans;
mod putting;
mod report;
mod row_line;
mod row_work;
mod rows;
mod spelling;
mod tables;
mod texts;
mod words;
mod worked_case;
mod working;

use anyhow::{Result, bail};
use cases::{work_folders, work_texts};
use files::path_of;
use folder_kind::FolderKind;
use report::Tally;
use rows::work_rows;
use std::env;
use std::process::ExitCode;
use std::rt::Files;
use std::sync::Wait;
use std::thread::Threads;

// The one word behind the program's name.
fn data_folder(rt: &HostRuntime) -> Result<String> {
    let mut words = env::args(rt)?.skip(1);
    match (words.next(), words.next()) {
        (Some(folder), None) => Ok(folder),
        _ => bail!("one word is wanted: the folder of the cases"),
    }
}

// The cases of a kind below the folder of the cases.
fn work_folders_below<R: Files + Print + AllocGlobal + Clone + Drop + Threads + Wait + Sync>(
    rt: &R,
    folder: &str,
    kind: FolderKind,
) -> Result<Tally> {
    let cases = path_of(rt.alloc(), folder, kind.folder())?;
    work_folders(rt, cases.as_str(), kind)
}

// The short cases below the folder of the cases.
fn work_texts_below<R: Files + Print + AllocGlobal + Clone + Drop + Threads + Wait + Sync>(
    rt: &R,
    folder: &str,
) -> Result<Tally> {
    let texts = path_of(rt.alloc(), folder, "texts")?;
    work_texts(rt, texts.as_str())
}

// The rows below the folder of the cases.
fn work_rows_below<R: Files + Print + AllocGlobal + Clone + Drop>(
    rt: &R,
    folder: &str,
) -> Result<Tally> {
    let rows = path_of(rt.alloc(), folder, "rows")?;
    let plans = path_of(rt.alloc(), folder, "plans")?;
    work_rows(rt, rows.as_str(), plans.as_str())
}

// Works the cases of a kind, and tells how many agree. Whether all do.
fn tell_folders<R: Files + Print + AllocGlobal + Clone + Drop + Threads + Wait + Sync>(
    rt: &R,
    folder: &str,
    kind: FolderKind,
) -> Result<bool> {
    let tally = work_folders_below(rt, folder, kind)?;
    let name = kind.folder();
    println!(rt; "{name} {tally}")?;
    Ok(tally.all_agree())
}

// Works the short cases and the rows, and tells how many agree. Whether all do.
fn tell_files<R: Files + Print + AllocGlobal + Clone + Drop + Threads + Wait + Sync>(
    rt: &R,
    folder: &str,
) -> Result<bool> {
    let texts = work_texts_below(rt, folder)?;
    println!(rt; "texts {texts}")?;
    let rows = work_rows_below(rt, folder)?;
    println!(rt; "rows {rows}")?;
    Ok(texts.all_agree() && rows.all_agree())
}

// Works all cases and rows below a folder, and tells how many agree. Whether all do.
fn work_all<R: Files + Print + AllocGlobal + Clone + Drop + Threads + Wait + Sync>(
    rt: &R,
    folder: &str,
) -> Result<bool> {
    let runs = tell_folders(rt, folder, FolderKind::Run)?;
    let explanations = tell_folders(rt, folder, FolderKind::Explanation)?;
    let commands = tell_folders(rt, folder, FolderKind::Command)?;
    let files = tell_files(rt, folder)?;
    Ok(runs && explanations && commands && files)
}

fn main(rt: HostRuntime) -> Result<ExitCode> {
    let folder = data_folder(&rt)?;
    if work_all(&rt, folder.as_str())? {
        Ok(ExitCode::SUCCESS)
    } else {
        Ok(ExitCode::FAILURE)
    }
}
