//! What is told of the first text that is refused.

ghost use Rattle.std.specs.Prelude.{◌<◌, length};

use crate::worked_case::Answer;
use fault_sentences::{TextKind, explain};
use line_plan::Plan;
use line_report::read_journal;
use plan_text::read_plan;
use rail_text::{NoMemory, ReadError};
use script_text::read_script;
use std::alloc::Global;
use token_text::read_tokens;

// A text, with its name.
#[derive(Clone, Copy)]
struct NamedText<'a> {
    name: &'a str,
    bytes: &'a [u8],
}

// The text of this name; an empty one where there is none.
fn text_named<'a>(texts: &'a [(String, Vec<u8>)], name: &'a str) -> NamedText<'a> {
    for text in texts {
        if text.0.as_str() == name {
            return NamedText {
                name,
                bytes: text.1.as_slice(),
            };
        }
    }
    NamedText { name, bytes: b"" }
}

// What is told of a text that isn't read.
fn told_of(
    alloc: Global,
    text: NamedText<'_>,
    kind: TextKind<'_>,
    error: ReadError,
) -> Result<String, NoMemory> {
    match error {
        ReadError::Refused { line, cause } => {
            explain(alloc, text.name, text.bytes, kind, line, cause)
        }
        ReadError::NoMemory => Err(NoMemory),
    }
}

// What is told of a script with tokens; nothing where it is read.
fn told_of_tokens(alloc: Global, text: NamedText<'_>) -> Result<String, NoMemory> {
    match read_tokens(alloc, text.bytes) {
        Ok(script) => {
            drop(script);
            Ok(String::new(alloc))
        }
        Err(error) => told_of(alloc, text, TextKind::Token, error),
    }
}

// What is told of a journal; nothing where it is read.
fn told_of_journal(alloc: Global, plan: &Plan, text: NamedText<'_>) -> Result<String, NoMemory> {
    match read_journal(alloc, plan, text.bytes) {
        Ok(journal) => {
            drop(journal);
            Ok(String::new(alloc))
        }
        Err(error) => told_of(alloc, text, TextKind::Journal { plan }, error),
    }
}

// What is told of the script of a box; nothing where it is read.
fn told_of_script(
    alloc: Global,
    plan: &Plan,
    box_no: u32,
    text: NamedText<'_>,
) -> Result<String, NoMemory>
    requires { box_no < length plan.now.boxes }
{
    match read_script(alloc, plan, box_no, text.bytes) {
        Ok(script) => {
            drop(script);
            Ok(String::new(alloc))
        }
        Err(error) => told_of(alloc, text, TextKind::Script { plan, box_no }, error),
    }
}

// What is told of a text behind the plan and so many others: a journal by its name, else the script of a box.
fn told_of_other(
    alloc: Global,
    plan: &Plan,
    others: usize,
    text: NamedText<'_>,
) -> Result<String, NoMemory> {
    if text.name.ends_with(".journal") {
        return told_of_journal(alloc, plan, text);
    }
    match u32::try_from(others) {
        Ok(box_no) if (box_no as usize) < plan.boxes.len() => {
            told_of_script(alloc, plan, box_no, text)
        }
        _ => Ok(String::new(alloc)),
    }
}

// What is told of the first of the texts behind a plan that is refused.
fn told_of_others(
    alloc: Global,
    plan: &Plan,
    names: &[String],
    texts: &[(String, Vec<u8>)],
) -> Result<String, NoMemory> {
    for (others, name) in names.iter().enumerate() {
        let told = told_of_other(alloc, plan, others, text_named(texts, name.as_str()))?;
        if !told.is_empty() {
            return Ok(told);
        }
    }
    Ok(String::new(alloc))
}

// What is told of the first of a plan and the texts behind it that is refused.
fn told_from_plan(
    alloc: Global,
    plan: NamedText<'_>,
    names: &[String],
    texts: &[(String, Vec<u8>)],
) -> Result<String, NoMemory> {
    match read_plan(alloc, plan.bytes) {
        Ok(plan) => {
            let told = told_of_others(alloc, &plan, names, texts);
            drop(plan);
            told
        }
        Err(error) => told_of(alloc, plan, TextKind::Plan, error),
    }
}

// What is told of the first of the texts of these names that is refused.
fn told_of_first(
    alloc: Global,
    names: &[String],
    texts: &[(String, Vec<u8>)],
) -> Result<String, NoMemory> {
    let Some((first, others)) = names.split_first() else {
        return Ok(String::new(alloc));
    };
    let text = text_named(texts, first.as_str());
    if first.as_str().ends_with(".plan") {
        told_from_plan(alloc, text, others, texts)
    } else {
        told_of_tokens(alloc, text)
    }
}

/// What is told of the first of the texts of these names that is refused; nothing where all are read. They are read in
/// this order: a plan and then a journal or the scripts of its boxes, or a script with tokens alone.
pub fn explain_first(
    alloc: Global,
    names: &[String],
    texts: &[(String, Vec<u8>)],
) -> Result<Answer, NoMemory> {
    let told = told_of_first(alloc, names, texts)?;
    Ok(Answer {
        status: 0,
        output: told.into_bytes(),
        told: Vec::new(alloc),
    })
}
