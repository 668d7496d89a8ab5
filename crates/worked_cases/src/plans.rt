//! Calls, replies and scripts of a line, and its plan.

ghost use Rattle.std.specs.Prelude.{◌<◌, length};

use crate::case_fault::CaseFault;
use crate::files::path_of;
use crate::putting::{Done, number_of, put_bytes, put_whether, two_parts};
use crate::texts::put_cause;
use line_law::Call;
use line_plan::Plan;
use plan_text::{print_plan, read_plan};
use rail_text::{KeptEnds, LineWords, ReadError};
use script_text::{
    is_spelled_reply, may_answer, print_call, print_reply, print_script, read_call, read_reply,
    read_script, reply_in,
};
use std::alloc::Global;
use std::fs;
use std::rt::Files;

// Puts what was printed.
fn put_printed(out: &mut String, printed: Vec<u8>) -> Done {
    let done = put_bytes(out, &printed);
    drop(printed);
    done
}

// Puts whether what was printed is the text.
fn put_whether_same(out: &mut String, printed: Vec<u8>, text: &str) -> Done {
    let is_same = printed.as_slice() == text.as_bytes();
    drop(printed);
    put_whether(out, is_same, "printed back", "printed otherwise")
}

// Puts why a text isn't read.
fn put_refusal(out: &mut String, error: ReadError) -> Done {
    match error {
        ReadError::Refused { line, cause } => {
            write!(out, "line {line}: ")?;
            put_cause(out, cause)
        }
        ReadError::NoMemory => Err(CaseFault::NoMemory),
    }
}

// `call PLAN BOX TEXT`: the call of a box that the text spells, and as what it is printed.
fn put_call(alloc: Global, out: &mut String, plan: &Plan, box_no: u32, text: &str) -> Done
    requires { box_no < length plan.now.boxes }
{
    match read_call(plan, box_no, text.as_bytes()) {
        Ok(call) => {
            write!(out, "{call:?} as ")?;
            put_printed(out, print_call(alloc, plan, box_no, &call)?)
        }
        Err(cause) => put_cause(out, cause),
    }
}

// Puts the reply for a call that a text spells, by the text and by its words, and as what it is printed.
fn put_reply_for(
    alloc: Global,
    out: &mut String,
    plan: &Plan,
    box_no: u32,
    call: &Call,
    text: &str,
) -> Done
    requires { box_no < length plan.now.boxes }
{
    let mut ends = KeptEnds::none();
    let words = LineWords::new(text.as_bytes(), &mut ends);
    let by_words = reply_in(plan, box_no, call.act, &words);
    let read = read_reply(plan, box_no, call, text.as_bytes());
    if read != by_words {
        return Ok(out.push_str("two answers")?);
    }
    match read {
        Ok(reply) if may_answer(call.act, &reply) && is_spelled_reply(plan, box_no, &reply) => {
            write!(out, "{reply:?} as ")?;
            put_printed(out, print_reply(alloc, plan, box_no, &reply)?)
        }
        Ok(_) => Ok(out.push_str("no reply")?),
        Err(cause) => put_cause(out, cause),
    }
}

// `reply PLAN BOX CALL -> TEXT`: the reply for the call that the text spells, and as what it is printed.
fn put_reply(alloc: Global, out: &mut String, plan: &Plan, box_no: u32, text: &str) -> Done
    requires { box_no < length plan.now.boxes }
{
    let (call, reply) = two_parts(text, " -> ")?;
    match read_call(plan, box_no, call.as_bytes()) {
        Ok(call) => put_reply_for(alloc, out, plan, box_no, &call, reply),
        Err(cause) => put_cause(out, cause),
    }
}

// `script PLAN BOX TEXT`: as what the script of a box that the text spells is printed.
fn put_script(alloc: Global, out: &mut String, plan: &Plan, box_no: u32, text: &str) -> Done
    requires { box_no < length plan.now.boxes }
{
    match read_script(alloc, plan, box_no, text.as_bytes()) {
        Ok(script) => {
            let is_of_box = script.box_no == box_no;
            let printed = print_script(alloc, plan, &script);
            drop(script);
            put_whether(out, is_of_box, "", "of another box ")?;
            put_printed(out, printed?)
        }
        Err(error) => put_refusal(out, error),
    }
}

// The answer of a call on a box of a plan.
fn put_box_answer(
    alloc: Global,
    out: &mut String,
    call: &str,
    plan: &Plan,
    argument: &str,
) -> Done {
    let (number, text) = two_parts(argument, " ")?;
    let box_no = number_of(number)?;
    if plan.boxes.len() <= box_no as usize {
        return Err(CaseFault::Argument);
    }
    match call {
        "call" => put_call(alloc, out, plan, box_no, text),
        "reply" => put_reply(alloc, out, plan, box_no, text),
        _ => put_script(alloc, out, plan, box_no, text),
    }
}

// The answer of a call on a plan, which has this text.
fn put_plan_answer(
    alloc: Global,
    out: &mut String,
    call: &str,
    plan: &Plan,
    text: &str,
    argument: &str,
) -> Done {
    match call {
        "plan" => put_whether_same(out, print_plan(alloc, plan)?, text),
        _ => put_box_answer(alloc, out, call, plan, argument),
    }
}

// The answer of a call on the plan that a text spells.
fn put_text_answer(
    alloc: Global,
    out: &mut String,
    call: &str,
    text: &str,
    argument: &str,
) -> Done {
    match read_plan(alloc, text.as_bytes()) {
        Ok(plan) => {
            let done = put_plan_answer(alloc, out, call, &plan, text, argument);
            drop(plan);
            done
        }
        Err(error) => put_refusal(out, error),
    }
}

/// Puts the answer of a call on the plan that the file of this name spells behind a text.
pub fn put_answer_on_plan<R: Files + AllocGlobal>(
    rt: &R,
    out: &mut String,
    folder: &str,
    call: &str,
    argument: &str,
) -> Done {
    let (name, argument) = argument.split_once(' ').unwrap_or((argument, ""));
    let path = path_of(rt.alloc(), folder, name)?;
    match fs::read_to_string(rt, path.as_str()) {
        Ok(text) => {
            let done = put_text_answer(rt.alloc(), out, call, text.as_str(), argument);
            drop(text);
            done
        }
        Err(_) => Err(CaseFault::Argument),
    }
}
