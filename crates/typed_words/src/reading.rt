//! What a typed line comes to.

ghost use Rattle.std.specs.Prelude.{◌≡◌, ◌<◌, ◌≤◌, ◌↔◌, ℕ, IfOk, length, map, string_bytes};
ghost use Rattle.line_plan.specs.Plans.{IsPlan};
ghost use Rattle.line_law.specs.Known.{moments_of};
ghost use Rattle.line_law.specs.declared.call.Call.{Call};
ghost use Rattle.rail_text.specs.Gives.{GivesCause};
ghost use Rattle.script_text.specs.Moments.{moment_text};
ghost use Rattle.typed_words.specs.Gives.{GivesWords};
ghost use Rattle.typed_words.specs.Typed.{TypedLine, TypesCall, call_read, command_read, last_read, later_moment};
ghost use Rattle.typed_words.specs.Typed.{line_read, no_words, shown, the_one, timed_read, untimed_read, words_read};
ghost use Rattle.typed_words.specs.Lines.{typed_words};

use crate::chosen::{Row, meant};
use crate::full::{call_in_full, timed_in_full};
use crate::table::{Command, WordKind, command_of};
use crate::typed::{Typed, Unread};
use crate::words::{is_timed, joined, typed_words};
use line_plan::Plan;
use rail_text::{Cause, NoMemory};
use script_text::{put_moment, read_call, read_moment};
use std::alloc::{AllocError, Global};

// The moment that a word spells, where it isn't below the last one.
#[tactic(auto, unfolding(crate::specs::Typed::later_moment))]
fn later_moment(version: u8, last: u32, word: &str) -> Result<u32, Cause>
    ensures { result ≡ later_moment version last word.now }
{
    match read_moment(version, word.as_bytes()) {
        None => Err(Cause::BadMoment),
        Some(moment) if moment < last => Err(Cause::MomentFalls),
        Some(moment) => Ok(moment),
    }
}

// The call that a script's reader reads in a line in full.
#[tactic(auto, unfolding(crate::specs::Typed::call_read))]
fn call_read(
    alloc: Global,
    plan: &Plan,
    box_no: u32,
    moment: &str,
    words: &[&str],
) -> Result<Typed, Unread>
    requires { box_no < length plan.now.boxes }
    ensures { GivesWords shown result
        (call_read plan.now box_no moment.now (map (λ word. word.now) words.now)) }
{
    let line = joined(alloc, moment, words)?;
    let read = read_call(plan, box_no, line.as_bytes());
    drop(line);
    Ok(Typed::Call(read?))
}

// The one word behind a command's word.
fn the_one<'a>(words: &[&'a str]) -> Result<&'a str, Cause>
    ensures { GivesCause (λ word. word.now) result (the_one (map (λ word. word.now) words.now)) }
{
    match words {
        [word] => Ok(word),
        _ => Err(Cause::WordCount),
    }
}

// A command's word stands alone.
fn no_words(words: &[&str]) -> Result<(), Cause>
    ensures { result ≡ no_words (map (λ word. word.now) words.now) }
{
    match words {
        [] => Ok(()),
        _ => Err(Cause::WordCount),
    }
}

// A command, with the words behind its own.
#[tactic(auto, unfolding(crate::specs::Typed::command_read))]
fn command_read(
    alloc: Global,
    version: u8,
    last: u32,
    words: &[&str],
    command: Command,
) -> Result<Typed, Unread>
    ensures { GivesWords shown result
        (command_read version last (map (λ word. word.now) words.now) command) }
{
    match command {
        Command::At => Ok(Typed::At(later_moment(version, last, the_one(words)?)?)),
        Command::Save => Ok(Typed::Save(String::from_str(alloc, the_one(words)?)?)),
        Command::Look => {
            no_words(words)?;
            Ok(Typed::Look)
        }
        Command::May => {
            no_words(words)?;
            Ok(Typed::May)
        }
        Command::Why => {
            no_words(words)?;
            Ok(Typed::Why)
        }
        Command::Codes => {
            no_words(words)?;
            Ok(Typed::Codes)
        }
        Command::Undo => {
            no_words(words)?;
            Ok(Typed::Undo)
        }
        Command::Book => {
            no_words(words)?;
            Ok(Typed::Book)
        }
        Command::Help => {
            no_words(words)?;
            Ok(Typed::Help)
        }
        Command::End => {
            no_words(words)?;
            Ok(Typed::End)
        }
    }
}

// A line with a moment in front: the moment first, then the call.
#[tactic(auto, unfolding(crate::specs::Typed::timed_read))]
fn timed_read(
    alloc: Global,
    plan: &Plan,
    box_no: u32,
    last: u32,
    first: &str,
    words: &[&str],
) -> Result<Typed, Unread>
    requires { box_no < length plan.now.boxes }
    ensures { GivesWords shown result
        (timed_read plan.now box_no last first.now (map (λ word. word.now) words.now)) }
{
    later_moment(plan.version, last, first)?;
    let full = timed_in_full(alloc, words)?;
    call_read(alloc, plan, box_no, first, &full)
}

// A moment as it is printed.
fn moment_word(alloc: Global, version: u8, moment: u32) -> Result<String, AllocError>
    requires { moment < moments_of version }
    ensures { IfOk result (λ word. string_bytes word ≡ moment_text version moment) }
{
    let mut word = String::new(alloc);
    put_moment(&mut word, version, moment)?;
    Ok(word)
}

// A call at the last moment, where its first word is chosen.
#[tactic(auto, unfolding(crate::specs::Typed::last_read))]
fn last_read(
    alloc: Global,
    plan: &Plan,
    box_no: u32,
    last: u32,
    words: &[&str],
    row: Row,
) -> Result<Typed, Unread>
    requires at { box_no < length plan.now.boxes }
    requires day { last < moments_of plan.now.version }
    ensures { GivesWords shown result
        (last_read plan.now box_no last (map (λ word. word.now) words.now) (row.entry.0.now, row.entry.1)) }
{
    let full = call_in_full(alloc, 1, words, row)?;
    let moment = moment_word(alloc, plan.version, last)?;
    call_read(alloc, plan, box_no, &moment, &full)
}

// A line without a moment, by its first word.
#[tactic(auto, unfolding(crate::specs::Typed::untimed_read))]
fn untimed_read(
    alloc: Global,
    plan: &Plan,
    box_no: u32,
    last: u32,
    first: &str,
    words: &[&str],
) -> Result<Typed, Unread>
    requires at { box_no < length plan.now.boxes }
    requires day { last < moments_of plan.now.version }
    ensures { GivesWords shown result
        (untimed_read plan.now box_no last first.now (map (λ word. word.now) words.now)) }
{
    let row = meant(alloc, WordKind::First, 0, first)?;
    match command_of(row.1) {
        Some(command) => command_read(alloc, plan.version, last, words, command),
        None => last_read(alloc, plan, box_no, last, words, row),
    }
}

// The words of a line.
fn words_read(
    alloc: Global,
    plan: &Plan,
    box_no: u32,
    last: u32,
    words: &[&str],
) -> Result<Typed, Unread>
    requires at { box_no < length plan.now.boxes }
    requires day { last < moments_of plan.now.version }
    ensures { GivesWords shown result
        (words_read plan.now box_no last (map (λ word. word.now) words.now)) }
{
    match words {
        [] => Ok(Typed::Nothing),
        [first, rest @ ..] if is_timed(first) => timed_read(alloc, plan, box_no, last, first, rest),
        [first, rest @ ..] => untimed_read(alloc, plan, box_no, last, first, rest),
    }
}

// What a line comes to. The plan's version is read for what a plan's type keeps.
#[tactic(auto, unfolding(crate::specs::Typed::line_read))]
fn line_read(
    alloc: Global,
    plan: &Plan,
    box_no: u32,
    last: u32,
    line: &str,
) -> Result<Typed, NoMemory>
    requires at { box_no < length plan.now.boxes }
    requires day { last < moments_of plan.now.version }
    ensures exact { IfOk result (λ typed. shown typed ≡ line_read plan.now box_no last line.now) }
    ensures plan { IsPlan plan.now }
{
    let _version = plan.version;
    let words = typed_words(alloc, line)?;
    match words_read(alloc, plan, box_no, last, &words) {
        Ok(typed) => Ok(typed),
        Err(Unread::NotUnderstood(what)) => Ok(Typed::NotUnderstood(what)),
        Err(Unread::NoMemory) => Err(NoMemory),
    }
}

/// What a line comes to that is typed at a box whose last moment is given.
///
/// A call is typed as a script has it, behind its moment or without one, which then is the last; each of its fixed
/// words stands as a whole or by any beginning that no other word has which may stand there. It comes to a call exactly
/// where the line in full is a line of a script of this box, and then to the call that it spells there; its moment
/// isn't below the last. `at` and a moment that isn't below the last move it. The other commands are one word each,
/// `save` with the name of a file. A line without a word is nothing. Of any other line the answer says what isn't
/// understood in it, from the front on: a word, with those that may stand there; or the cause for which a script would
/// be refused, `MomentFalls` right behind the moment, and `WordCount` and `BadMoment` for a command too.
pub fn read_typed(
    alloc: Global,
    plan: &Plan,
    box_no: u32,
    last_moment: u32,
    line: &str,
) -> Result<Typed, NoMemory>
    requires at { box_no < length plan.now.boxes }
    requires day { last_moment < moments_of plan.now.version }
    ensures exact { IfOk result (λ typed. shown typed ≡ line_read plan.now box_no last_moment line.now) }
    ensures call { IfOk result (λ typed. (call : Call) →
        (shown typed ≡ TypedLine.Call call) ↔ TypesCall plan.now box_no last_moment line.now call) }
    ensures moves { IfOk result (λ typed. (moment : ℕ) → shown typed ≡ TypedLine.At moment →
        (last_moment ≤ moment) × (moment < moments_of plan.now.version)) }
{
    line_read(alloc, plan, box_no, last_moment, line)
}
