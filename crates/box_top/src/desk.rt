//! The desk: the commands that work no line of a plan.

ghost use Rattle.std.specs.Prelude.{◌≡◌, ℕ, List, Some, IsErrOf, OnOk};
ghost use Rattle.command_words.specs.Commands.{bytes_of, desk_command_of, desk_shown};
ghost use Rattle.line_runs.specs.Outputs.{MakesText};
ghost use Rattle.box_top.specs.Outcomes.{IsPrintOf, IsSound, command_told};
ghost use Rattle.box_top.specs.Served.{IsServed};
ghost use Rattle.box_top.specs.Top.{ShelfCause};

use crate::put::{WORDS_LINE, put_outcome, put_text};
use crate::status::Status;
use command_words::{DeskCommand, desk_command_of};
use desk_reports::{
    audit_outcome, chart_outcome, check_outcome, frame_outcome, judge_outcome, token_outcome,
    upgrade_outcome,
};
use rail_text::{NoMemory, Shelf, Sink};
use std::alloc::Global;
use text_fetch::Stop;

// What a command of the desk is to print; or why there is nothing.
#[tactic(auto, using(crate::proofs::Outcomes::makes_exactly))]
fn desk_outcome<S: Shelf>(
    alloc: Global,
    shelf: &mut S,
    command: DeskCommand<'_>,
) -> Result<Vec<u8>, Stop>
    ensures told { MakesText IsPrintOf (λ text. text.items) result
        (command_told (S.held shelf.old) (desk_shown command.entry)) }
    ensures sound { OnOk result (IsSound (S.held shelf.old) (desk_shown command.entry)) }
    ensures fault { IsErrOf result Stop.ShelfFault
        → ShelfCause (S.held shelf.old) (S.faults shelf.old) (S.faults shelf.new) (Some (desk_shown command.entry)) }
    ensures same { (n : List ℕ) → S.held shelf.new n ≡ S.held shelf.old n }
{
    match command {
        DeskCommand::Check { plan } => check_outcome(alloc, shelf, plan),
        DeskCommand::Tables { plan, box_name } => frame_outcome(alloc, shelf, plan, box_name),
        DeskCommand::Chart { plan, box_name } => chart_outcome(alloc, shelf, plan, box_name),
        DeskCommand::Judge { plan, journal } => judge_outcome(alloc, shelf, plan, journal),
        DeskCommand::Audit { plan, journal } => audit_outcome(alloc, shelf, plan, journal),
        DeskCommand::Upgrade { plan } => upgrade_outcome(alloc, shelf, plan),
        DeskCommand::Token { script } => token_outcome(alloc, shelf, script),
    }
}

/// Does what a command of the desk asks for.
pub fn serve_desk<S: Shelf, K: Sink>(
    alloc: Global,
    command: DeskCommand<'_>,
    shelf: &mut S,
    out: &mut K,
) -> Status
    ensures { IsServed S.held S.faults K.taken K.faults (Some (desk_shown command.entry)) shelf.old shelf.new
        out.old out.new result }
{
    let outcome = desk_outcome(alloc, shelf, command);
    put_outcome(alloc, out, outcome)
}

/// Does what the words of a command line say, those behind the program's name, where they ask for no line of a
/// plan to be worked. Nothing is waited for. Each command that names a plan fetches it first.
///
/// - `check PLAN` puts the findings on the plan: how many there are, and a line for each.
/// - `tables PLAN BOX` puts the frame of the box with that name: its levers with their colours, and its rows.
/// - `chart PLAN BOX` puts the locking chart of the box with that name: its bridles in the fewest channels, and the
///   column that shows that fewer can't do.
/// - `judge PLAN JOURNAL` fetches a journal of the plan's line, and puts `legal` and the number of its entries, or the
///   first entry whose reply isn't the law's, with both replies.
/// - `audit PLAN JOURNAL` fetches and judges as `judge` does, and puts the breaches of a legal journal: `audit` and how
///   many there are, and a line for each, with its entry and the rule that it breaks. Of any other journal it puts what
///   `judge` puts.
/// - `upgrade PLAN` puts the plan in version 2.
/// - `token SCRIPT` works a single line with tokens by the calls of a token script, in their order, and puts each call
///   with its reply, and the tokens that then stand in both instruments and are out.
///
/// How it ends:
///
/// - `Done`: what the command prints is put. A finding, or a wrong reply in a journal, is an answer too.
/// - `Words`: the words are no such command, as those of `run`, `stress` and `watch` aren't. Nothing is asked of the
///   shelf, and `words not understood` is put.
/// - `Refused`: `refused text T line L: CAUSE` is put, for the text that is refused first, the plan or the token script
///   being text 1, and the journal text 2. A name that no box has is refused as `unknown name` at line 0 of the plan.
/// - `ShelfFault`: the fetch of a text that the words name failed, and nothing before it is refused. Nothing is put.
/// - `SinkFault`: the sink failed, and took only a front part of what was to be put.
/// - `NoMemory`: memory ran out. Nothing is put, since what is put is built whole first.
pub fn desk_top<S: Shelf, K: Sink>(
    alloc: Global,
    words: &[String],
    shelf: &mut S,
    out: &mut K,
) -> Status
    ensures { IsServed S.held S.faults K.taken K.faults (desk_command_of (bytes_of words.now)) shelf.old shelf.new
        out.old out.new result }
{
    match desk_command_of(alloc, words) {
        Ok(Some(command)) => serve_desk(alloc, command, shelf, out),
        Ok(None) => put_text(out, WORDS_LINE, Status::Words),
        Err(NoMemory) => Status::NoMemory,
    }
}
