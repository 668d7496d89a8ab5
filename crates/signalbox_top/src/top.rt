//! The top call of `signalbox`.

ghost use Rattle.std.specs.Prelude.{◌≡◌, ◌≢◌, ℕ, List, Some};
ghost use Rattle.signalbox_words.specs.Commands.{Command, Working, bytes_of, shown};
ghost use Rattle.signalbox_top.specs.Hand.{IsHandWorked};
ghost use Rattle.signalbox_top.specs.Serving.{IsServedTo};
ghost use Rattle.signalbox_top.specs.Top.{Headline, TakesFront, asked};
ghost use Rattle.signalbox_top.specs.Told.{FaultIsTold, TellsWhy};

use crate::answering::{put_result, tell};
use crate::framing::serve_frame;
use crate::graphing::serve_graph;
use crate::hand::{HandWanted, serve_work};
use crate::listing::serve_json;
use crate::marking::serve_mark;
use crate::picturing::serve_picture;
use crate::rehearsing::{Wanted, serve_rehearse};
use crate::row_reading::serve_rows;
use crate::serving::serve_requests;
use crate::sheeting::serve_sheet;
use crate::status::Status;
use crate::tabling::serve_table;
use crate::tidying::serve_tidy;
use crate::walking::{Wanted as WalkWanted, serve_states};
use explained_texts::ReasonedShelf;
use hand_working::{LineSource, Store, Terminal};
use line_serving::RequestSource;
use rail_text::{NoMemory, Sink};
use signalbox_words::{SignalboxCommand, Words, read_words};
use std::alloc::Global;

// Does a command.
fn serve<S: ReasonedShelf, N: LineSource, R: RequestSource, W: Store, K: Sink, L: Sink>(
    alloc: Global,
    command: SignalboxCommand<'_>,
    terminal: Terminal,
    shelf: &mut S,
    source: &mut N,
    requests: &mut R,
    store: &mut W,
    out: &mut K,
    told: &mut L,
) -> Status
    ensures headline { result ≢ Status.Failed
        → Headline (S.held shelf.old) (Some (shown command.entry)) result (K.taken out.old) (K.taken out.new) }
    ensures part { result ≡ Status.Failed → TakesFront (K.taken out.old) (K.taken out.new) }
    ensures why { result ≡ Status.Failed
        → TellsWhy (L.taken told.old) (L.taken told.new) (L.faults told.old) (L.faults told.new) }
    ensures fault { result ≡ Status.Failed → FaultIsTold (S.held shelf.old)
        (record { before = S.faults shelf.old; now = S.faults shelf.new }) (Some (shown command.entry))
        (L.taken told.old) (L.taken told.new) (L.faults told.old) (L.faults told.new) }
    ensures worked { (wanted : Working) → shown command.entry ≡ Command.Work wanted → result ≢ Status.Failed
        → IsHandWorked (S.held shelf.old) wanted terminal (N.given source.old) (N.given source.new) (K.taken out.old)
        (K.taken out.new) (W.written store.new) }
    ensures served { (plan : List ℕ) → shown command.entry ≡ Command.Serve plan → result ≢ Status.Failed
        → IsServedTo (S.held shelf.old) plan (R.given requests.old) (R.given requests.new) (K.taken out.old)
        (K.taken out.new) }
    ensures same { (n : List ℕ) → S.held shelf.new n ≡ S.held shelf.old n }
{
    match command {
        SignalboxCommand::Tidy { file } => serve_tidy(alloc, file, shelf, out, told),
        SignalboxCommand::Frame { plan, box_name } => {
            serve_frame(alloc, plan, box_name, shelf, out, told)
        }
        SignalboxCommand::Graph { plan, output } => {
            serve_graph(alloc, plan, output, shelf, out, told)
        }
        SignalboxCommand::Json { csv, plan, output } => {
            serve_json(alloc, csv, plan, output, shelf, out, told)
        }
        SignalboxCommand::States {
            plan,
            box_name,
            limit,
            never,
            reach,
        } => {
            let wanted = WalkWanted {
                plan,
                box_name,
                limit,
                never: &never,
                reach: &reach,
            };
            let status = serve_states(alloc, &wanted, shelf, out, told);
            drop(never);
            drop(reach);
            status
        }
        SignalboxCommand::Mark(wanted) => serve_mark(alloc, &wanted, shelf, out, told),
        SignalboxCommand::Sheet(wanted) => serve_sheet(alloc, &wanted, shelf, out, told),
        SignalboxCommand::Picture(wanted) => serve_picture(alloc, &wanted, shelf, out, told),
        SignalboxCommand::Table {
            html,
            plan,
            box_name,
        } => serve_table(alloc, html, plan, box_name, shelf, out, told),
        SignalboxCommand::Rows { file } => serve_rows(alloc, file, shelf, out, told),
        SignalboxCommand::Serve { plan } => {
            serve_requests(alloc, plan, shelf, requests, out, told)
        }
        SignalboxCommand::Rehearse {
            to_refusal,
            as_journal,
            plan,
            scripts,
        } => {
            let wanted = Wanted {
                to_refusal,
                as_journal,
                plan,
                scripts: &scripts,
            };
            let status = serve_rehearse(alloc, &wanted, shelf, out, told);
            drop(scripts);
            status
        }
        SignalboxCommand::Work {
            hint,
            plain,
            screen,
            plan,
            box_name,
            scripts,
            journal,
            script,
        } => {
            let wanted = HandWanted {
                hint,
                plain,
                screen,
                plan,
                box_name,
                scripts: &scripts,
                journal,
                script,
            };
            let status = serve_work(alloc, &wanted, terminal, shelf, source, store, out, told);
            drop(scripts);
            status
        }
    }
}

/// Does what the words of a command line say, those behind the program's name. Results are put to `out`, everything
/// else to `told`.
///
/// `tidy FILE` puts the text under that name with its form mended. `rehearse PLAN SCRIPT..` rehearses the scripts and
/// puts the report; with `--journal` the journal in its place; with `--to-refusal` it ends at the first refused call.
/// `work PLAN BOX SCRIPT..` lets a man work that box by the lines of `source`; where nobody types these at a terminal,
/// they are echoed; with `--hint` it is told what is due; with `--screen` the box is drawn anew behind each line that
/// is typed; with `--plain` a terminal's colours aren't shown; with `--journal FILE` and `--script FILE` the journal
/// and his calls are written to `store`. His prompts go to `told`.
/// `serve PLAN` holds the line of that plan for another program: each line of `requests` is answered by one line.
/// `frame PLAN BOX` puts a picture of the lever frame of that box, and `graph PLAN OUTPUT` one of a legal journal: its
/// train graph. `picture PLAN OUTPUT [ENTRY]` puts a picture of the line as it stands after that entry of a legal
/// journal, and with `--film` a page that steps through the entries up to that one. `json PLAN OUTPUT` puts a record
/// of each entry of a legal journal for other programs: a JSON object a line, and with `--csv` rows of commas.
/// `states PLAN BOX` puts a report on the states of the lever frame of that box: with `--limit N` at most N states
/// are kept; with `--reach L..` and `--never L..` it is told how these levers can be reversed together. `mark PLAN
/// OUTPUT [BOX]` puts what an instructor would mark in a legal journal, and with `--within M` late answers too.
/// `sheet PLAN OUTPUT [BOX]` puts the train register of a legal journal as sheets. `table PLAN BOX` puts the locking
/// table of that box, and `rows FILE` the rows of such a text, as lines of a plan. With `--html` sheets and tables
/// are one page for a browser. `states` and `table` take `frame-only FILE` in the place of `PLAN BOX`, a frame by
/// itself.
/// `--help`, `help COMMAND` and `--version` put what they ask for, as results.
///
/// - `Done`: it is done, and nothing was found.
/// - `Found`: it is done, and something was found: a rehearsal stopped, a call was refused, there is a race, or there
///   is something to mark.
/// - `Failed`: it could not be done. Of the results nothing was taken, or a front part where the sink failed; a line
///   tells why, unless that sink failed too. A text that is refused is explained, with the line and the cause for which
///   `box_main` refuses it.
pub fn signalbox_top<S: ReasonedShelf, N: LineSource, R: RequestSource, W: Store, K: Sink, L: Sink>(
    alloc: Global,
    words: &[String],
    terminal: Terminal,
    shelf: &mut S,
    source: &mut N,
    requests: &mut R,
    store: &mut W,
    out: &mut K,
    told: &mut L,
) -> Status
    ensures headline { result ≢ Status.Failed
        → Headline (S.held shelf.old) (asked (bytes_of words.now)) result (K.taken out.old) (K.taken out.new) }
    ensures part { result ≡ Status.Failed → TakesFront (K.taken out.old) (K.taken out.new) }
    ensures why { result ≡ Status.Failed
        → TellsWhy (L.taken told.old) (L.taken told.new) (L.faults told.old) (L.faults told.new) }
    ensures fault { result ≡ Status.Failed → FaultIsTold (S.held shelf.old)
        (record { before = S.faults shelf.old; now = S.faults shelf.new }) (asked (bytes_of words.now))
        (L.taken told.old) (L.taken told.new) (L.faults told.old) (L.faults told.new) }
    ensures worked { (wanted : Working) → asked (bytes_of words.now) ≡ Some (Command.Work wanted)
        → result ≢ Status.Failed → IsHandWorked (S.held shelf.old) wanted terminal (N.given source.old)
        (N.given source.new) (K.taken out.old) (K.taken out.new) (W.written store.new) }
    ensures served { (plan : List ℕ) → asked (bytes_of words.now) ≡ Some (Command.Serve plan)
        → result ≢ Status.Failed → IsServedTo (S.held shelf.old) plan (R.given requests.old) (R.given requests.new)
        (K.taken out.old) (K.taken out.new) }
    ensures same { (n : List ℕ) → S.held shelf.new n ≡ S.held shelf.old n }
{
    match read_words(alloc, words) {
        Ok(Words::Command(command)) => serve(
            alloc, command, terminal, shelf, source, requests, store, out, told,
        ),
        Ok(Words::Shown(text)) => put_result(out, told, text.as_bytes(), Status::Done),
        Ok(Words::Wrong(text)) => tell(told, text.as_str()),
        Err(NoMemory) => tell(told, "signalbox: out of memory\n"),
    }
}
