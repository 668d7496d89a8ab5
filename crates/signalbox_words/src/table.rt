//! The commands of `signalbox` as clap knows them, with what its help says of them.

ghost use Rattle.std.specs.Prelude.{◌≡◌, false, IfOk};
ghost use Rattle.clap.specs.Words.{app_of, rule_of};
ghost use Rattle.clap.specs.declared.builder.command.Command.TheViews.{out-Command};
ghost use Rattle.signalbox_words.specs.Table.{bare_program, box_form, files_form, flag, flags_form};
ghost use Rattle.signalbox_words.specs.Table.{frame_command, frame_program, graph_command, hint_form};
ghost use Rattle.signalbox_words.specs.Table.{journal_form, json_command, json_form, limit_form, line_form};
ghost use Rattle.signalbox_words.specs.Table.{line_program, list_option, listed_program, mark_command};
ghost use Rattle.signalbox_words.specs.Table.{marked_box_form, marked_form, never_form, optional_argument};
ghost use Rattle.signalbox_words.specs.Table.{picture_command, picture_entry_form, picture_form, picture_program};
ghost use Rattle.signalbox_words.specs.Table.{plain_form, plan_form, planned_form, program, register_program};
ghost use Rattle.signalbox_words.specs.Table.{rehearse_command, repeated_argument, required_argument};
ghost use Rattle.signalbox_words.specs.Table.{rows_command, screen_form, serve_command, sheet_box_form, sheet_command};
ghost use Rattle.signalbox_words.specs.Table.{sheet_form, states_command, table_command, table_form, table_program};
ghost use Rattle.signalbox_words.specs.Table.{tidy_command, to_refusal_form, value_option, walked_form, work_command};

use clap::{Arg, ArgAction, Command};
use std::alloc::{AllocError, Global};

const ABOUT: &str =
    "Signal boxes of absolute block, for people: rehearses their scripts, mends their texts.";

const AFTER: &str = "\
Results go to standard output, everything else to standard error. The status is 0 where it is done and nothing was
found, 1 where something was found, and 2 where it couldn't be done. The file name - is standard input, once.";

const REHEARSE_ABOUT: &str = "Works the scripts of a line, up to where nobody can go on";

const REHEARSE_AFTER: &str = "\
The scripts stand in the order of their boxes. They are worked one call at a time: no looks, no threads, the same
answer every time. It tells how far they came, who waits for whom, which calls were refused and why, and what may
come out otherwise on threads. The status is 1 where somebody waits in vain, a call was refused, or something may
come out otherwise.

    signalbox rehearse valley.plan elm.script oak.script";

const TO_REFUSAL_HELP: &str = "Ends at the first call that is refused";

const PLAN_HELP: &str = "The plan of the line";

const SCRIPT_HELP: &str = "The scripts of its boxes, in their order";

const JOURNAL_HELP: &str = "Prints the journal so far, for `box_main judge`, and no report";

const TIDY_ABOUT: &str = "Prints a text with its form mended: line ends, tabs, spaces";

const TIDY_AFTER: &str = "\
Each line gets one line feed as its end, and single spaces between its words; byte order marks go. The words stay.

    signalbox tidy oak.script > mended.script";

const WORK_ABOUT: &str = "Lets you work one box yourself, reply by reply";

const WORK_AFTER: &str = "\
The scripts of all other boxes stand in the order of these. You type calls as a script has them, and each is answered;
behind each the others go on by their scripts, as far as they come without you. Type help for what may be typed, and
end, or the end of input, to go off duty: then come your register, your refused calls, where you worked against the
nine rules, and what an instructor would mark besides. Lines from a file or a pipe are echoed, so that what is printed
is a transcript. On a terminal refusals and what you notice are coloured, but with --plain, or where NO_COLOR is set.

    signalbox work valley.plan Oak elm.script";

const HINT_HELP: &str = "Tells before each line what is due, where exactly one thing is";

const PLAIN_HELP: &str = "Shows no colours on a terminal";

const SCREEN_HELP: &str =
    "Draws the box anew above the prompt after each line, on a terminal of 80 by 24";

const BOX_HELP: &str = "The name of the box that you work";

const OTHERS_HELP: &str = "The scripts of the other boxes, in their order";

const SAVED_JOURNAL_HELP: &str = "Writes the journal of the line to FILE, for `box_main judge`";

const SAVED_SCRIPT_HELP: &str = "Writes your calls to FILE as a script";

const FRAME_ABOUT: &str = "Draws the lever frame of a box, with its locking, as an SVG picture";

const FRAME_AFTER: &str = "\
The levers stand in their colours, with their numbers and what they work; under them the locking chart with the fewest
channels: tappets as columns, bridles as bars, each with its row of the locking table.

    signalbox frame valley.plan Oak > oak.svg";

const DRAWN_BOX_HELP: &str = "The name of the box";

const GRAPH_ABOUT: &str = "Draws the train graph of a journal as an SVG picture";

const GRAPH_AFTER: &str = "\
The boxes stand from top to bottom, the moments from left to right; each train is one line, from where it enters to
where it is berthed. Thin bars between the boxes show Line Clear and Train on Line.

    signalbox graph valley.plan day.journal > day.svg";

const STATES_ABOUT: &str = "Walks the states of a lever frame, by its locking table alone";

const STATES_AFTER: &str = "\
It tells how many states can be reached from all levers normal, which levers can never be reversed and why, which
can't be reversed together, and which rows of the table change nothing. Track circuits and instruments are left out,
as if clear and free, so it is no proof that a layout is safe. With frame-only and a file in the place of PLAN and
BOX, of a frame alone, a text of lever and row lines.

    signalbox states valley.plan Oak --reach 1 2
    signalbox states frame-only junction.frame";

const LIMIT_HELP: &str = "Keeps at most N states, 1000000 if it isn't given";

const NEVER_HELP: &str = "Tells how these levers can be reversed together, which never should be";

const REACH_HELP: &str = "Tells by which pulls and puts these levers are reversed together";

const OUTPUT_HELP: &str = "What `box_main run` printed, or its journal alone";

const MARK_ABOUT: &str =
    "Names what an instructor would mark in a journal, beside the nine rules of the audit";

const MARK_AFTER: &str = "\
A line for each mark: the entry, the box, the rule, and what was done. The rules stand in docs/MARKING.md. The status
is 1 where there is something to mark.

    signalbox mark valley.plan day.journal Oak";

const MARKED_BOX_HELP: &str = "The name of a box: only what it did is marked";

const WITHIN_HELP: &str = "Marks what is answered later than M minutes, or seconds under version 2";

const SHEET_ABOUT: &str =
    "Prints the train register of each box as a sheet, a line for each train and way";

const SHEET_AFTER: &str = "\
A column for each time that a British register books, and remarks. Each entry of a box stands in one place.

    signalbox sheet valley.plan day.journal Oak
    signalbox sheet --html valley.plan day.journal > day.html";

const HTML_HELP: &str = "Prints one page for a browser or a printer, as HTML";

const SHEET_BOX_HELP: &str = "The name of a box: only its sheets are printed";

const PICTURE_ABOUT: &str = "Draws the line as it stands after an entry of a journal, as SVG";

const PICTURE_AFTER: &str = "\
Each box with its places, signals, levers and trains, and between the boxes the instruments, the bells and the trains
on the plain line.

    signalbox picture valley.plan day.journal 14 > line.svg
    signalbox picture --film valley.plan day.journal > day.html";

const ENTRY_HELP: &str =
    "The number of the entry after which the line is drawn, the last if it isn't given";

const FILM_HELP: &str =
    "Prints one page for a browser that steps through the entries up to that one";

const TABLE_ABOUT: &str = "Prints the locking table of a box, a line for each lever";

const TABLE_AFTER: &str = "\
What each lever is released by and what it locks, what it works, and the converse of each row at the other lever. With
frame-only and a file in the place of PLAN and BOX, of a frame alone, a text of lever and row lines.

    signalbox table valley.plan Oak
    signalbox table --html frame-only junction.frame > junction.html";

const ROWS_ABOUT: &str = "Prints the rows of a locking table for a plan";

const ROWS_AFTER: &str = "\
It reads the table back that `table` prints, or one that is written by hand, such as

    2: rel 7 20; locks 8 10; both 4; locks 5 when 6 r";

const JSON_ABOUT: &str = "Prints a journal for other programs, a JSON object for each entry";

const JSON_AFTER: &str = "\
The objects are told in docs/EMBEDDING.md.

    signalbox json --csv valley.plan day.journal > day.csv";

const CSV_HELP: &str = "Prints CSV, with a head line";

const SERVE_ABOUT: &str = "Holds the line of a plan for another program, by lines of JSON";

const SERVE_AFTER: &str = "\
Each line of standard input is a request, an object; each is answered by one line on standard output, at once. They are
told in docs/EMBEDDING.md.

    echo '{\"box\":\"Oak\",\"at\":\"09:02\",\"call\":\"ring down 3-1\"}' | signalbox serve valley.plan";

// An argument that is required.
fn required_argument<'a>(alloc: Global, id: &'a str, name: &'a str, help: &'a str) -> Arg<'a>
    ensures rule { rule_of result ≡ required_argument id.entry.now }
    ensures own { result.global ≡ false }
{
    Arg::new(alloc, id)
        .required(true)
        .value_name(name)
        .help(help)
}

// The same, with one word or more.
fn repeated_argument<'a>(alloc: Global, id: &'a str, name: &'a str, help: &'a str) -> Arg<'a>
    ensures rule { rule_of result ≡ repeated_argument id.entry.now }
    ensures own { result.global ≡ false }
{
    required_argument(alloc, id, name, help).num_args(1..)
}

// A flag: `--` and its name.
fn flag<'a>(alloc: Global, id: &'a str, help: &'a str) -> Arg<'a>
    ensures rule { rule_of result ≡ flag id.entry.now }
    ensures own { result.global ≡ false }
{
    Arg::new(alloc, id)
        .long(id)
        .action(ArgAction::SetTrue)
        .help(help)
}

// An argument that may be left out.
fn optional_argument<'a>(alloc: Global, id: &'a str, name: &'a str, help: &'a str) -> Arg<'a>
    ensures rule { rule_of result ≡ optional_argument id.entry.now }
    ensures own { result.global ≡ false }
{
    Arg::new(alloc, id).value_name(name).help(help)
}

// An option with a value: `--`, its name, and what it names.
fn value_option<'a>(alloc: Global, id: &'a str, name: &'a str, help: &'a str) -> Arg<'a>
    ensures rule { rule_of result ≡ value_option id.entry.now }
    ensures own { result.global ≡ false }
{
    Arg::new(alloc, id).long(id).value_name(name).help(help)
}

// `rehearse --to-refusal`
fn to_refusal_form<'a>(alloc: Global) -> Result<Command<'a>, AllocError>
    ensures shape { IfOk result (λ c. app_of c ≡ to_refusal_form) }
    ensures own { IfOk result (λ c. (out-Command c).has_globals ≡ false) }
{
    Command::new(alloc, "rehearse")
        .about(REHEARSE_ABOUT)
        .after_help(REHEARSE_AFTER)
        .arg(flag(alloc, "to-refusal", TO_REFUSAL_HELP))
}

// The same with `--journal`.
fn flags_form<'a>(alloc: Global) -> Result<Command<'a>, AllocError>
    ensures shape { IfOk result (λ c. app_of c ≡ flags_form) }
    ensures own { IfOk result (λ c. (out-Command c).has_globals ≡ false) }
{
    to_refusal_form(alloc)?.arg(flag(alloc, "journal", JOURNAL_HELP))
}

// The same with `PLAN`.
fn plan_form<'a>(alloc: Global) -> Result<Command<'a>, AllocError>
    ensures shape { IfOk result (λ c. app_of c ≡ plan_form) }
    ensures own { IfOk result (λ c. (out-Command c).has_globals ≡ false) }
{
    flags_form(alloc)?.arg(required_argument(alloc, "plan", "PLAN", PLAN_HELP))
}

// `rehearse [--to-refusal] [--journal] PLAN SCRIPT..`
fn rehearse_command<'a>(alloc: Global) -> Result<Command<'a>, AllocError>
    ensures shape { IfOk result (λ c. app_of c ≡ rehearse_command) }
    ensures own { IfOk result (λ c. (out-Command c).has_globals ≡ false) }
{
    plan_form(alloc)?.arg(repeated_argument(alloc, "script", "SCRIPT", SCRIPT_HELP))
}

// `work --hint`
fn hint_form<'a>(alloc: Global) -> Result<Command<'a>, AllocError>
    ensures shape { IfOk result (λ c. app_of c ≡ hint_form) }
    ensures own { IfOk result (λ c. (out-Command c).has_globals ≡ false) }
{
    Command::new(alloc, "work")
        .about(WORK_ABOUT)
        .after_help(WORK_AFTER)
        .arg(flag(alloc, "hint", HINT_HELP))
}

// The same with `--journal FILE`.
fn journal_form<'a>(alloc: Global) -> Result<Command<'a>, AllocError>
    ensures shape { IfOk result (λ c. app_of c ≡ journal_form) }
    ensures own { IfOk result (λ c. (out-Command c).has_globals ≡ false) }
{
    hint_form(alloc)?.arg(value_option(alloc, "journal", "FILE", SAVED_JOURNAL_HELP))
}

// The same with `--plain`.
fn plain_form<'a>(alloc: Global) -> Result<Command<'a>, AllocError>
    ensures shape { IfOk result (λ c. app_of c ≡ plain_form) }
    ensures own { IfOk result (λ c. (out-Command c).has_globals ≡ false) }
{
    journal_form(alloc)?.arg(flag(alloc, "plain", PLAIN_HELP))
}

// The same with `--screen`.
fn screen_form<'a>(alloc: Global) -> Result<Command<'a>, AllocError>
    ensures shape { IfOk result (λ c. app_of c ≡ screen_form) }
    ensures own { IfOk result (λ c. (out-Command c).has_globals ≡ false) }
{
    plain_form(alloc)?.arg(flag(alloc, "screen", SCREEN_HELP))
}

// The same with `--script FILE`.
fn files_form<'a>(alloc: Global) -> Result<Command<'a>, AllocError>
    ensures shape { IfOk result (λ c. app_of c ≡ files_form) }
    ensures own { IfOk result (λ c. (out-Command c).has_globals ≡ false) }
{
    screen_form(alloc)?.arg(value_option(alloc, "script", "FILE", SAVED_SCRIPT_HELP))
}

// The same with `PLAN`.
fn line_form<'a>(alloc: Global) -> Result<Command<'a>, AllocError>
    ensures shape { IfOk result (λ c. app_of c ≡ line_form) }
    ensures own { IfOk result (λ c. (out-Command c).has_globals ≡ false) }
{
    files_form(alloc)?.arg(required_argument(alloc, "plan", "PLAN", PLAN_HELP))
}

// The same with `BOX`.
fn box_form<'a>(alloc: Global) -> Result<Command<'a>, AllocError>
    ensures shape { IfOk result (λ c. app_of c ≡ box_form) }
    ensures own { IfOk result (λ c. (out-Command c).has_globals ≡ false) }
{
    line_form(alloc)?.arg(required_argument(alloc, "box", "BOX", BOX_HELP))
}

// `work [--hint] [--journal FILE] [--plain] [--screen] [--script FILE] PLAN BOX SCRIPT..`
fn work_command<'a>(alloc: Global) -> Result<Command<'a>, AllocError>
    ensures shape { IfOk result (λ c. app_of c ≡ work_command) }
    ensures own { IfOk result (λ c. (out-Command c).has_globals ≡ false) }
{
    box_form(alloc)?.arg(repeated_argument(alloc, "others", "SCRIPT", OTHERS_HELP))
}

// A command with `PLAN`.
fn planned_form<'a>(
    alloc: Global,
    name: &'a str,
    about: &'a str,
    after: &'a str,
) -> Result<Command<'a>, AllocError>
    ensures shape { IfOk result (λ c. app_of c ≡ planned_form name.entry.now) }
    ensures own { IfOk result (λ c. (out-Command c).has_globals ≡ false) }
{
    Command::new(alloc, name)
        .about(about)
        .after_help(after)
        .arg(required_argument(alloc, "plan", "PLAN", PLAN_HELP))
}

// An option with one value or more: `--`, its name, and what it names.
fn list_option<'a>(alloc: Global, id: &'a str, name: &'a str, help: &'a str) -> Arg<'a>
    ensures rule { rule_of result ≡ list_option id.entry.now }
    ensures own { result.global ≡ false }
{
    value_option(alloc, id, name, help).num_args(1..)
}

// `frame PLAN BOX`
fn frame_command<'a>(alloc: Global) -> Result<Command<'a>, AllocError>
    ensures shape { IfOk result (λ c. app_of c ≡ frame_command) }
    ensures own { IfOk result (λ c. (out-Command c).has_globals ≡ false) }
{
    planned_form(alloc, "frame", FRAME_ABOUT, FRAME_AFTER)?.arg(required_argument(
        alloc,
        "box",
        "BOX",
        DRAWN_BOX_HELP,
    ))
}

// `graph PLAN OUTPUT`
fn graph_command<'a>(alloc: Global) -> Result<Command<'a>, AllocError>
    ensures shape { IfOk result (λ c. app_of c ≡ graph_command) }
    ensures own { IfOk result (λ c. (out-Command c).has_globals ≡ false) }
{
    planned_form(alloc, "graph", GRAPH_ABOUT, GRAPH_AFTER)?.arg(required_argument(
        alloc,
        "output",
        "OUTPUT",
        OUTPUT_HELP,
    ))
}

// `states PLAN BOX`
fn walked_form<'a>(alloc: Global) -> Result<Command<'a>, AllocError>
    ensures shape { IfOk result (λ c. app_of c ≡ walked_form) }
    ensures own { IfOk result (λ c. (out-Command c).has_globals ≡ false) }
{
    planned_form(alloc, "states", STATES_ABOUT, STATES_AFTER)?.arg(required_argument(
        alloc,
        "box",
        "BOX",
        DRAWN_BOX_HELP,
    ))
}

// The same with `--limit N`.
fn limit_form<'a>(alloc: Global) -> Result<Command<'a>, AllocError>
    ensures shape { IfOk result (λ c. app_of c ≡ limit_form) }
    ensures own { IfOk result (λ c. (out-Command c).has_globals ≡ false) }
{
    walked_form(alloc)?.arg(value_option(alloc, "limit", "N", LIMIT_HELP))
}

// The same with `--never L..`.
fn never_form<'a>(alloc: Global) -> Result<Command<'a>, AllocError>
    ensures shape { IfOk result (λ c. app_of c ≡ never_form) }
    ensures own { IfOk result (λ c. (out-Command c).has_globals ≡ false) }
{
    limit_form(alloc)?.arg(list_option(alloc, "never", "L", NEVER_HELP))
}

// `states PLAN BOX [--limit N] [--never L..] [--reach L..]`
fn states_command<'a>(alloc: Global) -> Result<Command<'a>, AllocError>
    ensures shape { IfOk result (λ c. app_of c ≡ states_command) }
    ensures own { IfOk result (λ c. (out-Command c).has_globals ≡ false) }
{
    never_form(alloc)?.arg(list_option(alloc, "reach", "L", REACH_HELP))
}

// `mark PLAN OUTPUT`
fn marked_form<'a>(alloc: Global) -> Result<Command<'a>, AllocError>
    ensures shape { IfOk result (λ c. app_of c ≡ marked_form) }
    ensures own { IfOk result (λ c. (out-Command c).has_globals ≡ false) }
{
    planned_form(alloc, "mark", MARK_ABOUT, MARK_AFTER)?.arg(required_argument(
        alloc,
        "output",
        "OUTPUT",
        OUTPUT_HELP,
    ))
}

// `mark PLAN OUTPUT [BOX]`
fn marked_box_form<'a>(alloc: Global) -> Result<Command<'a>, AllocError>
    ensures shape { IfOk result (λ c. app_of c ≡ marked_box_form) }
    ensures own { IfOk result (λ c. (out-Command c).has_globals ≡ false) }
{
    marked_form(alloc)?.arg(optional_argument(alloc, "box", "BOX", MARKED_BOX_HELP))
}

// `mark [--within M] PLAN OUTPUT [BOX]`
fn mark_command<'a>(alloc: Global) -> Result<Command<'a>, AllocError>
    ensures shape { IfOk result (λ c. app_of c ≡ mark_command) }
    ensures own { IfOk result (λ c. (out-Command c).has_globals ≡ false) }
{
    marked_box_form(alloc)?.arg(value_option(alloc, "within", "M", WITHIN_HELP))
}

// `sheet PLAN OUTPUT`
fn sheet_form<'a>(alloc: Global) -> Result<Command<'a>, AllocError>
    ensures shape { IfOk result (λ c. app_of c ≡ sheet_form) }
    ensures own { IfOk result (λ c. (out-Command c).has_globals ≡ false) }
{
    planned_form(alloc, "sheet", SHEET_ABOUT, SHEET_AFTER)?.arg(required_argument(
        alloc,
        "output",
        "OUTPUT",
        OUTPUT_HELP,
    ))
}

// `sheet PLAN OUTPUT [BOX]`
fn sheet_box_form<'a>(alloc: Global) -> Result<Command<'a>, AllocError>
    ensures shape { IfOk result (λ c. app_of c ≡ sheet_box_form) }
    ensures own { IfOk result (λ c. (out-Command c).has_globals ≡ false) }
{
    sheet_form(alloc)?.arg(optional_argument(alloc, "box", "BOX", SHEET_BOX_HELP))
}

// `sheet [--html] PLAN OUTPUT [BOX]`
fn sheet_command<'a>(alloc: Global) -> Result<Command<'a>, AllocError>
    ensures shape { IfOk result (λ c. app_of c ≡ sheet_command) }
    ensures own { IfOk result (λ c. (out-Command c).has_globals ≡ false) }
{
    sheet_box_form(alloc)?.arg(flag(alloc, "html", HTML_HELP))
}

// `picture PLAN OUTPUT`
fn picture_form<'a>(alloc: Global) -> Result<Command<'a>, AllocError>
    ensures shape { IfOk result (λ c. app_of c ≡ picture_form) }
    ensures own { IfOk result (λ c. (out-Command c).has_globals ≡ false) }
{
    planned_form(alloc, "picture", PICTURE_ABOUT, PICTURE_AFTER)?.arg(required_argument(
        alloc,
        "output",
        "OUTPUT",
        OUTPUT_HELP,
    ))
}

// `picture PLAN OUTPUT [ENTRY]`
fn picture_entry_form<'a>(alloc: Global) -> Result<Command<'a>, AllocError>
    ensures shape { IfOk result (λ c. app_of c ≡ picture_entry_form) }
    ensures own { IfOk result (λ c. (out-Command c).has_globals ≡ false) }
{
    picture_form(alloc)?.arg(optional_argument(alloc, "entry", "ENTRY", ENTRY_HELP))
}

// `picture [--film] PLAN OUTPUT [ENTRY]`
fn picture_command<'a>(alloc: Global) -> Result<Command<'a>, AllocError>
    ensures shape { IfOk result (λ c. app_of c ≡ picture_command) }
    ensures own { IfOk result (λ c. (out-Command c).has_globals ≡ false) }
{
    picture_entry_form(alloc)?.arg(flag(alloc, "film", FILM_HELP))
}

// `table PLAN BOX`
fn table_form<'a>(alloc: Global) -> Result<Command<'a>, AllocError>
    ensures shape { IfOk result (λ c. app_of c ≡ table_form) }
    ensures own { IfOk result (λ c. (out-Command c).has_globals ≡ false) }
{
    planned_form(alloc, "table", TABLE_ABOUT, TABLE_AFTER)?.arg(required_argument(
        alloc,
        "box",
        "BOX",
        DRAWN_BOX_HELP,
    ))
}

// `table [--html] PLAN BOX`
fn table_command<'a>(alloc: Global) -> Result<Command<'a>, AllocError>
    ensures shape { IfOk result (λ c. app_of c ≡ table_command) }
    ensures own { IfOk result (λ c. (out-Command c).has_globals ≡ false) }
{
    table_form(alloc)?.arg(flag(alloc, "html", HTML_HELP))
}

// `rows FILE`
fn rows_command<'a>(alloc: Global) -> Result<Command<'a>, AllocError>
    ensures shape { IfOk result (λ c. app_of c ≡ rows_command) }
    ensures own { IfOk result (λ c. (out-Command c).has_globals ≡ false) }
{
    Command::new(alloc, "rows")
        .about(ROWS_ABOUT)
        .after_help(ROWS_AFTER)
        .arg(required_argument(
            alloc,
            "file",
            "FILE",
            "A locking table, a line for each lever",
        ))
}

// `json PLAN OUTPUT`
fn json_form<'a>(alloc: Global) -> Result<Command<'a>, AllocError>
    ensures shape { IfOk result (λ c. app_of c ≡ json_form) }
    ensures own { IfOk result (λ c. (out-Command c).has_globals ≡ false) }
{
    planned_form(alloc, "json", JSON_ABOUT, JSON_AFTER)?.arg(required_argument(
        alloc,
        "output",
        "OUTPUT",
        OUTPUT_HELP,
    ))
}

// `json [--csv] PLAN OUTPUT`
fn json_command<'a>(alloc: Global) -> Result<Command<'a>, AllocError>
    ensures shape { IfOk result (λ c. app_of c ≡ json_command) }
    ensures own { IfOk result (λ c. (out-Command c).has_globals ≡ false) }
{
    json_form(alloc)?.arg(flag(alloc, "csv", CSV_HELP))
}

// `serve PLAN`
fn serve_command<'a>(alloc: Global) -> Result<Command<'a>, AllocError>
    ensures shape { IfOk result (λ c. app_of c ≡ serve_command) }
    ensures own { IfOk result (λ c. (out-Command c).has_globals ≡ false) }
{
    planned_form(alloc, "serve", SERVE_ABOUT, SERVE_AFTER)
}

// `tidy FILE`
fn tidy_command<'a>(alloc: Global) -> Result<Command<'a>, AllocError>
    ensures shape { IfOk result (λ c. app_of c ≡ tidy_command) }
    ensures own { IfOk result (λ c. (out-Command c).has_globals ≡ false) }
{
    Command::new(alloc, "tidy")
        .about(TIDY_ABOUT)
        .after_help(TIDY_AFTER)
        .arg(required_argument(alloc, "file", "FILE", "A plan, a script or a journal"))
}

// The program with no command. clap is given its words without its own name in front.
fn bare_program<'a>(alloc: Global) -> Result<Command<'a>, AllocError>
    ensures { IfOk result (λ c. app_of c ≡ bare_program) }
{
    Command::new(alloc, "signalbox")
        .about(ABOUT)
        .after_help(AFTER)
        .version("1")
        .no_binary_name(true)
        .arg_required_else_help(true)
        .subcommand_required(true)
        .bin_name("signalbox")
}

// The program with the commands that work a line.
fn line_program<'a>(alloc: Global) -> Result<Command<'a>, AllocError>
    ensures { IfOk result (λ c. app_of c ≡ line_program) }
{
    let rehearse = rehearse_command(alloc)?;
    let work = work_command(alloc)?;
    bare_program(alloc)?.subcommand(rehearse)?.subcommand(work)
}

// The same with those that draw.
fn picture_program<'a>(alloc: Global) -> Result<Command<'a>, AllocError>
    ensures { IfOk result (λ c. app_of c ≡ picture_program) }
{
    let frame = frame_command(alloc)?;
    let graph = graph_command(alloc)?;
    line_program(alloc)?.subcommand(frame)?.subcommand(graph)
}

// The same with those that draw a line, and print its registers.
fn register_program<'a>(alloc: Global) -> Result<Command<'a>, AllocError>
    ensures { IfOk result (λ c. app_of c ≡ register_program) }
{
    let picture = picture_command(alloc)?;
    let sheet = sheet_command(alloc)?;
    picture_program(alloc)?
        .subcommand(picture)?
        .subcommand(sheet)
}

// The same with the one that walks a frame.
fn frame_program<'a>(alloc: Global) -> Result<Command<'a>, AllocError>
    ensures { IfOk result (λ c. app_of c ≡ frame_program) }
{
    let states = states_command(alloc)?;
    register_program(alloc)?.subcommand(states)
}

// The same with those of locking tables.
fn table_program<'a>(alloc: Global) -> Result<Command<'a>, AllocError>
    ensures { IfOk result (λ c. app_of c ≡ table_program) }
{
    let table = table_command(alloc)?;
    let rows = rows_command(alloc)?;
    frame_program(alloc)?.subcommand(table)?.subcommand(rows)
}

// The same with those for other programs.
fn listed_program<'a>(alloc: Global) -> Result<Command<'a>, AllocError>
    ensures { IfOk result (λ c. app_of c ≡ listed_program) }
{
    let json = json_command(alloc)?;
    let serve = serve_command(alloc)?;
    table_program(alloc)?.subcommand(json)?.subcommand(serve)
}

/// The program with all its commands.
pub(crate) fn program<'a>(alloc: Global) -> Result<Command<'a>, AllocError>
    ensures { IfOk result (λ c. app_of c ≡ program) }
{
    let mark = mark_command(alloc)?;
    let tidy = tidy_command(alloc)?;
    listed_program(alloc)?.subcommand(mark)?.subcommand(tidy)
}
