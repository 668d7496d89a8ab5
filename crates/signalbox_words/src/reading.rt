//! The words of a command line.

ghost use Rattle.std.specs.Prelude.{◌≡◌, IfOk, codes, map};
ghost use Rattle.std.specs.Option.{option_map};
ghost use Rattle.clap.specs.Words.{all_of, first_of, found_of, rows_of};
ghost use Rattle.clap.specs.Values.{kind_of};
ghost use Rattle.signalbox_words.specs.Commands.{AreRead, Command, TellsFault, bytes_of, command_read};
ghost use Rattle.signalbox_words.specs.Commands.{frame_read, graph_read, is_given, json_read, line_read};
ghost use Rattle.signalbox_words.specs.Commands.{listed, mark_read, names_read, picture_read, rehearsal_with};
ghost use Rattle.signalbox_words.specs.Commands.{rehearse_read, sheet_read, shown, states_read, table_read, two_names};
ghost use Rattle.signalbox_words.specs.Commands.{walk_with, work_read, working_with};

use crate::table::program;
use clap::error::ErrorKind;
use clap::{ArgMatches, Error};
use rail_text::NoMemory;
use std::alloc::Global;

/// The words of `mark`.
#[derive(Clone, Copy, Debug)]
pub struct MarkWords<'a> {
    pub plan: &'a str,
    /// What `run` printed, or its journal.
    pub output: &'a str,
    /// The name of the box, if only what it did is marked.
    pub box_name: Option<&'a str>,
    /// The time within which an answer is to come, as it was written.
    pub within: Option<&'a str>,
}

/// The words of `sheet`.
#[derive(Clone, Copy, Debug)]
pub struct SheetWords<'a> {
    /// It is a page for a browser.
    pub html: bool,
    pub plan: &'a str,
    /// What `run` printed, or its journal.
    pub output: &'a str,
    /// The name of the box, if only its sheets are printed.
    pub box_name: Option<&'a str>,
}

/// The words of `picture`.
#[derive(Clone, Copy, Debug)]
pub struct PictureWords<'a> {
    /// It is a film: a page for a browser that steps through the entries.
    pub film: bool,
    pub plan: &'a str,
    /// What `run` printed, or its journal.
    pub output: &'a str,
    /// The number of the entry, as it was written; the last if it isn't given.
    pub number: Option<&'a str>,
}

/// A command of `signalbox`, with the names of its texts.
#[derive(Debug, Drop)]
pub enum SignalboxCommand<'a> {
    /// `tidy FILE`: a text is printed with its form mended.
    Tidy {
        file: &'a str,
    },
    /// `rehearse [--to-refusal] [--journal] PLAN SCRIPT..`: a plan's line is rehearsed by the scripts of its boxes.
    Rehearse {
        /// It ends at the first refused call.
        to_refusal: bool,
        /// Its journal is printed in the place of its report.
        as_journal: bool,
        plan: &'a str,
        scripts: Vec<&'a str>,
    },
    /// `work [--hint] [--journal FILE] [--plain] [--screen] [--script FILE] PLAN BOX SCRIPT..`: a box of a plan's line
    /// is worked by hand.
    Work {
        /// It is told what is due.
        hint: bool,
        /// All is without colour.
        plain: bool,
        /// The box is drawn anew behind each line.
        screen: bool,
        plan: &'a str,
        /// The name of the box.
        box_name: &'a str,
        /// The scripts of the other boxes.
        scripts: Vec<&'a str>,
        /// The file to which the journal is written.
        journal: Option<&'a str>,
        /// The file to which his calls are written as a script.
        script: Option<&'a str>,
    },
    /// `frame PLAN BOX`: the lever frame of a box is drawn.
    Frame {
        plan: &'a str,
        /// The name of the box.
        box_name: &'a str,
    },
    /// `graph PLAN OUTPUT`: the train graph of a journal is drawn.
    Graph {
        plan: &'a str,
        /// What `run` printed, or its journal.
        output: &'a str,
    },
    /// `states PLAN BOX [--limit N] [--never L..] [--reach L..]`: the states of the lever frame of a box are walked.
    States {
        plan: &'a str,
        /// The name of the box.
        box_name: &'a str,
        /// How many states may be kept, as it was written.
        limit: Option<&'a str>,
        /// The levers that are never to be reversed together, as they were written.
        never: Vec<&'a str>,
        /// The levers that are to be reversed together, as they were written.
        reach: Vec<&'a str>,
    },
    /// `mark [--within M] PLAN OUTPUT [BOX]`: it is named what an instructor would mark in a journal.
    Mark(MarkWords<'a>),
    /// `sheet [--html] PLAN OUTPUT [BOX]`: the train register of each box is printed as a sheet.
    Sheet(SheetWords<'a>),
    /// `picture [--film] PLAN OUTPUT [ENTRY]`: the line is drawn as it stands after an entry.
    Picture(PictureWords<'a>),
    /// `table [--html] PLAN BOX`: the locking table of a box is printed, a line for each lever.
    Table {
        /// It is a page for a browser.
        html: bool,
        plan: &'a str,
        /// The name of the box.
        box_name: &'a str,
    },
    /// `rows FILE`: the rows of a locking table are printed for a plan.
    Rows {
        file: &'a str,
    },
    /// `json [--csv] PLAN OUTPUT`: a journal is printed for other programs.
    Json {
        /// It is CSV.
        csv: bool,
        plan: &'a str,
        /// What `run` printed, or its journal.
        output: &'a str,
    },
    /// `serve PLAN`: the line of a plan is held for another program, whose requests are answered.
    Serve {
        plan: &'a str,
    },
}

/// What words come to.
#[derive(Debug, Drop)]
pub enum Words<'a> {
    /// They are this command.
    Command(SignalboxCommand<'a>),
    /// They ask for this text: help, or the version.
    Shown(String),
    /// They are no command; the text says why.
    Wrong(String),
}

// Whether a flag is given.
#[tactic(auto, using(crate::proofs::MatchRules::match_rules))]
fn has_flag(found: &ArgMatches<'_>, flag: &str) -> bool
    ensures { result ≡ is_given (first_of flag.now (rows_of (found_of found.now))) }
{
    match found.get_str(flag) {
        Some(value) => value == "true",
        None => false,
    }
}

// The file of `tidy`.
#[tactic(auto, using(crate::proofs::MatchRules::match_rules))]
fn read_tidy<'a>(found: &ArgMatches<'a>) -> Option<SignalboxCommand<'a>>
    ensures { option_map shown result
        ≡ option_map Command.Tidy (first_of (codes "file") (rows_of (found_of found.now))) }
{
    let file = found.get_str("file")?;
    Some(SignalboxCommand::Tidy { file })
}

// The names of the plan and of the scripts of `rehearse`.
#[tactic(auto, using(crate::proofs::MatchRules::match_rules))]
fn read_names<'a, 'm>(found: &'m ArgMatches<'a>) -> Option<(&'a str, &'m [&'a str])>
    ensures { option_map (λ names. (names.0.now, map (λ name. name.now) names.1.now)) result
        ≡ names_read (rows_of (found_of found.entry.now)) }
{
    let (Some(plan), Some(scripts)) = (found.get_str("plan"), found.get_strs("script")) else {
        return None;
    };
    Some((plan, scripts))
}

// A rehearsal of the texts of these names, with the flags that are given.
fn rehearsal_with<'a>(
    alloc: Global,
    found: &ArgMatches<'a>,
    plan: &'a str,
    scripts: &[&'a str],
) -> Result<SignalboxCommand<'a>, NoMemory>
    ensures { IfOk result (λ command. shown command
        ≡ rehearsal_with (rows_of (found_of found.now)) (plan.entry.now, map (λ name. name.now) scripts.now)) }
{
    let to_refusal = has_flag(found, "to-refusal");
    let as_journal = has_flag(found, "journal");
    let scripts = Vec::from_slice(alloc, scripts)?;
    Ok(SignalboxCommand::Rehearse {
        to_refusal,
        as_journal,
        plan,
        scripts,
    })
}

// The flags, the plan and the scripts of `rehearse`.
fn read_rehearse<'a>(
    alloc: Global,
    found: &ArgMatches<'a>,
) -> Result<Option<SignalboxCommand<'a>>, NoMemory>
    ensures { IfOk result (λ command. option_map shown command ≡ rehearse_read (rows_of (found_of found.now))) }
{
    match read_names(found) {
        Some((plan, scripts)) => Ok(Some(rehearsal_with(alloc, found, plan, scripts)?)),
        None => Ok(None),
    }
}

// The names of the plan, the box and the scripts of `work`.
#[tactic(auto, using(crate::proofs::MatchRules::match_rules))]
fn read_line<'a, 'm>(found: &'m ArgMatches<'a>) -> Option<(&'a str, &'a str, &'m [&'a str])>
    ensures { option_map (λ names. (names.0.now, names.1.now, map (λ name. name.now) names.2.now)) result
        ≡ line_read (rows_of (found_of found.entry.now)) }
{
    let (Some(plan), Some(box_name), Some(scripts)) = (
        found.get_str("plan"),
        found.get_str("box"),
        found.get_strs("others"),
    ) else {
        return None;
    };
    Some((plan, box_name, scripts))
}

// A box of these names that is worked by hand, with the files that are named.
#[tactic(auto, using(crate::proofs::MatchRules::match_rules))]
fn working_with<'a>(
    alloc: Global,
    found: &ArgMatches<'a>,
    plan: &'a str,
    box_name: &'a str,
    scripts: &[&'a str],
) -> Result<SignalboxCommand<'a>, NoMemory>
    ensures { IfOk result (λ command. shown command ≡ working_with (rows_of (found_of found.now))
        (plan.entry.now, box_name.entry.now, map (λ name. name.now) scripts.now)) }
{
    let hint = has_flag(found, "hint");
    let plain = has_flag(found, "plain");
    let screen = has_flag(found, "screen");
    let scripts = Vec::from_slice(alloc, scripts)?;
    let journal = found.get_str("journal");
    let script = found.get_str("script");
    Ok(SignalboxCommand::Work {
        hint,
        plain,
        screen,
        plan,
        box_name,
        scripts,
        journal,
        script,
    })
}

// The plan, the box, the scripts and the files of `work`.
fn read_work<'a>(
    alloc: Global,
    found: &ArgMatches<'a>,
) -> Result<Option<SignalboxCommand<'a>>, NoMemory>
    ensures { IfOk result (λ command. option_map shown command ≡ work_read (rows_of (found_of found.now))) }
{
    match read_line(found) {
        Some((plan, box_name, scripts)) => {
            Ok(Some(working_with(alloc, found, plan, box_name, scripts)?))
        }
        None => Ok(None),
    }
}

// The names of a plan and of something beside it.
#[tactic(auto, using(crate::proofs::MatchRules::match_rules))]
fn read_two<'a>(found: &ArgMatches<'a>, other: &str) -> Option<(&'a str, &'a str)>
    ensures { option_map (λ names. (names.0.now, names.1.now)) result ≡ two_names
        (first_of (codes "plan") (rows_of (found_of found.now))) (first_of other.now (rows_of (found_of found.now))) }
{
    let (Some(plan), Some(other)) = (found.get_str("plan"), found.get_str(other)) else {
        return None;
    };
    Some((plan, other))
}

// The plan and the box of `frame`.
fn read_frame<'a>(found: &ArgMatches<'a>) -> Option<SignalboxCommand<'a>>
    ensures { option_map shown result ≡ frame_read (rows_of (found_of found.now)) }
{
    let (plan, box_name) = read_two(found, "box")?;
    Some(SignalboxCommand::Frame { plan, box_name })
}

// The plan and the journal of `graph`.
fn read_graph<'a>(found: &ArgMatches<'a>) -> Option<SignalboxCommand<'a>>
    ensures { option_map shown result ≡ graph_read (rows_of (found_of found.now)) }
{
    let (plan, output) = read_two(found, "output")?;
    Some(SignalboxCommand::Graph { plan, output })
}

// The words that are listed behind an option.
#[tactic(auto, using(crate::proofs::MatchRules::match_rules))]
fn read_list<'a>(
    alloc: Global,
    found: &ArgMatches<'a>,
    option: &str,
) -> Result<Vec<&'a str>, NoMemory>
    ensures { IfOk result (λ list. map (λ word. word.now) list.items
        ≡ listed (all_of option.now (rows_of (found_of found.now)))) }
{
    match found.get_strs(option) {
        Some(list) => Ok(Vec::from_slice(alloc, list)?),
        None => Ok(Vec::new(alloc)),
    }
}

// The states of the frame of a box of these names, with what is asked of them.
#[tactic(auto, using(crate::proofs::MatchRules::match_rules))]
fn walk_with<'a>(
    alloc: Global,
    found: &ArgMatches<'a>,
    plan: &'a str,
    box_name: &'a str,
) -> Result<SignalboxCommand<'a>, NoMemory>
    ensures { IfOk result (λ command. shown command
        ≡ walk_with (rows_of (found_of found.now)) (plan.entry.now, box_name.entry.now)) }
{
    let limit = found.get_str("limit");
    let never = read_list(alloc, found, "never")?;
    let reach = read_list(alloc, found, "reach")?;
    Ok(SignalboxCommand::States {
        plan,
        box_name,
        limit,
        never,
        reach,
    })
}

// The plan, the box and what is asked of `states`.
fn read_states<'a>(
    alloc: Global,
    found: &ArgMatches<'a>,
) -> Result<Option<SignalboxCommand<'a>>, NoMemory>
    ensures { IfOk result (λ command. option_map shown command ≡ states_read (rows_of (found_of found.now))) }
{
    match read_two(found, "box") {
        Some((plan, box_name)) => Ok(Some(walk_with(alloc, found, plan, box_name)?)),
        None => Ok(None),
    }
}

// The plan, the journal, the box and the time of `mark`.
#[tactic(auto, using(crate::proofs::MatchRules::match_rules))]
fn read_mark<'a>(found: &ArgMatches<'a>) -> Option<SignalboxCommand<'a>>
    ensures { option_map shown result ≡ mark_read (rows_of (found_of found.now)) }
{
    let (plan, output) = read_two(found, "output")?;
    let box_name = found.get_str("box");
    let within = found.get_str("within");
    Some(SignalboxCommand::Mark(MarkWords {
        plan,
        output,
        box_name,
        within,
    }))
}

// The flag, the plan, the journal and the box of `sheet`.
#[tactic(auto, using(crate::proofs::MatchRules::match_rules))]
fn read_sheet<'a>(found: &ArgMatches<'a>) -> Option<SignalboxCommand<'a>>
    ensures { option_map shown result ≡ sheet_read (rows_of (found_of found.now)) }
{
    let (plan, output) = read_two(found, "output")?;
    let box_name = found.get_str("box");
    let html = has_flag(found, "html");
    Some(SignalboxCommand::Sheet(SheetWords {
        html,
        plan,
        output,
        box_name,
    }))
}

// The flag, the plan, the journal and the entry of `picture`.
#[tactic(auto, using(crate::proofs::MatchRules::match_rules))]
fn read_picture<'a>(found: &ArgMatches<'a>) -> Option<SignalboxCommand<'a>>
    ensures { option_map shown result ≡ picture_read (rows_of (found_of found.now)) }
{
    let (plan, output) = read_two(found, "output")?;
    let number = found.get_str("entry");
    let film = has_flag(found, "film");
    Some(SignalboxCommand::Picture(PictureWords {
        film,
        plan,
        output,
        number,
    }))
}

// The flag, the plan and the box of `table`.
fn read_table<'a>(found: &ArgMatches<'a>) -> Option<SignalboxCommand<'a>>
    ensures { option_map shown result ≡ table_read (rows_of (found_of found.now)) }
{
    let (plan, box_name) = read_two(found, "box")?;
    let html = has_flag(found, "html");
    Some(SignalboxCommand::Table {
        html,
        plan,
        box_name,
    })
}

// The file of `rows`.
#[tactic(auto, using(crate::proofs::MatchRules::match_rules))]
fn read_rows<'a>(found: &ArgMatches<'a>) -> Option<SignalboxCommand<'a>>
    ensures { option_map shown result
        ≡ option_map Command.Rows (first_of (codes "file") (rows_of (found_of found.now))) }
{
    let file = found.get_str("file")?;
    Some(SignalboxCommand::Rows { file })
}

// The plan and the journal of `json`.
fn read_json<'a>(found: &ArgMatches<'a>) -> Option<SignalboxCommand<'a>>
    ensures { option_map shown result ≡ json_read (rows_of (found_of found.now)) }
{
    let (plan, output) = read_two(found, "output")?;
    let csv = has_flag(found, "csv");
    Some(SignalboxCommand::Json { csv, plan, output })
}

// The plan of `serve`.
#[tactic(auto, using(crate::proofs::MatchRules::match_rules))]
fn read_serve<'a>(found: &ArgMatches<'a>) -> Option<SignalboxCommand<'a>>
    ensures { option_map shown result
        ≡ option_map Command.Serve (first_of (codes "plan") (rows_of (found_of found.now))) }
{
    let plan = found.get_str("plan")?;
    Some(SignalboxCommand::Serve { plan })
}

// A command, by its name and what clap found.
fn read_command<'a>(
    alloc: Global,
    name: &str,
    found: &ArgMatches<'a>,
) -> Result<Option<SignalboxCommand<'a>>, NoMemory>
    ensures { IfOk result
        (λ command. option_map shown command ≡ command_read name.now (rows_of (found_of found.now))) }
{
    match name {
        "tidy" => Ok(read_tidy(found)),
        "rehearse" => read_rehearse(alloc, found),
        "work" => read_work(alloc, found),
        "frame" => Ok(read_frame(found)),
        "graph" => Ok(read_graph(found)),
        "states" => read_states(alloc, found),
        "mark" => Ok(read_mark(found)),
        "sheet" => Ok(read_sheet(found)),
        "picture" => Ok(read_picture(found)),
        "table" => Ok(read_table(found)),
        "rows" => Ok(read_rows(found)),
        "json" => Ok(read_json(found)),
        "serve" => Ok(read_serve(found)),
        _ => Ok(None),
    }
}

// What clap says of words that it doesn't take.
fn told<'a>(alloc: Global, error: &Error) -> Result<Words<'a>, NoMemory>
    ensures { IfOk result (TellsFault (kind_of error.now)) }
{
    let text = format!(in alloc; "{error}")?;
    match error.kind() {
        ErrorKind::OutOfMemory => {
            drop(text);
            Err(NoMemory)
        }
        ErrorKind::DisplayHelp | ErrorKind::DisplayVersion => Ok(Words::Shown(text)),
        _ => Ok(Words::Wrong(text)),
    }
}

/// What the words of a command line come to, those behind the program's name: a command, a text that they ask for, or
/// what is wrong with them, in clap's words.
pub fn read_words<'a>(alloc: Global, words: &'a [String]) -> Result<Words<'a>, NoMemory>
    ensures { IfOk result (AreRead (bytes_of words.now)) }
{
    let program = program(alloc)?;
    match program.try_get_matches_from(words) {
        Ok(matches) => {
            let Some((name, found)) = matches.subcommand() else {
                return Ok(Words::Wrong(String::new(alloc)));
            };
            match read_command(alloc, name, found)? {
                Some(command) => Ok(Words::Command(command)),
                None => Ok(Words::Wrong(String::new(alloc))),
            }
        }
        Err(error) => told(alloc, &error),
    }
}
