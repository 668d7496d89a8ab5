//! The words of a command line.

ghost use Rattle.std.specs.Prelude.{◌≡◌, ◌≤◌, IfOk, IfSome, codes, string_bytes};
ghost use Rattle.std.specs.List.{list_all};
ghost use Rattle.std.specs.Option.{option_and_then, option_map};
ghost use Rattle.clap.specs.Words.{first_of, found_of, rows_of};
ghost use Rattle.command_words.specs.Commands.{IsCounted, at_desk, bytes_of, command_of, count_of, desk_command_of};
ghost use Rattle.command_words.specs.Commands.{desk_shown, form_named, form_of, is_plain_word, most_rounds, shown};
ghost use Rattle.command_words.specs.ClapReads.{command_read, desk_read, plan_read};

use crate::clap_words::matches_of;
use crate::table::{CommandName, may_have, name_of};
use clap::ArgMatches;
use rail_text::{NoMemory, read_number};
use std::alloc::Global;

/// The most trains of a made line.
pub const MOST_MADE_TRAINS: u32 = 200;

/// The most rounds of a watch.
pub const MOST_ROUNDS: u32 = 1000;

/// A command that the desk serves: it works no line of a plan.
#[derive(Clone, Copy, Debug)]
pub enum DeskCommand<'a> {
    /// `check PLAN`: a plan is checked.
    Check { plan: &'a str },
    /// `tables PLAN BOX`: the frame of a plan's box is shown.
    Tables { plan: &'a str, box_name: &'a str },
    /// `chart PLAN BOX`: the locking chart of a plan's box is shown.
    Chart { plan: &'a str, box_name: &'a str },
    /// `judge PLAN JOURNAL`: a journal of the plan's line is judged.
    Judge { plan: &'a str, journal: &'a str },
    /// `audit PLAN JOURNAL`: a journal of the plan's line is audited.
    Audit { plan: &'a str, journal: &'a str },
    /// `upgrade PLAN`: a plan is put into version 2.
    Upgrade { plan: &'a str },
    /// `token SCRIPT`: a single line with tokens is worked by the calls of a token script.
    Token { script: &'a str },
}

/// What the words of a command line ask for, with the names of the texts.
#[derive(Debug, Drop)]
pub enum CommandLine<'a> {
    /// `run PLAN SCRIPT..`: the plan's line is worked by one script or more.
    Run {
        plan: &'a str,
        scripts: Vec<&'a str>,
    },
    /// `stress N`: the made line of so many trains, 1 to 200, is worked by its own scripts.
    Stress {
        trains: u32,
    },
    /// `watch N PLAN SCRIPT..`: as `run`, and the line's instruments are looked at in so many
    /// rounds, 1 to 1000.
    Watch {
        rounds: u32,
        plan: &'a str,
        scripts: Vec<&'a str>,
    },
    /// A command of the desk.
    Desk(DeskCommand<'a>),
}

// A word that may stand in a command line: not empty, and without a hyphen in front.
fn is_plain_word(word: &str) -> bool
    ensures { result ≡ is_plain_word word.now }
{
    match word.as_bytes() {
        [] => false,
        [first, ..] => *first != b'-',
    }
}

fn are_plain_words(words: &[String]) -> bool
    ensures { result ≡ list_all (λ word. is_plain_word (string_bytes word)) words.now }
{
    words.iter().all(|word| is_plain_word(word.as_str()))
}

// The command with this first word, if so many words may stand behind it.
fn form_named(first: &str, count: usize) -> Option<CommandName>
    ensures { result ≡ form_named first.now count }
{
    let name = name_of(first)?;
    if may_have(name, count) {
        Some(name)
    } else {
        None
    }
}

// The command of which words have the form: plain, the first its own, and as many behind it as it has.
fn form_of(words: &[String]) -> Option<CommandName>
    ensures { result ≡ form_of (bytes_of words.now) }
{
    match words {
        [] => None,
        [first, rest @ ..] => {
            if are_plain_words(words) {
                form_named(first.as_str(), rest.len())
            } else {
                None
            }
        }
    }
}

// The plan and the scripts of `run`.
#[tactic(auto, using(crate::proofs::MatchRules::match_rules))]
fn read_run<'a>(alloc: Global, found: &ArgMatches<'a>) -> Result<Option<CommandLine<'a>>, NoMemory>
    ensures read { IfOk result
        (λ command. option_map shown command ≡ command_read CommandName.Run (rows_of (found_of found.now))) }
    ensures counted { IfOk result (λ command. IfSome command IsCounted) }
{
    let (Some(plan), Some(scripts)) = (found.get_str("plan"), found.get_strs("script")) else {
        return Ok(None);
    };
    let scripts = Vec::from_slice(alloc, scripts)?;
    Ok(Some(CommandLine::Run { plan, scripts }))
}

// The count that a word names, from 1 to the most.
#[tactic(auto, using(crate::proofs::MatchRules::count_rules))]
fn read_count(word: &str, most: u32) -> Option<u32>
    ensures exact { result ≡ count_of most word.now }
    ensures within { IfSome result (λ count. (1 ≤ count) × (count ≤ most)) }
{
    let count = read_number(word.as_bytes())?;
    if (1..=u64::from(most)).contains(&count) {
        Some(count as u32)
    } else {
        None
    }
}

// The number of trains of `stress`.
#[tactic(auto, using(crate::proofs::MatchRules::match_rules))]
fn read_stress<'a>(found: &ArgMatches<'a>) -> Option<CommandLine<'a>>
    ensures read { option_map shown result ≡ command_read CommandName.Stress (rows_of (found_of found.now)) }
    ensures counted { IfSome result IsCounted }
{
    let trains = read_count(found.get_str("trains")?, MOST_MADE_TRAINS)?;
    Some(CommandLine::Stress { trains })
}

// The rounds of `watch`.
#[tactic(auto, using(crate::proofs::MatchRules::match_rules))]
fn read_rounds(found: &ArgMatches<'_>) -> Option<u32>
    ensures exact { result
        ≡ option_and_then (count_of most_rounds) (first_of (codes "rounds") (rows_of (found_of found.now))) }
    ensures within { IfSome result (λ rounds. (1 ≤ rounds) × (rounds ≤ most_rounds)) }
{
    read_count(found.get_str("rounds")?, MOST_ROUNDS)
}

// The rounds, the plan and the scripts of `watch`.
#[tactic(auto, using(crate::proofs::MatchRules::match_rules))]
fn read_watch<'a>(
    alloc: Global,
    found: &ArgMatches<'a>,
) -> Result<Option<CommandLine<'a>>, NoMemory>
    ensures read { IfOk result
        (λ command. option_map shown command ≡ command_read CommandName.Watch (rows_of (found_of found.now))) }
    ensures counted { IfOk result (λ command. IfSome command IsCounted) }
{
    let Some(rounds) = read_rounds(found) else {
        return Ok(None);
    };
    let (Some(plan), Some(scripts)) = (found.get_str("plan"), found.get_strs("script")) else {
        return Ok(None);
    };
    let scripts = Vec::from_slice(alloc, scripts)?;
    Ok(Some(CommandLine::Watch {
        rounds,
        plan,
        scripts,
    }))
}

// A command of the desk that names a plan, of what clap found for its arguments.
#[tactic(auto, using(crate::proofs::MatchRules::match_rules))]
fn read_plan<'a>(name: CommandName, found: &ArgMatches<'a>) -> Option<DeskCommand<'a>>
    ensures { option_map desk_shown result ≡ plan_read name (rows_of (found_of found.now)) }
{
    let plan = found.get_str("plan")?;
    match name {
        CommandName::Check => Some(DeskCommand::Check { plan }),
        CommandName::Tables => {
            let box_name = found.get_str("box")?;
            Some(DeskCommand::Tables { plan, box_name })
        }
        CommandName::Chart => {
            let box_name = found.get_str("box")?;
            Some(DeskCommand::Chart { plan, box_name })
        }
        CommandName::Judge => {
            let journal = found.get_str("journal")?;
            Some(DeskCommand::Judge { plan, journal })
        }
        CommandName::Audit => {
            let journal = found.get_str("journal")?;
            Some(DeskCommand::Audit { plan, journal })
        }
        CommandName::Upgrade => Some(DeskCommand::Upgrade { plan }),
        _ => None,
    }
}

// A command of the desk, of what clap found for its arguments.
#[tactic(auto, using(crate::proofs::MatchRules::match_rules))]
fn read_desk<'a>(name: CommandName, found: &ArgMatches<'a>) -> Option<DeskCommand<'a>>
    ensures { option_map desk_shown result ≡ desk_read name (rows_of (found_of found.now)) }
{
    match name {
        CommandName::Token => {
            let script = found.get_str("script")?;
            Some(DeskCommand::Token { script })
        }
        _ => read_plan(name, found),
    }
}

// Any command, of what clap found for its arguments.
fn read_command<'a>(
    alloc: Global,
    name: CommandName,
    found: &ArgMatches<'a>,
) -> Result<Option<CommandLine<'a>>, NoMemory>
    ensures read { IfOk result
        (λ command. option_map shown command ≡ command_read name (rows_of (found_of found.now))) }
    ensures counted { IfOk result (λ command. IfSome command IsCounted) }
{
    match name {
        CommandName::Run => read_run(alloc, found),
        CommandName::Stress => Ok(read_stress(found)),
        CommandName::Watch => read_watch(alloc, found),
        _ => Ok(read_desk(name, found).map(CommandLine::Desk)),
    }
}

/// The command of these words, if they are of the table: `run PLAN SCRIPT..`, with one script or
/// more, `stress N`, with N from 1 to 200, `watch N PLAN SCRIPT..`, with N from 1 to 1000 and one
/// script or more, `check PLAN`, `tables PLAN BOX`, `chart PLAN BOX`, `judge PLAN JOURNAL`,
/// `audit PLAN JOURNAL`, `upgrade PLAN` or `token SCRIPT`. No word is empty or begins with `-`.
#[tactic(auto, unfolding(crate::specs::Commands::command_of))]
pub fn command_of<'a>(
    alloc: Global,
    words: &'a [String],
) -> Result<Option<CommandLine<'a>>, NoMemory>
    ensures read { IfOk result (λ found. option_map shown found ≡ command_of (bytes_of words.now)) }
    ensures counted { IfOk result (λ found. IfSome found IsCounted) }
{
    let Some(name) = form_of(words) else {
        return Ok(None);
    };
    let matches = matches_of(alloc, words, name)?;
    match matches.subcommand() {
        Some((_, found)) => read_command(alloc, name, found),
        None => Ok(None),
    }
}

// The command, if the desk serves it.
#[tactic(auto, using(crate::proofs::AtDesk::desk_is_served))]
fn at_desk(line: CommandLine<'_>) -> Option<DeskCommand<'_>>
    ensures { option_map desk_shown result ≡ at_desk (Some (shown line.entry)) }
{
    match line {
        CommandLine::Desk(command) => Some(command),
        _ => None,
    }
}

/// The command of these words, if the desk serves it: every command but `run`, `stress` and
/// `watch`.
#[tactic(auto, unfolding(crate::specs::Commands::desk_command_of))]
pub fn desk_command_of<'a>(
    alloc: Global,
    words: &'a [String],
) -> Result<Option<DeskCommand<'a>>, NoMemory>
    ensures { IfOk result (λ found. option_map desk_shown found ≡ desk_command_of (bytes_of words.now)) }
{
    match command_of(alloc, words)? {
        Some(line) => Ok(at_desk(line)),
        None => Ok(None),
    }
}
