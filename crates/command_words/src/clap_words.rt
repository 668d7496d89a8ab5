//! The commands as clap knows them, and what clap finds in the words.

ghost use Rattle.std.specs.Prelude.{◌≡◌, false, map, option_and_then, option_map, IfOk, Some};
ghost use Rattle.clap.specs.Words.{app_of, rule_of, subcommand_rows_of};
ghost use Rattle.clap.specs.declared.builder.command.Command.TheViews.{out-Command};
ghost use Rattle.command_words.specs.Commands.{bytes_of, command_of, form_of};
ghost use Rattle.command_words.specs.ClapTable.{all_commands, command_named, program, repeated_argument};
ghost use Rattle.command_words.specs.ClapTable.{required_argument, with_arguments, with_command, with_scripts};
ghost use Rattle.command_words.specs.ClapReads.{command_read};

use crate::table::{ALL_NAMES, CommandName, Row, row_of};
use clap::error::ErrorKind;
use clap::{Arg, ArgMatches, Command};
use rail_text::NoMemory;
use std::alloc::{AllocError, Global};

// An argument that is required.
fn required_argument<'a>(alloc: Global, name: &'a str) -> Arg<'a>
    ensures rule { rule_of result ≡ required_argument name.entry.now }
    ensures own { result.global ≡ false }
{
    Arg::new(alloc, name).required(true)
}

// An argument that takes one word or more.
fn repeated_argument<'a>(alloc: Global, name: &'a str) -> Arg<'a>
    ensures rule { rule_of result ≡ repeated_argument name.entry.now }
    ensures own { result.global ≡ false }
{
    required_argument(alloc, name).num_args(1..)
}

// A command with these arguments, each required.
fn with_arguments<'a>(
    alloc: Global,
    word: &'a str,
    arguments: &[&'a str],
) -> Result<Command<'a>, AllocError>
    ensures shape { IfOk result
        (λ c. app_of c ≡ with_arguments word.entry.now (map (λ id. id.now) arguments.now)) }
    ensures own { IfOk result (λ c. (out-Command c).has_globals ≡ false) }
{
    let mut command = Command::new(alloc, word);
    for id in arguments {
        command = command.arg(required_argument(alloc, *id))?;
    }
    Ok(command)
}

// The command with scripts behind its arguments, if it has them.
fn with_scripts<'a>(
    alloc: Global,
    command: Command<'a>,
    has_scripts: bool,
) -> Result<Command<'a>, AllocError>
    requires own { (out-Command command).has_globals ≡ false }
    ensures shape { IfOk result (λ c. app_of c ≡ with_scripts (app_of command.entry) has_scripts) }
    ensures own { IfOk result (λ c. (out-Command c).has_globals ≡ false) }
{
    if has_scripts {
        command.arg(repeated_argument(alloc, "script"))
    } else {
        Ok(command)
    }
}

// The program. clap is given its words without its own name in front.
fn program<'a>(alloc: Global) -> Command<'a>
    ensures { app_of result ≡ program }
{
    Command::new(alloc, "box_main").no_binary_name(true)
}

// The command of this name.
fn command_named<'a>(alloc: Global, name: CommandName) -> Result<Command<'a>, AllocError>
    ensures shape { IfOk result (λ c. app_of c ≡ command_named name) }
    ensures own { IfOk result (λ c. (out-Command c).has_globals ≡ false) }
{
    let Row(word, arguments, has_scripts) = row_of(name);
    let command = with_arguments(alloc, word, arguments)?;
    with_scripts(alloc, command, has_scripts)
}

// The program with one more command.
fn with_command<'a>(
    alloc: Global,
    program: Command<'a>,
    name: CommandName,
) -> Result<Command<'a>, AllocError>
    ensures { IfOk result (λ c. app_of c ≡ with_command (app_of program.entry) name) }
{
    let command = command_named(alloc, name)?;
    program.subcommand(command)
}

// The program with all its commands.
fn all_commands<'a>(alloc: Global) -> Result<Command<'a>, AllocError>
    ensures { IfOk result (λ c. app_of c ≡ all_commands) }
{
    let mut commands = program(alloc);
    for name in &ALL_NAMES {
        commands = with_command(alloc, commands, *name)?;
    }
    Ok(commands)
}

/// What clap finds in words that have the form of this command.
pub(crate) fn matches_of<'a>(
    alloc: Global,
    words: &'a [String],
    name: CommandName,
) -> Result<ArgMatches<'a>, NoMemory>
    requires { form_of (bytes_of words.now) ≡ Some name }
    ensures { IfOk result (λ m. option_and_then (command_read name) (option_map (λ p. p.1) (subcommand_rows_of m))
        ≡ command_of (bytes_of words.now)) }
{
    let commands = all_commands(alloc)?;
    match commands.try_get_matches_from(words) {
        Ok(matches) => Ok(matches),
        Err(error) => match error.kind() {
            ErrorKind::OutOfMemory => Err(NoMemory),
            _ => unreachable!(),
        },
    }
}
