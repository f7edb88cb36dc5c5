//! The command line.

ghost use Rattle.std.specs.Prelude.{◌≡◌, map, IfOk, false};
ghost use Rattle.clap.specs.Words.{app_of, rule_of, new_app, with_subcommand};
ghost use Rattle.clap.specs.declared.builder.command.Command.TheViews.{out-Command};
ghost use Rattle.command_words.specs.Commands.{program, above};
ghost use Rattle.command_words.specs.Tables.{rule_in, name_for, app_for, with_commands};
ghost use Rattle.command_words.specs.Asked.{IsRequested, IsFound};
ghost use Rattle.clap.specs.Words.{subcommand_rows_of};

use crate::help;
use crate::requests::Request;
use crate::rows::{ArgumentRow, SUBCOMMANDS, Subcommand, Takes};
use crate::wanted::{has_text, request_of};
use clap::error::ErrorKind;
use clap::{Arg, ArgAction, ArgMatches, Command};
use std::alloc::{AllocError, Global};
use std::convert::AsStr;
use wasm_types::NoMemory;

/// What is said where the parser took no command, which it does not.
const NO_COMMAND: &str = "error: there is no such command\n";

/// What a command line comes to.
#[derive(Drop)]
pub enum Asked<'a> {
    /// It asks for this, and perhaps for the reason in words where it is refused.
    Request { request: Request<'a>, why: bool },
    /// It asks for this text: help, or the version.
    Text(String),
    /// It asks for nothing that there is, and this text says so.
    Unknown(String),
    /// The same, of a value that is wrong.
    Wrong(&'static str),
}

/// An argument of a command.
fn argument<'a>(alloc: Global, row: &ArgumentRow) -> Arg<'a>
    ensures rule { rule_of result ≡ rule_in row.now }
    ensures local { result.global ≡ false }
{
    let argument = Arg::new(alloc, row.name).help(row.help);
    match row.takes {
        Takes::File => argument.required(true),
        Takes::Value(value) => argument.long(row.name).value_name(value),
        Takes::ValueOr(value, default) => argument
            .long(row.name)
            .value_name(value)
            .default_value(default),
        Takes::Values(value) => argument
            .long(row.name)
            .value_name(value)
            .action(ArgAction::Append),
        Takes::Nothing => argument.long(row.name).action(ArgAction::SetTrue),
    }
}

/// A command, without its arguments.
fn bare_command<'a>(alloc: Global, which: Subcommand) -> Command<'a>
    ensures app { app_of result ≡ new_app (name_for which) }
    ensures local { (out-Command result).has_globals ≡ false }
{
    Command::new(alloc, which.name())
        .about(which.about())
        .long_about(which.long_about())
        .after_help(which.after_help())
}

/// A command, with its arguments.
fn command<'a>(alloc: Global, which: Subcommand) -> Result<Command<'a>, AllocError>
    ensures app { IfOk result (λ c. app_of c ≡ app_for which) }
    ensures local { IfOk result (λ c. (out-Command c).has_globals ≡ false) }
{
    let mut command = bare_command(alloc, which);
    let rows = which.arguments();
    for row in rows {
        command = command.arg(argument(alloc, row))?;
    }
    Ok(command)
}

/// The program, without its commands.
fn above<'a>(alloc: Global) -> Command<'a>
    ensures { app_of result ≡ above }
{
    Command::new(alloc, "wreplay")
        .version("0.1.0")
        .about("Record and replay runs of threaded WebAssembly modules")
        .long_about(help::LONG_ABOUT)
        .after_help(help::STATUSES)
        .subcommand_required(true)
}

/// The program with one more command.
fn with_command<'a>(
    alloc: Global,
    program: Command<'a>,
    which: Subcommand,
) -> Result<Command<'a>, AllocError>
    ensures { IfOk result (λ p. app_of p ≡ with_subcommand (app_of program.entry) (app_for which).top) }
{
    match command(alloc, which) {
        Ok(below) => program.subcommand(below),
        Err(error) => Err(error),
    }
}

/// The program with these commands behind its own.
fn with_commands<'a>(
    alloc: Global,
    program: Command<'a>,
    subcommands: &[Subcommand],
) -> Result<Command<'a>, AllocError>
    ensures { IfOk result (λ p. app_of p ≡ with_commands (app_of program.entry) subcommands.now) }
{
    let mut all = program;
    for which in subcommands {
        all = with_command(alloc, all, *which)?;
    }
    Ok(all)
}

/// The command lines that there are.
fn commands<'a>(alloc: Global) -> Result<Command<'a>, AllocError>
    ensures { IfOk result (λ command. app_of command ≡ program) }
{
    with_commands(alloc, above(alloc), SUBCOMMANDS)
}

/// What the words ask for that the parser took.
fn found_in<'a>(alloc: Global, matches: &ArgMatches<'a>) -> Result<Asked<'a>, NoMemory>
    ensures { IfOk result (IsFound (subcommand_rows_of matches.now)) }
{
    let Some((name, values)) = matches.subcommand() else {
        return Ok(Asked::Wrong(NO_COMMAND));
    };
    match request_of(alloc, name, values)? {
        Ok(request) => Ok(Asked::Request {
            request,
            why: has_text(values, "why", "true"),
        }),
        Err(wrong) => Ok(Asked::Wrong(wrong)),
    }
}

/// What these words ask for; the first is the program's name.
pub fn requested<'a, S: AsStr>(alloc: Global, words: &'a [S]) -> Result<Asked<'a>, NoMemory>
    ensures { IfOk result (IsRequested (map S.text words.now)) }
{
    let error = match commands(alloc)?.try_get_matches_from(words) {
        Ok(matches) => return found_in(alloc, &matches),
        Err(error) => error,
    };
    if let ErrorKind::OutOfMemory = error.kind() {
        return Err(NoMemory);
    }
    let text = error.to_string(alloc)?;
    if error.use_stderr() {
        Ok(Asked::Unknown(text))
    } else {
        Ok(Asked::Text(text))
    }
}
