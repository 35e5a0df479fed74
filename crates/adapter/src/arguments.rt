//! What the command line asks the program to do, as `clap` reads it.

ghost use Rattle.std.specs.Prelude.{◌≡◌, IfOk, map};
ghost use Rattle.clap.specs.Words.{app_of};
ghost use Rattle.adapter.specs.Arguments.{IsParsed, command_line};

use clap::error::ErrorKind;
use clap::{Arg, ArgAction, Command};
use std::alloc::{AllocError, Global};

/// What the command line asks the program to do.
#[derive(Clone, Copy, Debug, PartialEq, Eq)]
pub enum Invocation<'a> {
    /// Serve one client over standard input and output.
    Serve,
    /// Print the listing of the program text in this file. The name is as it was given, so it may be empty.
    Check(&'a str),
}

/// Why the arguments name no invocation.
#[derive(Clone, Copy, Debug, PartialEq, Eq)]
pub enum ArgumentsFault {
    /// An argument means nothing where it stands, or a file's name is missing.
    NotUnderstood,
    /// The arguments ask for help.
    Help,
    /// Memory ran out while the arguments were read.
    NoMemory,
}

/// What `--help` prints. The version stands in its first line.
pub const HELP: &str =
    "pl0dap 1.3.0: a debug adapter for PL/0, which speaks the Debug Adapter Protocol.

Usage: pl0dap [--check FILE]

Options:
      --check <FILE>  Print the steps and code of the program in FILE, and exit
  -h, --help          Print help

An editor starts pl0dap with no arguments, and speaks the protocol over its standard
input and output.

Exit status:
  0  the client disconnected, its input ended, or the listing or help was printed
  1  reading or writing failed
  2  the input was not framed as the protocol asks
  3  another refusal, such as a mistake in FILE, or out of memory
  4  the command line was not understood
";

/// What standard error gets last where the arguments were not understood.
pub const USAGE: &str = "
Usage: pl0dap [--check FILE]

For more information, try '--help'.
";

/// Reads the arguments, the program's name first. No further argument means `Serve`, and `--check FILE` or
/// `--check=FILE` means `Check`.
///
/// # Errors
///
/// `Help` where `-h` or `--help` is found and the arguments before it are understood, `NotUnderstood` for all others,
/// and `NoMemory` where memory ran out.
pub fn parse_arguments<'a>(
    alloc: Global,
    arguments: &'a [&str],
) -> Result<Invocation<'a>, ArgumentsFault>
    ensures { IsParsed (map (λ argument. argument.now) arguments.entry.now) result }
{
    let Ok(command) = command_line(alloc) else {
        return Err(ArgumentsFault::NoMemory);
    };
    match command.try_get_matches_from(arguments) {
        Ok(matches) => match matches.get_str("check") {
            Some(file) => Ok(Invocation::Check(file)),
            None => Ok(Invocation::Serve),
        },
        Err(error) => match error.kind() {
            ErrorKind::DisplayHelp => Err(ArgumentsFault::Help),
            ErrorKind::OutOfMemory => Err(ArgumentsFault::NoMemory),
            _ => Err(ArgumentsFault::NotUnderstood),
        },
    }
}

/// Returns what `parse_arguments` did not understand of the arguments, in one or more lines, which may hold a hint. The
/// text is empty for arguments that it understands.
///
/// # Errors
///
/// `AllocError`, where an allocation failed.
pub(crate) fn objection(alloc: Global, arguments: &[&str]) -> Result<String, AllocError> {
    let command = command_line(alloc)?;
    let Err(error) = command.try_get_matches_from(arguments) else {
        return Ok(String::new(alloc));
    };
    let text = error.to_string(alloc)?;
    let text = text.as_str();
    // What `clap` says ends in a usage of its own, or in a line that points to the help.
    let message = match text
        .split_once("\nUsage: ")
        .or(text.split_once("\nFor more information"))
    {
        Some((message, _ending)) => message,
        None => text,
    };
    String::from_str(alloc, message)
}

/// The command line of the program: the option `--check FILE`, with the help that `clap` adds.
fn command_line<'a>(alloc: Global) -> Result<Command<'a>, AllocError>
    ensures { IfOk result (λ command. app_of command ≡ command_line) }
{
    let check = Arg::new(alloc, "check")
        .long("check")
        .action(ArgAction::Set)
        .value_name("FILE");
    Command::new(alloc, "pl0dap").arg(check)
}
