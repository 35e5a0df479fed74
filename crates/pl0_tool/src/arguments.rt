//! What the command line asks for, as `clap` reads it.

ghost use Rattle.std.specs.Prelude.{◌≡◌, IfOk, map, false, [], codes, unwrap_or};
ghost use Rattle.clap.specs.Words.{all_of, app_of, found_of, one_of, rows_of, rule_of};
ghost use Rattle.pl0_tool.specs.Arguments.{IsNumber, IsParsed, IsTask, alone, command_line, program};
ghost use Rattle.pl0_tool.specs.Arguments.{check_command, file_command, list_command, run_command, trace_command};
ghost use Rattle.pl0_tool.specs.Arguments.{files, flag, number_option, one_file};

use crate::tracing::View;
use clap::builder::ValueParser;
use clap::{Arg, ArgAction, ArgMatches, Command, Error};
use std::alloc::{AllocError, Global};

/// What is to be done with a text.
#[derive(Clone, Copy, Debug, PartialEq, Eq)]
pub enum Task {
    /// Run the program, for this many steps at most.
    Run { limit: u64 },
    /// Tell this many positions of the program's run, from one on, with what else is to be told there.
    Trace { from: u64, steps: usize, view: View },
    Check,
    /// Show the code under each line, or the table of names.
    List { names: bool },
    /// Draw the program's tree.
    Tree,
    /// Show the text's tokens.
    Tokens,
}

/// What the command line asks for.
#[derive(Drop)]
pub struct Request<'a> {
    pub task: Task,
    /// The names of the files; a task other than `Check` is for the first alone.
    pub files: Vec<&'a str>,
}

/// How many positions are told where `--steps` doesn't say.
const STEPS: u64 = 100;

/// The most positions that are told at once.
const MOST_STEPS: u64 = 65_536;

/// What `--help` says of the statuses.
const STATUSES: &str = "FILE is a program's text of at most 65,536 bytes; - is standard input.

Exit status:
  0  the program ended, or all was written
  1  the program's run faulted, at a step that was told or before it
  2  a text has a mistake
  3  a file can't be read, the output failed, or memory ran out
  4  the command line was not understood
  5  the program's run was stopped after as many steps as it may take";

// What `--help` says of commands and options.
const TREE_ABOUT: &str = "Draw the tree of a program, with the level and address of each name";

const TOKENS_ABOUT: &str =
    "Show the tokens of a text: place, kind and text of each, and its first mistake";

const LIMIT_HELP: &str =
    "How many steps may be taken; the run is stopped before the next one, with status 5";

const FROM_HELP: &str = "The position to begin at; 0 if not given";

const STEPS_HELP: &str = "How many steps to tell, 65,536 at most; 100 if not given";

const MACHINE_HELP: &str =
    "Show the machine: P, B and T, and of each frame its first cell, links and return address";

const INSTRUCTIONS_HELP: &str =
    "Show the instructions of each step, with the operands on the stack before each";

const NAMES_HELP: &str = "List the names instead, with the level and address of each";

/// Reads the arguments, the program's name first.
///
/// # Errors
///
/// What `clap` says of arguments that ask for nothing, or for help or the version.
pub fn parse_arguments<'a>(alloc: Global, arguments: &'a [&'a str]) -> Result<Request<'a>, Error>
    ensures { IsParsed (map (λ argument. argument.now) arguments.entry.now) result }
{
    let matches = command_line(alloc)?.try_get_matches_from(arguments)?;
    match matches.subcommand() {
        Some((name, given)) => Ok(asked_for(alloc, name, given)?),
        None => unreachable!(),
    }
}

/// Returns what the command of this name asks for, by its matches.
///
/// # Errors
///
/// Out of memory.
fn asked_for<'a>(
    alloc: Global,
    name: &str,
    given: &ArgMatches<'a>,
) -> Result<Request<'a>, AllocError>
    ensures task { IfOk result (λ asked. IsTask name.now (rows_of (found_of given.now)) asked.task) }
    ensures files { IfOk result (λ asked. map (λ file. file.now) asked.files.items
        ≡ unwrap_or (all_of (codes "FILE") (rows_of (found_of given.now))) []) }
{
    let mut files = Vec::new(alloc);
    for file in given.get_strs("FILE").unwrap_or(&[]) {
        files.push(*file)?;
    }
    Ok(Request {
        task: task_of(name, given),
        files,
    })
}

/// Returns the task of the command of this name.
fn task_of(name: &str, given: &ArgMatches<'_>) -> Task
    ensures { IsTask name.now (rows_of (found_of given.now)) result }
{
    match name {
        "run" => Task::Run {
            limit: number(given, "steps", u64::MAX),
        },
        "trace" => Task::Trace {
            from: number(given, "from", 0),
            steps: number(given, "steps", STEPS) as usize,
            view: View {
                machine: given.get_flag("machine"),
                instructions: given.get_flag("instructions"),
            },
        },
        "list" => Task::List {
            names: given.get_flag("names"),
        },
        "tree" => Task::Tree,
        "tokens" => Task::Tokens,
        _ => Task::Check,
    }
}

/// Returns the number that an option was given, or another one.
fn number(given: &ArgMatches<'_>, name: &str, default: u64) -> u64
    ensures { IsNumber default (one_of name.now (rows_of (found_of given.now))) result }
{
    given.get_one(name).unwrap_or(default)
}

/// Returns the command line, to which `clap` adds its help and the version.
///
/// # Errors
///
/// Out of memory.
fn command_line<'a>(alloc: Global) -> Result<Command<'a>, AllocError>
    ensures { IfOk result (λ command. app_of command ≡ command_line) }
{
    program(alloc)
        .subcommand(run_command(alloc)?)?
        .subcommand(trace_command(alloc)?)?
        .subcommand(check_command(alloc)?)?
        .subcommand(list_command(alloc)?)?
        .subcommand(file_command(alloc, "tree", TREE_ABOUT)?)?
        .subcommand(file_command(alloc, "tokens", TOKENS_ABOUT)?)
}

/// Returns the program, without its commands.
fn program<'a>(alloc: Global) -> Command<'a>
    ensures { app_of result ≡ program }
{
    Command::new(alloc, "pl0")
        .version("1.3.0")
        .about(
            "Runs, traces, checks, lists and draws programs in PL/0, the language of Wirth's compiler book",
        )
        .after_help(STATUSES)
        .subcommand_required(true)
}

/// Returns the command that runs a program.
fn run_command<'a>(alloc: Global) -> Result<Command<'a>, AllocError>
    ensures { IfOk result (λ command. app_of command ≡ alone run_command) }
{
    Command::new(alloc, "run")
        .about("Run a program: each number that it writes is a line")
        .arg(one_file(alloc))?
        .arg(number_option(alloc, "steps", 1, u64::MAX, LIMIT_HELP))
}

/// Returns the command that traces a program.
fn trace_command<'a>(alloc: Global) -> Result<Command<'a>, AllocError>
    ensures { IfOk result (λ command. app_of command ≡ alone trace_command) }
{
    Command::new(alloc, "trace")
        .about(
            "Tell a run step by step: place, source, what is written, and the frames before the step",
        )
        .arg(one_file(alloc))?
        .arg(number_option(alloc, "from", 0, u64::MAX, FROM_HELP))?
        .arg(number_option(alloc, "steps", 1, MOST_STEPS, STEPS_HELP))?
        .arg(flag(alloc, "machine", MACHINE_HELP))?
        .arg(flag(alloc, "instructions", INSTRUCTIONS_HELP))
}

/// Returns the command that checks texts.
fn check_command<'a>(alloc: Global) -> Result<Command<'a>, AllocError>
    ensures { IfOk result (λ command. app_of command ≡ alone check_command) }
{
    Command::new(alloc, "check")
        .about(
            "Tell the first mistake of each text, or its wrong names, as FILE:LINE:COLUMN: error: ..",
        )
        .arg(files(alloc))
}

/// Returns the command that lists a program's code, or its names.
fn list_command<'a>(alloc: Global) -> Result<Command<'a>, AllocError>
    ensures { IfOk result (λ command. app_of command ≡ alone list_command) }
{
    Command::new(alloc, "list")
        .about("List the machine's code under each line of a program, or its names")
        .arg(one_file(alloc))?
        .arg(flag(alloc, "names", NAMES_HELP))
}

/// Returns a command for one file, with no options.
fn file_command<'a>(alloc: Global, name: &'a str, about: &'a str) -> Result<Command<'a>, AllocError>
    ensures { IfOk result (λ command. app_of command ≡ alone (file_command name.entry.now)) }
{
    Command::new(alloc, name).about(about).arg(one_file(alloc))
}

/// Returns the argument for the file that a command is for.
fn one_file<'a>(alloc: Global) -> Arg<'a>
    ensures rule { rule_of result ≡ one_file }
    ensures own { result.global ≡ false }
{
    Arg::new(alloc, "FILE")
        .required(true)
        .action(ArgAction::Set)
        .help("The program's text; - is standard input")
}

/// Returns the argument for the files that are checked, one or more.
fn files<'a>(alloc: Global) -> Arg<'a>
    ensures rule { rule_of result ≡ files }
    ensures own { result.global ≡ false }
{
    Arg::new(alloc, "FILE")
        .required(true)
        .action(ArgAction::Append)
        .num_args(1..)
        .help("Texts of programs; - is standard input")
}

/// Returns an option with a number from `least` to `most`.
fn number_option<'a>(alloc: Global, name: &'a str, least: u64, most: u64, help: &'a str) -> Arg<'a>
    ensures rule { rule_of result ≡ number_option name.entry.now least most }
    ensures own { result.global ≡ false }
{
    Arg::new(alloc, name)
        .long(name)
        .value_name("N")
        .value_parser(ValueParser::unsigned(least, most))
        .help(help)
}

/// Returns a flag.
fn flag<'a>(alloc: Global, name: &'a str, help: &'a str) -> Arg<'a>
    ensures rule { rule_of result ≡ flag name.entry.now }
    ensures own { result.global ≡ false }
{
    Arg::new(alloc, name)
        .long(name)
        .action(ArgAction::SetTrue)
        .help(help)
}
