//! What standard error gets when the program ends.

ghost use Rattle.std.specs.Prelude.{◌≡◌, ◌++◌, ℕ, List, decimal};
ghost use Rattle.adapter.specs.declared.exit_reason.ExitReason.TheVariants.{Syntax};
ghost use Rattle.adapter.specs.ExitReasons.{last_line, reason_of_serve};
ghost use Rattle.adapter.specs.Listing.{line_feed};
ghost use Rattle.adapter.specs.Running.{Reports, IsUsage};
ghost use Rattle.byte_streams.specs.Streams.{WritesOrFails};

use crate::arguments::{USAGE, objection};
use crate::exit_reason::{ExitReason, end_of_serve};
use crate::listener::EndListener;
use crate::serving::{ServeFault, Served};
use byte_streams::{Sink, say};
use itoa::Buffer;
use log::sink::Console;
use log::{Level, Logged, error};
use pl0_mistakes::mistake_line;
use pl0_tree::{FaultKind, Place};
use std::alloc::{AllocError, Global};
use std::sync::Wait;

/// Reports how serving ended on an output that was lent.
#[derive(Drop)]
pub(crate) struct EndReporter<'a, R, E> {
    rt: &'a R,
    errors: &'a mut E,
}

impl<'a, R, E> EndReporter<'a, R, E> {
    /// A listener that reports on `errors`.
    pub(crate) fn new(rt: &'a R, errors: &'a mut E) -> EndReporter<'a, R, E>
        ensures same_errors { result.errors.ghost_name ≡ errors.entry.ghost_name }
        ensures errors { result.errors.now ≡ errors.old }
    {
        EndReporter { rt, errors }
    }

    /// Returns the output.
    pub(crate) fn into_errors(self) -> &'a mut E
        ensures same_errors { result.ghost_name ≡ self.entry.errors.ghost_name }
        ensures errors { result.now ≡ self.entry.errors.now }
    {
        self.errors
    }
}

impl<'a, R: Wait + Eprint + AllocGlobal, E: Sink> EndListener for EndReporter<'a, R, E> {
    ghost tells = { λ old later outcome. (later.errors.ghost_name ≡ old.errors.ghost_name)
        × Reports (reason_of_serve outcome)
        (E.output old.errors.now)
        (E.output later.errors.now) };

    fn tell(&mut self, outcome: Result<Served, ServeFault>) {
        report(self.rt, &[], end_of_serve(&outcome), self.errors);
    }
}

/// Logs the reason, says it as [`say_reason`] does, and returns it.
pub(crate) fn report<R: Wait + Eprint + AllocGlobal, E: Sink>(
    rt: &R,
    arguments: &[&str],
    reason: ExitReason,
    errors: &mut E,
) -> ExitReason
    ensures reason { result ≡ reason }
    ensures reports { Reports result (E.output errors.old) (E.output errors.new) }
{
    log_end(rt, reason);
    say_reason(rt, arguments, reason, errors);
    reason
}

/// Writes the reason to the log, unless nothing failed, or standard error has it in words: the usage, the mistake of a
/// program text, or a file that can't be read, which were noted before. On standard error it stands before the last line.
fn log_end<R: Eprint>(rt: &R, reason: ExitReason) {
    let is_unlogged = matches!(
        reason,
        ExitReason::Success
            | ExitReason::NotText
            | ExitReason::NotUnderstood
            | ExitReason::Syntax { .. }
            | ExitReason::CannotRead
    );
    if !is_unlogged {
        let notes = Logged::new(rt, Level::Error, Console(rt));
        error!(notes; "ended by {reason:?}");
    }
}

/// Writes to `errors` what standard error gets for a reason to end: nothing for `Success`, the usage for
/// `NotUnderstood`, after what wasn't understood of the arguments, and else the last line. Behind that of `NotText` stands
/// the usage. No other reason than `NotUnderstood` looks at the arguments.
pub fn say_reason<R: Wait + AllocGlobal, E: Sink>(
    rt: &R,
    arguments: &[&str],
    reason: ExitReason,
    errors: &mut E,
)
    ensures { Reports reason (E.output errors.old) (E.output errors.new) }
{
    match reason {
        ExitReason::Success => {}
        ExitReason::ReadFailed => say(rt, errors, &["pl0dap: read failed\n"]),
        ExitReason::WriteFailed => say(rt, errors, &["pl0dap: write failed\n"]),
        ExitReason::Framing(number) => say_number(rt, errors, "pl0dap: frame ", number),
        ExitReason::Refused(number) => say_number(rt, errors, "pl0dap: refused ", number),
        ExitReason::CannotRead => say(rt, errors, &["pl0dap: cannot read\n"]),
        ExitReason::Syntax { number, place } => say_syntax(rt, errors, number, place),
        ExitReason::NoMemory => say(rt, errors, &["pl0dap: no memory\n"]),
        ExitReason::NotText => say(rt, errors, &["pl0dap: an argument is not text\n", USAGE]),
        ExitReason::NotUnderstood => say_usage(rt, errors, arguments),
    }
}

/// Writes the mistake of a file's text to standard error, in the form that compilers have, where there is memory for
/// it.
pub(crate) fn note_mistake<R: Eprint + AllocGlobal>(
    rt: &R,
    file: &str,
    text: &[u8],
    kind: FaultKind,
    place: Place,
) {
    let Ok(line) = mistake_line(rt.alloc(), file, text, kind, place) else {
        return;
    };
    if let Ok(line) = str::from_utf8(line.as_slice()) {
        let _ = rt.eprint(line);
    }
}

/// Writes to standard error which file can't be read.
pub(crate) fn note_unread(rt: &impl Eprint, file: &str) {
    for text in [file, ": error: the file can't be read\n"] {
        let _ = rt.eprint(text);
    }
}

/// Writes `text`, the number in decimal, and a line feed.
fn say_number<E: Sink>(rt: &impl Wait, errors: &mut E, text: &str, number: u8)
    ensures { WritesOrFails (text.now ++ (decimal number ++ line_feed)) (E.output errors.old) (E.output errors.new) }
{
    let mut digits = Buffer::new();
    say(rt, errors, &[text, digits.format(number), "\n"]);
}

/// Writes the last line for a fault of a program text.
fn say_syntax<E: Sink>(rt: &impl Wait, errors: &mut E, number: u8, place: Place)
    ensures { WritesOrFails (last_line (Syntax number place) ++ line_feed)
        (E.output errors.old) (E.output errors.new) }
{
    let mut digits = Buffer::new();
    let mut line = Buffer::new();
    let mut column = Buffer::new();
    let texts = [
        "pl0dap: syntax ",
        digits.format(number),
        " ",
        line.format(place.line),
        " ",
        column.format(place.column),
        "\n",
    ];
    say(rt, errors, &texts);
}

/// Writes what was wrong with the arguments, where there is memory for it, and then the usage.
fn say_usage<R: Wait + AllocGlobal, E: Sink>(rt: &R, errors: &mut E, arguments: &[&str])
    ensures { (text : List ℕ) × IsUsage text × WritesOrFails text (E.output errors.old) (E.output errors.new) }
{
    match objection(rt.alloc(), arguments) {
        Ok(message) => say(rt, errors, &[message.as_str(), USAGE]),
        Err(AllocError) => say(rt, errors, &[USAGE]),
    }
}
