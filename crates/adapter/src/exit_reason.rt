//! Why a run ends, and the exit status.

ghost use Rattle.std.specs.Prelude.{◌≡◌};
ghost use Rattle.std.specs.IoError.{error_kind};
ghost use Rattle.adapter.specs.ExitReasons.{reason_of_serve, reason_of_session, reason_of_framing, reason_of_check, reason_of_arguments, reason_of_reading, status_of};

use crate::arguments::ArgumentsFault;
use crate::checking::CheckFault;
use crate::serving::{ServeFault, Served};
use dap_frame::FramingFault;
use dap_session::SessionFault;
use pl0_tree::Place;
use std::io::{self, ErrorKind};

/// Why a run of the program ends. [`say_reason`](crate::say_reason) writes what standard error gets.
#[derive(Clone, Copy, Debug)]
pub enum ExitReason {
    /// All went well.
    Success,
    /// The input failed.
    ReadFailed,
    /// The output failed.
    WriteFailed,
    /// A framing fault, by its number from 1.
    Framing(u8),
    /// Any other refusal of the session, by its number.
    Refused(u8),
    /// The file to check can't be read.
    CannotRead,
    /// The first fault of the text that was checked, by its number, and where it stands.
    Syntax { number: u8, place: Place },
    /// Memory ran out while arguments were read or a file was checked.
    NoMemory,
    /// An argument is no text.
    NotText,
    /// The command line was not understood.
    NotUnderstood,
}

impl ExitReason {
    /// The exit status: 0 at success, 1 where reading or writing failed, 2 after a framing fault, 3 after any other
    /// refusal, 4 where the command line was not understood, or is no text.
    pub fn status(self) -> u8
        ensures { result ≡ status_of self }
    {
        match self {
            ExitReason::Success => 0,
            ExitReason::ReadFailed | ExitReason::WriteFailed | ExitReason::CannotRead => 1,
            ExitReason::Framing(_) => 2,
            ExitReason::Refused(_) | ExitReason::Syntax { .. } | ExitReason::NoMemory => 3,
            ExitReason::NotText | ExitReason::NotUnderstood => 4,
        }
    }
}

/// How the program ends after `check`.
pub fn end_of_check(outcome: &Result<(), CheckFault>) -> ExitReason
    ensures { result ≡ reason_of_check outcome.now }
{
    match outcome {
        Ok(()) => ExitReason::Success,
        Err(CheckFault::CannotRead) => ExitReason::CannotRead,
        Err(CheckFault::Syntax { kind, place }) => ExitReason::Syntax {
            number: kind.number(),
            place: *place,
        },
        Err(CheckFault::WriteFailed) => ExitReason::WriteFailed,
        Err(CheckFault::NoMemory) => ExitReason::NoMemory,
    }
}

/// How the program ends where its arguments name no invocation.
pub(crate) fn end_of_arguments(fault: ArgumentsFault) -> ExitReason
    ensures { result ≡ reason_of_arguments fault }
{
    match fault {
        ArgumentsFault::Help => ExitReason::Success,
        ArgumentsFault::NotUnderstood => ExitReason::NotUnderstood,
        ArgumentsFault::NoMemory => ExitReason::NoMemory,
    }
}

/// How the program ends where this error came in place of its arguments.
pub(crate) fn end_of_reading(error: &io::Error) -> ExitReason
    ensures { result ≡ reason_of_reading (error_kind error.now) }
{
    match error.kind() {
        ErrorKind::OutOfMemory => ExitReason::NoMemory,
        _ => ExitReason::NotText,
    }
}

/// How the program ends after `serve`.
pub fn end_of_serve(outcome: &Result<Served, ServeFault>) -> ExitReason
    ensures { result ≡ reason_of_serve outcome.now }
{
    match outcome {
        Ok(_) => ExitReason::Success,
        Err(ServeFault::WriteFailed) => ExitReason::WriteFailed,
        Err(ServeFault::ReadFailed) => ExitReason::ReadFailed,
        Err(ServeFault::Session(fault)) => end_of_session(*fault),
        Err(ServeFault::NoThread) => ExitReason::Refused(7),
    }
}

/// How the program ends after a fault of the session.
fn end_of_session(fault: SessionFault) -> ExitReason
    ensures { result ≡ reason_of_session fault }
{
    match fault {
        SessionFault::Frame(fault) => end_of_framing(fault),
        SessionFault::NoMemory => ExitReason::Refused(2),
        SessionFault::SeqExhausted => ExitReason::Refused(3),
        SessionFault::OrdersFull => ExitReason::Refused(4),
        SessionFault::RunnerGone => ExitReason::Refused(5),
        SessionFault::WriterGone => ExitReason::Refused(6),
    }
}

/// How the program ends after a framing fault.
fn end_of_framing(fault: FramingFault) -> ExitReason
    ensures { result ≡ reason_of_framing fault }
{
    match fault {
        FramingFault::HeaderTooLong => ExitReason::Framing(1),
        FramingFault::BadField => ExitReason::Framing(2),
        FramingFault::NoLength => ExitReason::Framing(3),
        FramingFault::TwoLengths => ExitReason::Framing(4),
        FramingFault::BadLength => ExitReason::Framing(5),
        FramingFault::TooLarge => ExitReason::Framing(6),
        FramingFault::NoMemory => ExitReason::Refused(2),
    }
}
