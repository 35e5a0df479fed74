//! What a command tells at its end.

ghost use Rattle.std.specs.Prelude.{◌≡◌, ◌≤◌, OnOk};
ghost use Rattle.pl0_tool.specs.Reporting.{IsSum, status_of};

use std::alloc::AllocError;

/// How a command ends.
#[derive(Clone, Copy, Debug, PartialEq, Eq)]
pub enum Ending {
    Success,
    /// The program's run faulted.
    Fault,
    /// A text has a mistake.
    Mistake,
    /// A file can't be read, or memory ran out.
    Failure,
    /// The output failed.
    Unwritten,
    /// The arguments aren't understood.
    NotUnderstood,
    /// The program's run was stopped.
    Stopped,
}

impl Ending {
    /// Returns the exit status.
    pub fn status(self) -> u8
        ensures status { result ≡ status_of self }
        ensures few { result ≤ 5 }
    {
        match self {
            Ending::Success => 0,
            Ending::Fault => 1,
            Ending::Mistake => 2,
            Ending::Failure | Ending::Unwritten => 3,
            Ending::NotUnderstood => 4,
            Ending::Stopped => 5,
        }
    }
}

/// What is still to be written at the end of a command, and how it ends.
#[derive(Drop)]
pub struct Report {
    /// The bytes for the output.
    pub output: Vec<u8>,
    /// The bytes for standard error.
    pub errors: Vec<u8>,
    pub ending: Ending,
}

impl Report {
    /// A report of these bytes, and of a command that ends so.
    pub fn new(output: Vec<u8>, errors: Vec<u8>, ending: Ending) -> Report
        ensures output { result.output ≡ output }
        ensures errors { result.errors ≡ errors }
        ensures ending { result.ending ≡ ending }
    {
        Report {
            output,
            errors,
            ending,
        }
    }

    /// Puts what another command tells behind this. The ending is the one of the greater status.
    ///
    /// # Errors
    ///
    /// `AllocError`, where an allocation failed.
    pub fn add(&mut self, other: Report) -> Result<(), AllocError>
        ensures { OnOk result (IsSum self.old other self.new) }
    {
        self.output.extend_from_slice(other.output.as_slice())?;
        self.errors.extend_from_slice(other.errors.as_slice())?;
        if self.ending.status() < other.ending.status() {
            self.ending = other.ending;
        }
        Ok(())
    }
}
