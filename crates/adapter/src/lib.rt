//! The adapter that the program `pl0dap` is: a debug adapter for PL/0 over an input and an output.
//!
//! The one contract is that of [`run_process`], which is all that a `main` calls: what the arguments ask for was done
//! over the input, the output and the errors that were lent, the exit code says how that ended, and standard error has
//! it as its last line. [`run`] returns the reason in place of the code, and [`execute`] does it with any loader. The
//! contract cites three others: [`parse_arguments`](arguments::parse_arguments) says what the arguments ask for;
//! [`serve`] says that reader, runner, session and writer, each in a thread, did together what `specs/Serving` defines;
//! and [`check`] says that the listing of a file's text was written, which `specs/Listing` defines. The hard lemmas are
//! in `proofs/Gathered`: they put together what the ends of the queues say when all threads were joined.
#![tactic(auto)]

pub mod arguments;
mod checking;
mod exit_reason;
mod files;
mod gates;
mod laws;
mod listener;
mod listing;
mod program;
mod reporting;
mod rights;
mod serving;
mod tasks;
mod thread_tasks;

pub use byte_streams::{
    ByteLog, FileFault, FileKinds, IoFault, Opener, ReadFault, Reading, Sink, Source, SystemFiles,
    Writing, read_beginning,
};
pub use checking::{CheckFault, check};
pub use dap_session::Dialect;
pub use dap_wires::{Reads, Writes};
pub use exit_reason::{ExitReason, end_of_check, end_of_serve};
pub use files::FileLoader;
pub use laws::{serving_laws, waiting_laws, worked_exits};
pub use listener::{EndListener, NoListener};
pub use program::{execute, run, run_process};
pub use reporting::say_reason;
pub use rights::{Drives, Works};
pub use serving::{ServeFault, Served, serve};
