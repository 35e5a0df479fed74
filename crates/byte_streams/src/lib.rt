//! Bytes in and bytes out: where they come from, where they go, how to read the first of them, and how to write all; and
//! the arguments of a process, as texts.
//!
//! ```
//! use byte_streams::{IoFault, Reading, Sink, Source, WriteFailed, Writing, write_all};
//! use std::process::ExitCode;
//! use std::sync::Wait;
//!
//! fn main(rt: HostRuntime) -> ExitCode {
//!     let mut input = Reading::new(&rt, rt.stdin());
//!     let mut output = Writing::new(&rt, rt.stdout());
//!     ExitCode::from(if copies(&rt, &mut input, &mut output) { 0 } else { 1 })
//! }
//!
//! /// Writes all that is read, up to the end of the input. Returns whether no read or write failed.
//! fn copies<I: Source, O: Sink>(rt: &impl Wait, input: &mut I, output: &mut O) -> bool {
//!     let mut room = [0; 4096];
//!     for _ in rt.forever() {
//!         let count = match input.read(&mut room) {
//!             Ok(0) => return true,
//!             Ok(count) => count,
//!             Err(IoFault::Interrupted) => continue,
//!             Err(_) => return false,
//!         };
//!         match write_all(rt, output, room.split_at(count).0) {
//!             Ok(()) => {}
//!             Err(WriteFailed) => return false,
//!         }
//!     }
//!     unreachable!()
//! }
//! ```
//!
//! The one contract is that no loss goes unnoticed: a [`Source`] knows all bytes that its reads gave, a [`Sink`] all that
//! its writes took, in order, and each read or write that fails is counted. [`Reading`] and [`Writing`] are a source and a
//! sink over std's `Read` and `Write`; where those tell their bytes, as streams in memory do, these are the same.
//! [`write_all`] and [`say`] write all bytes, or a prefix of them where the sink fails. [`read_beginning`] reads as much of
//! a source as a limit says, and [`read_all`] all of it. [`read_file`] opens a file by its name, reads as much of it, and
//! closes it: with any [`Opener`], of which [`SystemFiles`] is the system's.
//! [`collect_arguments`] returns what `env::args` gave as a list, and [`borrow_texts`] the same as borrowed texts.
#![tactic(auto)]

mod arguments;
mod beginning;
mod byte_log;
mod counting;
mod files;
mod streams;
mod whole;
mod writing;

pub use arguments::{borrow_texts, collect_arguments};
pub use beginning::{ReadFault, read_beginning};
pub use byte_log::ByteLog;
pub use files::{FileFault, FileKinds, Opener, SystemFiles, read_file, read_text};
pub use streams::{GuardedSource, IoFault, Reading, Sink, Source, Writing};
pub use whole::read_all;
pub use writing::{WriteFailed, say, write_all};
