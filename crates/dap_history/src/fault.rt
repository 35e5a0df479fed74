//! The faults of a session, and of a file that it loads.

use dap_frame::FramingFault;

/// Why a session gave up.
#[derive(Clone, Copy, Debug, PartialEq, Eq)]
pub enum SessionFault {
    /// The input holds no frame where one should stand.
    Frame(FramingFault),
    /// An allocation failed, in the session, the reader, the loader or the runner.
    NoMemory,
    /// The next message would have a seq greater than 2^53 - 1.
    SeqExhausted,
    /// The port for orders was full.
    OrdersFull,
    /// Nobody takes orders any more.
    RunnerGone,
    /// Nobody takes frames any more.
    WriterGone,
}

/// Why a file wasn't loaded.
#[derive(Clone, Copy, Debug)]
pub enum LoadFault {
    /// The file can't be read.
    CannotRead,
    /// An allocation failed.
    NoMemory,
}
