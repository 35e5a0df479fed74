//! How a run goes on, and why it stops.

ghost use Rattle.std.specs.Prelude.{ℕ, ◌<◌, IfSome, IfNone};
ghost use Rattle.dbg_plan.specs.Running.{IsUndueAbove};

/// What makes a position due besides breakpoints. The number of `Over` and `Out` is how many frames were alive at the stop
/// that was resumed.
#[derive(Clone, Copy, PartialEq, Eq)]
pub enum Mode {
    /// Each position.
    Entry,
    /// No position.
    Continue,
    /// Each position.
    In,
    /// Each position where at most this many frames are alive.
    Over(usize),
    /// Each position where fewer than this many frames are alive.
    Out(usize),
    /// No position: the run goes back by one position.
    StepBack,
    /// No position: the run goes back to the last position before it where a breakpoint is due.
    Reverse,
}

impl Mode {
    /// Returns the least number of frames such that the mode alone makes no position due where more are alive; `None` if there
    /// is no such number.
    pub fn outer(self) -> Option<usize>
        ensures undue { IfSome result (IsUndueAbove self) }
        ensures least { IfSome result (λ outer. (fewer : ℕ) → fewer < outer → ¬ IsUndueAbove self fewer) }
        ensures none { IfNone result ((outer : ℕ) → ¬ IsUndueAbove self outer) }
    {
        match self {
            Mode::Continue | Mode::StepBack | Mode::Reverse => Some(0),
            Mode::Over(most) => Some(most),
            Mode::Out(fewer) => Some(fewer.saturating_sub(1)),
            Mode::Entry | Mode::In => None,
        }
    }
}

/// Why a position is due.
#[derive(Clone, Copy, Debug, PartialEq, Eq)]
pub enum Reason {
    /// A breakpoint stops the program there.
    Breakpoint,
    /// The mode is `Entry`; or it is `Reverse`, and the run came to position 0 without a breakpoint that is due.
    Entry,
    /// The mode is that of a step, forward or back.
    Step,
}
