//! How a run goes on.

ghost use Rattle.std.specs.Prelude.{◌≡◌};
ghost use Rattle.debuggee.specs.Due.{asks};

/// What makes a state due besides breakpoints. The number of `Over` and `Out` is how many frames were alive at the stop
/// that was resumed.
#[derive(Clone, Copy)]
pub enum Mode {
    /// No state.
    Continue,
    /// Each state that has a place.
    In,
    /// Each state where at most this many frames are alive.
    Over(usize),
    /// Each state where fewer than this many frames are alive.
    Out(usize),
}

impl Mode {
    /// Whether a state is asked for where so many frames are alive.
    pub(crate) fn asks(self, depth: usize) -> bool
        ensures { result ≡ asks self depth }
    {
        match self {
            Mode::Continue => false,
            Mode::In => true,
            Mode::Over(most) => depth <= most,
            Mode::Out(fewer) => depth < fewer,
        }
    }
}
