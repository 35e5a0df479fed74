//! Breakpoints.

ghost use Rattle.std.specs.Prelude.{◌≡◌, Some};
ghost use Rattle.debuggee.specs.Due.{accepts};

/// Which arrivals at a breakpoint it accepts. The first has the number 1.
#[derive(Clone, Copy)]
pub enum Rule {
    /// The one with this number, and those after it.
    From(u64),
    /// The one with this number.
    Exactly(u64),
    /// Each whose number this one divides; none for 0.
    Every(u64),
}

/// A part of a message.
#[derive(Drop)]
pub enum Part {
    Text(String),
    /// It is replaced by its value, or by why it has none.
    Expression(String),
}

/// A breakpoint. The program arrives there when it comes to its place and its condition holds, or has no value.
#[derive(Drop)]
pub struct Breakpoint {
    /// The place.
    pub place: usize,
    /// The condition, if it has one.
    pub condition: Option<String>,
    /// Which arrivals it accepts; `None` where it accepts each.
    pub rule: Option<Rule>,
    /// How many arrivals there were. No more are counted than a `u64` can hold.
    pub arrivals: u64,
    /// What it says at each arrival that it accepts. A breakpoint with a message doesn't stop the program.
    pub message: Option<Vec<Part>>,
}

impl Rule {
    /// Whether the arrival with this number is accepted.
    pub(crate) fn accepts(self, number: u64) -> bool
        ensures { result ≡ accepts (Some self) number }
    {
        match self {
            Rule::From(least) => least <= number,
            Rule::Exactly(only) => only == number,
            Rule::Every(divisor) => divisor != 0 && number % divisor == 0,
        }
    }
}
