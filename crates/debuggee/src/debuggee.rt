//! What a language gives.

use std::alloc::{AllocError, Global};

/// Why a step can't be taken.
#[derive(Drop)]
pub struct Fault {
    /// What all faults of its kind are called, as `DivisionByZero`.
    pub name: String,
    /// What the user is told.
    pub text: String,
}

/// What a step does.
#[derive(Drop)]
pub enum Step {
    Goes,
    Prints(String),
    /// It ends the program, with this status.
    Ends(u64),
    /// It can't be taken, and why.
    Fails(Fault),
}

/// What an expression evaluates to.
#[derive(Drop)]
pub enum Evaluated {
    /// A value's text, and whether a condition with this value holds.
    Value(String, bool),
    /// Nothing, and why.
    NoValue(String),
}

/// A program, and the state in which it is.
pub trait Debuggee {
    ghost use Rattle.std.specs.Prelude.{◌≡◌, IfOk};
    ghost use Rattle.debuggee.specs.Plain.{PlainStep, plain_step, plain_evaluated};
    ghost use Rattle.debuggee.specs.Due.{Sight, holds_or_fails};

    /// What the language means: the steps that the program may take, from which state to which. There is no default, since
    /// a run is promised by these steps alone.
    ghost takes: { Self → PlainStep → Self → Type 0 };

    /// What a debugger sees of a state.
    ghost sees: { Sight Self };

    /// Takes a step. It must not block: a request waits for it.
    ///
    /// # Errors
    ///
    /// An allocation failed.
    fn step(&mut self, alloc: Global) -> Result<Step, AllocError>
        ensures { IfOk result (λ step. takes self.old (plain_step step) self.new) };

    /// Returns the place where the program is; `None` where it isn't to stop.
    fn place(&self) -> Option<usize>
        ensures { result ≡ sees.place_of self.now };

    /// Returns how many frames are alive.
    fn depth(&self) -> usize
        ensures { result ≡ sees.depth_of self.now };

    /// Evaluates an expression in a frame, of which the newest is 0. Messages are evaluated in frame 0, also where no frame
    /// is alive.
    ///
    /// # Errors
    ///
    /// An allocation failed.
    fn evaluate(
        &self,
        alloc: Global,
        frame: usize,
        expression: &str,
    ) -> Result<Evaluated, AllocError>
        ensures { IfOk result (λ evaluated. plain_evaluated evaluated ≡ sees.value_of self.now frame expression.now) };

    /// Whether a condition holds in the newest frame, or has no value there. By default it is evaluated; a language that need
    /// not make a text of its value looks at the value here.
    ///
    /// # Errors
    ///
    /// An allocation failed.
    fn holds(&self, alloc: Global, condition: &str) -> Result<bool, AllocError>
        ensures { IfOk result (λ holds. holds ≡ holds_or_fails (sees.value_of self.now 0 condition.now)) }
    {
        match self.evaluate(alloc, 0, condition)? {
            Evaluated::Value(_, holds) => Ok(holds),
            Evaluated::NoValue(_) => Ok(true),
        }
    }
}
