//! The breakpoints of a plan.

ghost use Rattle.std.specs.Prelude.{string_bytes};
ghost use Rattle.pl0_tree.specs.Plain.{plain_condition};
ghost use Rattle.dbg_plan.specs.ReadsAs.{ReadsAs};

use crate::message::LogMessage;
use pl0_machine::{Comparison, LocatedCondition};
use pl0_tree::{Condition, StepNumber};
use std::sync::Arc;

/// The most breakpoints that a plan may have.
pub const BREAKPOINT_LIMIT: usize = 256;

/// Which arrivals at a breakpoint are due. Arrivals count from 1.
#[derive(Clone, Copy)]
pub enum Rule {
    /// The arrival with this number, and each later one.
    From(u32),
    /// Each arrival whose number is a multiple of this.
    Every(u32),
}

/// A condition with its text, and what its names mean at the breakpoint's step.
#[derive(Drop)]
pub struct BoundCondition {
    pub text: String,
    pub condition: Condition,
    pub located: Arc<LocatedCondition>,
    /// The condition as a comparison, if it is one, which the machine asks faster.
    pub asked: Option<Comparison>,
    // The condition is what the text reads as.
    pub ghost reads: { ∥ ReadsAs (string_bytes text) (plain_condition condition) ∥₁ },
}

/// A breakpoint: its number in its plan, from 0, its step, and what an arrival has to meet. A breakpoint with a message
/// logs it, and doesn't stop the program.
#[derive(Drop)]
pub struct Breakpoint {
    pub number: usize,
    pub step: StepNumber,
    pub condition: Option<BoundCondition>,
    pub rule: Option<Rule>,
    pub message: Option<LogMessage>,
}
