//! The messages of log points.

ghost use Rattle.std.specs.Prelude.{◌≤◌, length, string_bytes};
ghost use Rattle.dbg_plan.specs.Messages.{expressions, expression_limit, ReadsAsParts, plain_parts};

use pl0_machine::LocatedExpression;
use pl0_tree::Expression;

/// The most expressions that a message may have.
pub const EXPRESSION_LIMIT: usize = 8;

/// An expression, and what its names mean at a breakpoint's step.
#[derive(Drop)]
pub struct BoundExpression {
    pub expression: Expression,
    pub located: LocatedExpression,
}

/// A part of a message.
#[derive(Drop)]
pub enum Part {
    /// Text that stands for itself.
    Text(String),
    /// An expression, which is replaced by its value.
    Value(BoundExpression),
}

/// A message: its text, and the parts that the text reads as.
#[derive(Drop)]
pub struct LogMessage {
    pub text: String,
    pub parts: Vec<Part>,
    // The parts are what the text reads as.
    pub ghost reads: { ∥ ReadsAsParts (string_bytes text) (plain_parts parts.items) ∥₁ },
    pub ghost few: { length (expressions (plain_parts parts.items)) ≤ expression_limit },
}
