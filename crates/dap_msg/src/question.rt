//! The questions about the program where it stands: `stackTrace`, `scopes`, `variables` and `evaluate`.

ghost use Rattle.std.specs.Prelude.{◌≡◌, IfOk};
ghost use Rattle.serde_json.specs.View.{view};
ghost use Rattle.dap_msg.specs.Questions.{question_text, question_kind, kind_of, question_of};

use crate::items::Items;
use crate::outgoing::{Scope, StackFrame, Variable};
use crate::requests::evaluate::{self, EvaluateArguments};
use crate::requests::scopes::{self, ScopesArguments};
use crate::requests::stack_trace::{self, StackTraceArguments};
use crate::requests::variables::{self, VariablesArguments};
use crate::text::Text;
use serde_json::Value;
use std::alloc::{AllocError, Global};

/// The kind of a question.
#[derive(Clone, Copy, Debug)]
pub enum QuestionKind {
    /// Asks for the frames on the stack.
    StackTrace,
    /// Asks for the scopes of a frame.
    Scopes,
    /// Asks for the variables of a scope.
    Variables,
    /// Asks for the value of an expression.
    Evaluate,
}

impl QuestionKind {
    /// Every kind.
    const ALL: [QuestionKind; 4] = [
        QuestionKind::StackTrace,
        QuestionKind::Scopes,
        QuestionKind::Variables,
        QuestionKind::Evaluate,
    ];

    /// Returns the kind of the question of this name; `None` where there is none.
    pub(crate) fn from_name(name: &str) -> Option<QuestionKind>
        ensures { result ≡ question_kind name.now }
    {
        QuestionKind::ALL
            .iter()
            .copied()
            .find(|kind| kind.name() == name)
    }

    /// The command's name as it stands in a message.
    pub(crate) fn name(self) -> &'static str
        ensures { result.now ≡ question_text self }
    {
        match self {
            QuestionKind::StackTrace => "stackTrace",
            QuestionKind::Scopes => "scopes",
            QuestionKind::Variables => "variables",
            QuestionKind::Evaluate => "evaluate",
        }
    }
}

/// A question with its arguments.
#[derive(Debug, Drop)]
pub enum Question {
    /// Asks for the frames on the stack.
    StackTrace(StackTraceArguments),
    /// Asks for the scopes of a frame.
    Scopes(ScopesArguments),
    /// Asks for the variables of a scope.
    Variables(VariablesArguments),
    /// Asks for the value of an expression.
    Evaluate(EvaluateArguments),
}

impl Question {
    /// Its kind.
    pub(crate) fn kind(&self) -> QuestionKind
        ensures { result ≡ kind_of self.now }
    {
        match self {
            Question::StackTrace(_) => QuestionKind::StackTrace,
            Question::Scopes(_) => QuestionKind::Scopes,
            Question::Variables(_) => QuestionKind::Variables,
            Question::Evaluate(_) => QuestionKind::Evaluate,
        }
    }
}

/// Returns the question of this kind with the arguments that an object gives; `None` where they don't fit.
pub(crate) fn read_question(
    alloc: Global,
    kind: QuestionKind,
    object: &Value,
) -> Result<Option<Question>, AllocError>
    ensures { IfOk result (λ question. question ≡ question_of kind (view object.now)) }
{
    match kind {
        QuestionKind::StackTrace => Ok(stack_trace::arguments(object).map(Question::StackTrace)),
        QuestionKind::Scopes => Ok(scopes::arguments(object).map(Question::Scopes)),
        QuestionKind::Variables => Ok(variables::arguments(object).map(Question::Variables)),
        QuestionKind::Evaluate => Ok(evaluate::arguments(alloc, object)?.map(Question::Evaluate)),
    }
}

/// What a question shows: the body of the answer to it.
#[derive(Drop)]
pub enum Shown {
    /// Frames, the top one first: the answer to `stackTrace`.
    StackTrace {
        /// The path of each frame's source.
        path: Text,
        /// The frames asked for.
        frames: Items<StackFrame>,
        /// How many frames there are in all.
        total: u64,
    },
    /// The scopes of a frame, the innermost first: the answer to `scopes`.
    Scopes(Items<Scope>),
    /// The variables of a frame in the order of declaration: the answer to `variables`.
    Variables(Items<Variable>),
    /// A value: the answer to `evaluate`.
    Value(i64),
}
