//! The answer to a question, by its kind.

ghost use Rattle.std.specs.Prelude.{IfOk, IsOk};
ghost use Rattle.pl0_machine.specs.Machine.{frames};
ghost use Rattle.dbg_plan.specs.Debugged.{machine_of, IsConsidered};
ghost use Rattle.dap_history.specs.Inspection.{RepliesFrom};
ghost use Rattle.dap_inspection.specs.Questions.{subject_of, NamesNothingLive};

use crate::evaluate::evaluate;
use crate::scopes::scopes;
use crate::stack_trace::stack_trace;
use crate::variables::variables;
use dap_msg::{InitializeArguments, Question, Refusal, Shown, Text};
use dbg_plan::Debuggee;
use std::alloc::{AllocError, Global};

/// Answers a question about a debuggee, whose program is at `path`, to a client with these settings.
///
/// # Errors
///
/// An allocation failed.
pub fn ask(
    alloc: Global,
    debuggee: &Debuggee,
    path: &Text,
    settings: InitializeArguments,
    question: &Question,
) -> Result<Result<Shown, Refusal>, AllocError>
    requires { IsConsidered debuggee.now }
    ensures replies { IfOk result (λ r. RepliesFrom
        (subject_of debuggee.now path.now settings) (frames (machine_of debuggee.now)) question.now r) }
    // The refusal of a thread, a frame or a reference that there isn't takes no memory.
    ensures enough { NamesNothingLive (frames (machine_of debuggee.now)) question.now → IsOk result }
{
    match question {
        Question::StackTrace(asked) => stack_trace(alloc, debuggee, path, settings, *asked),
        Question::Scopes(asked) => scopes(alloc, debuggee, *asked),
        Question::Variables(asked) => variables(alloc, debuggee, *asked),
        Question::Evaluate(asked) => evaluate(alloc, debuggee, asked),
    }
}
