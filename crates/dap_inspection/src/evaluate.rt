//! The answer to `evaluate`.

ghost use Rattle.std.specs.Prelude.{◌≡◌, ◌<◌, None, IfOk, IsOk};
ghost use Rattle.pl0_machine.specs.Machine.{program, frames, frame_of, depth_of};
ghost use Rattle.dbg_plan.specs.Debugged.{machine_of, debugged_program, IsConsidered};
ghost use Rattle.dap_history.specs.Frames.{frame_by_id};
ghost use Rattle.dap_history.specs.Inspection.{Subject, RepliesFrom, result_answer};
ghost use Rattle.dap_msg.specs.declared.question.Question.TheVariants as question;
ghost use Rattle.dap_inspection.specs.Evaluate.{IsReadIn};

use crate::alive::frame_with_id;
use dap_msg::{EvaluateArguments, Refusal, Shown};
use dbg_plan::{Debuggee, EvalFault};
use pl0_machine::Machine;
use pl0_meaning::configuration_laws;
use pl0_syntax::{Expression, Names, SyntaxFault, editor_laws, numbering_laws, parse_expression};
use pl0_unit::Unit;
use std::alloc::{AllocError, Global};

/// Answers `evaluate`: the value of an expression in a frame's scope.
///
/// # Errors
///
/// An allocation failed.
pub(crate) fn evaluate(
    alloc: Global,
    debuggee: &Debuggee,
    asked: &EvaluateArguments,
) -> Result<Result<Shown, Refusal>, AllocError>
    requires { IsConsidered debuggee.now }
    ensures replies { (of : Subject) → of.program ≡ debugged_program debuggee.now →
        IfOk result (λ r. RepliesFrom of (frames (machine_of debuggee.now)) (question.Evaluate asked.now) r) }
    ensures enough { frame_by_id (frames (machine_of debuggee.now)) asked.now.frame_id ≡ None → IsOk result }
{
    let machine = debuggee.machine();
    let Some(frame) = frame_with_id(machine, asked.frame_id) else {
        return Ok(Err(Refusal::UnknownFrame));
    };
    let read = read_in(alloc, machine, frame, asked.expression.as_str())?;
    let Some(expression) = read else {
        return Ok(Err(Refusal::BadExpression));
    };
    Ok(answer_of(debuggee.evaluate(frame, &expression)))
}

/// Reads a text as an expression in the scope of a frame; `None` where it isn't one there.
fn read_in(
    alloc: Global,
    machine: &Machine,
    frame: usize,
    text: &str,
) -> Result<Option<Expression>, AllocError>
    requires { frame < depth_of machine.now }
    ensures { IfOk result (IsReadIn (program machine.now) (frame_of machine.now frame) text.now) }
{
    editor_laws();
    numbering_laws();
    configuration_laws();
    let unit: &Unit = machine.unit();
    let step = machine.frame(frame).next_step;
    let names = Names::new(&unit.tree.program, &unit.nestings);
    match parse_expression(alloc, text.as_bytes(), &names, &unit.steps, step) {
        Ok(expression) => Ok(Some(expression)),
        Err(SyntaxFault::NoMemory) => Err(AllocError),
        Err(SyntaxFault::InText { .. }) => Ok(None),
    }
}

/// Returns the answer with the result of an evaluation.
fn answer_of(evaluated: Result<i64, EvalFault>) -> Result<Shown, Refusal>
    ensures { result ≡ result_answer evaluated }
{
    match evaluated {
        Ok(value) => Ok(Shown::Value(value)),
        Err(EvalFault::Overflow) => Err(Refusal::Overflow),
        Err(EvalFault::DivideByZero) => Err(Refusal::DivideByZero),
    }
}
