//! The answer to `variables`.

ghost use Rattle.std.specs.Prelude.{◌≡◌, ◌<◌, None, IfOk, IsOk, length, map};
ghost use Rattle.pl0_tree.specs.Plain.{plain_name};
ghost use Rattle.pl0_machine.specs.Machine.{program, frames, frame_of, depth_of, variables_of};
ghost use Rattle.dbg_plan.specs.Debugged.{machine_of, debugged_program, IsConsidered};
ghost use Rattle.dap_history.specs.Frames.{frame_by_id, named};
ghost use Rattle.dap_history.specs.Inspection.{Subject, RepliesFrom};
ghost use Rattle.dap_msg.specs.declared.question.Question.TheVariants as question;
ghost use Rattle.dap_inspection.specs.Variables.{names_in, numbers_of};

use crate::alive::frame_with_id;
use dap_msg::{Items, Refusal, Shown, Text, Variable, VariablesArguments};
use dbg_plan::Debuggee;
use pl0_machine::Machine;
use pl0_syntax::{Name, block};
use pl0_unit::Unit;
use std::alloc::{AllocError, Global};

/// Answers `variables`: a frame's variables, in the order of declaration.
///
/// # Errors
///
/// An allocation failed.
pub(crate) fn variables(
    alloc: Global,
    debuggee: &Debuggee,
    asked: VariablesArguments,
) -> Result<Result<Shown, Refusal>, AllocError>
    requires { IsConsidered debuggee.now }
    ensures replies { (of : Subject) → of.program ≡ debugged_program debuggee.now →
        IfOk result (λ r. RepliesFrom of (frames (machine_of debuggee.now)) (question.Variables asked) r) }
    ensures enough { frame_by_id (frames (machine_of debuggee.now)) asked.variables_reference ≡ None → IsOk result }
{
    let machine = debuggee.machine();
    let Some(frame) = frame_with_id(machine, asked.variables_reference) else {
        return Ok(Err(Refusal::UnknownReference));
    };
    let names = declared_names(machine, frame);
    let list = valued(alloc, machine, frame, names)?;
    Ok(Ok(Shown::Variables(Items::new(list))))
}

/// Returns the names of a frame's variables, in the order of declaration.
fn declared_names(machine: &Machine, frame: usize) -> &[Name]
    requires { frame < depth_of machine.now }
    ensures names { map plain_name result.now ≡ names_in (program machine.now) (frame_of machine.now frame) }
    ensures count { length result.now ≡ variables_of (frame_of machine.now frame) }
{
    let depth = machine.depth();
    prove!(frame < depth);
    let unit: &Unit = machine.unit();
    let number = machine.frame(frame).block;
    let declaring = block(&unit.tree.program, &unit.nestings, number);
    &declaring.variables
}

/// Returns a frame's variables, which have these names.
fn valued(
    alloc: Global,
    machine: &Machine,
    frame: usize,
    names: &[Name],
) -> Result<Vec<Variable>, AllocError>
    requires { length names.now ≡ variables_of (frame_of machine.now frame) }
    ensures { IfOk result (λ list. list.items
        ≡ named (map plain_name names.now) (numbers_of (frame_of machine.now frame))) }
{
    let mut list = Vec::with_capacity(alloc, names.len())?;
    for (index, name) in names.iter().enumerate() {
        let name = Text::copied(alloc, name.text.as_str())?;
        let value = machine.value(frame, index);
        list.push(Variable { name, value })?;
    }
    Ok(list)
}
