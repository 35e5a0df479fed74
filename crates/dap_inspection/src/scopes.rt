//! The answer to `scopes`.

ghost use Rattle.std.specs.Prelude.{◌≡◌, ◌-◌, ◌<◌, ◌≤◌, None, IfOk, IsOk};
ghost use Rattle.pl0_machine.specs.Machine.{program, frames, frame_of, depth_of};
ghost use Rattle.dbg_plan.specs.Debugged.{machine_of, debugged_program, IsConsidered};
ghost use Rattle.dap_history.specs.Frames.{frame_by_id, scopes_from};
ghost use Rattle.dap_history.specs.Inspection.{Subject, RepliesFrom};
ghost use Rattle.dap_msg.specs.declared.question.Question.TheVariants as question;
ghost use Rattle.dap_inspection.specs.Showing.{IsScopeOf};

use crate::alive::frame_with_id;
use crate::frame_name::frame_name;
use dap_msg::{Items, Refusal, Scope, ScopesArguments, Shown};
use dbg_plan::Debuggee;
use pl0_machine::Machine;
use std::alloc::{AllocError, Global};

/// Answers `scopes`: the scopes of a frame, the innermost first.
///
/// # Errors
///
/// An allocation failed.
pub(crate) fn scopes(
    alloc: Global,
    debuggee: &Debuggee,
    asked: ScopesArguments,
) -> Result<Result<Shown, Refusal>, AllocError>
    requires { IsConsidered debuggee.now }
    ensures replies { (of : Subject) → of.program ≡ debugged_program debuggee.now →
        IfOk result (λ r. RepliesFrom of (frames (machine_of debuggee.now)) (question.Scopes asked) r) }
    ensures enough { frame_by_id (frames (machine_of debuggee.now)) asked.frame_id ≡ None → IsOk result }
{
    let machine = debuggee.machine();
    let Some(frame) = frame_with_id(machine, asked.frame_id) else {
        return Ok(Err(Refusal::UnknownFrame));
    };
    let scopes = scope_chain(alloc, machine, frame)?;
    Ok(Ok(Shown::Scopes(Items::new(scopes))))
}

/// Returns the scopes of a frame, given by its number from 0, the innermost first.
fn scope_chain(alloc: Global, machine: &Machine, frame: usize) -> Result<Vec<Scope>, AllocError>
    requires { frame < depth_of machine.now }
    ensures { IfOk result (λ scopes. scopes.items ≡ scopes_from (program machine.now) (frames machine.now) frame) }
{
    let depth = machine.depth();
    prove!(frame < depth);
    let mut scopes = Vec::new(alloc);
    let mut next = Some(frame);
    while let Some(frame) = next {
        scopes.push(scope(alloc, machine, frame + 1)?)?;
        next = machine.static_parent(frame);
    }
    Ok(scopes)
}

/// Returns the scope of the frame with this id.
fn scope(alloc: Global, machine: &Machine, id: usize) -> Result<Scope, AllocError>
    requires positive { 0 < id }
    requires alive { id ≤ depth_of machine.now }
    ensures { IfOk result (λ scope. IsScopeOf (program machine.now) (frame_of machine.now (id - 1)) id scope) }
{
    let view = machine.frame(id - 1);
    let name = frame_name(alloc, machine.unit(), view.block)?;
    Ok(Scope {
        name,
        reference: id as u64,
    })
}
