//! What a machine shows of its program and its frames.

use pl0_machine::Machine;
use pl0_names::block;
use pl0_syntax::Step;
use pl0_unit::Unit;

/// A step of the machine's program.
pub fn step_of(machine: &Machine, step: usize) -> Option<Step> {
    machine.unit().steps.get(step).copied()
}

/// The number of a variable, where the frame is alive and has such a variable.
pub fn number(machine: &Machine, frame: usize, variable: usize) -> Option<i64> {
    let depth = machine.depth();
    if depth <= frame {
        return None;
    }
    let unit: &Unit = machine.unit();
    let view = machine.frame(frame);
    let block = block(&unit.tree.program, &unit.nestings, view.block);
    if variable < block.variables.len() {
        Some(machine.value(frame, variable))
    } else {
        None
    }
}
