//! Where the code of a block ends.

use pl0_unit::{Instruction, Operation, Unit};

/// Returns the address behind the code of the block that begins at an address.
pub(crate) fn behind_block(unit: &Unit, begins: usize) -> usize {
    let code: &[Instruction] = &unit.code;
    let start = jump_target(code, begins);
    behind_return(code, start)
}

/// Returns where the jump at an address leads.
fn jump_target(code: &[Instruction], address: usize) -> usize {
    match code.get(address) {
        Some(Instruction::Jump(target)) => *target,
        _ => address,
    }
}

/// Returns the address behind the first return that stands at an address or behind it.
fn behind_return(code: &[Instruction], from: usize) -> usize {
    for address in from..code.len() {
        if is_return(code[address]) {
            return address + 1;
        }
    }
    code.len()
}

/// Whether an instruction is a return.
fn is_return(instruction: Instruction) -> bool {
    matches!(instruction, Instruction::Operate(Operation::Return))
}
