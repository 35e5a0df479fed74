//! Examples of instructions.

ghost use Rattle.pl0_unit.specs.WorkedInstructions.{OperationsAreWritten, OthersAreWritten};

/// How instructions are written, computed. It does nothing: its contract is the examples.
pub fn worked_instructions()
    ensures operations { OperationsAreWritten }
    ensures others { OthersAreWritten }
{}
