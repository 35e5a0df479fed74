//! Compiling a program text.

ghost use Rattle.std.specs.Prelude.{◌≡◌, IfOk, IfErr};
ghost use Rattle.pl0_tree.specs.Faults.{IsFirstFault, FaultIs};

use pl0_code::compile;
use pl0_syntax::{SyntaxFault, parse};
use pl0_unit::Unit;
use std::alloc::Global;
use std::sync::Arc;

/// Returns the program of a text, with its code.
///
/// # Errors
///
/// The first fault of the text, or `NoMemory`.
pub fn compiled(alloc: Global, text: &str) -> Result<Arc<Unit>, SyntaxFault>
    ensures kept { IfOk result (λ unit. unit.value.tree.text.items ≡ text.now) }
    ensures fault { IfErr result (FaultIs (IsFirstFault text.now)) }
{
    let tree = parse(alloc, text.as_bytes())?;
    let Ok(unit) = compile(alloc, tree) else {
        return Err(SyntaxFault::NoMemory);
    };
    let Ok(unit) = Arc::new(alloc, unit) else {
        return Err(SyntaxFault::NoMemory);
    };
    Ok(unit)
}
