//! The program of a text, or its first mistake.

ghost use Rattle.std.specs.Prelude.{IfOk, IfErr};
ghost use Rattle.pl0_tree.specs.Faults.{IsFirstFault, FaultIs};
ghost use Rattle.pl0_tool.specs.Loading.{IsProgramOf};

use pl0_code::{CodeFault, compile};
use pl0_syntax::parse;
use pl0_tree::SyntaxFault;
use pl0_unit::Unit;
use std::alloc::Global;

/// Returns the compiled program of a text.
///
/// # Errors
///
/// The first fault of the text, or `NoMemory`.
pub fn load(alloc: Global, text: &[u8]) -> Result<Unit, SyntaxFault>
    ensures program { IfOk result (IsProgramOf text.now) }
    ensures fault { IfErr result (FaultIs (IsFirstFault text.now)) }
{
    let tree = parse(alloc, text)?;
    match compile(alloc, tree) {
        Ok(unit) => Ok(unit),
        Err(CodeFault::NoMemory) => Err(SyntaxFault::NoMemory),
    }
}
