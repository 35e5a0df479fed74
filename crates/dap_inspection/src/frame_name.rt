//! The name of a frame.

ghost use Rattle.std.specs.Prelude.{◌≡◌, IfOk, IsSome, Some, slice_get};
ghost use Rattle.pl0_tree.specs.Scope.{Path};
ghost use Rattle.pl0_tree.specs.Blocks.{frame_name};
ghost use Rattle.pl0_tree.specs.Steps.{blocks};
ghost use Rattle.pl0_machine.specs.Machine.{program_of};

use dap_msg::Text;
use pl0_unit::Unit;
use std::alloc::{AllocError, Global};

/// Returns the name of a block's frames: the procedure's name, or `main` for the main block.
///
/// # Errors
///
/// An allocation failed.
pub(crate) fn frame_name(alloc: Global, unit: &Unit, block: u32) -> Result<Text, AllocError>
    requires { IsSome (slice_get (blocks (program_of unit.now)) block) }
    ensures { IfOk result (λ name. (q : Path) → slice_get (blocks (program_of unit.now)) block ≡ Some q →
        name ≡ frame_name (program_of unit.now) q) }
{
    let name = pl0_syntax::frame_name(&unit.tree.program, &unit.nestings, block);
    Text::copied(alloc, name)
}
