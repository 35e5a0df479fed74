//! The names of a program's blocks.

ghost use Rattle.std.specs.Prelude.{◌≡◌, ◌<◌, length, slice_get, Some};
ghost use Rattle.pl0_tree.specs.Scope.{Path};
ghost use Rattle.pl0_tree.specs.Blocks.{frame_name};
ghost use Rattle.pl0_tree.specs.Steps.{blocks};
ghost use Rattle.pl0_machine.specs.Machine.{program_of};

use pl0_unit::Unit;

/// Returns the name of the frames of the block with this number: the procedure's, or `main` for the main block's.
pub fn frame_name(unit: &Unit, number: u32) -> &str
    requires { number < length unit.now.nestings.items }
    ensures { (q : Path) → slice_get (blocks (program_of unit.now)) number ≡ Some q
        → result.now ≡ frame_name (program_of unit.now) q }
{
    pl0_syntax::frame_name(&unit.tree.program, &unit.nestings, number)
}
