//! Live frames by their ids.

ghost use Rattle.pl0_machine.specs.Machine.{frames};
ghost use Rattle.dap_inspection.specs.Alive.{NamesFrame};

use pl0_machine::Machine;

/// Returns the number of the frame with an id, where 0 is the main block's; `None` where no frame that is alive has it.
pub(crate) fn frame_with_id(machine: &Machine, id: u64) -> Option<usize>
    ensures { NamesFrame (frames machine.now) id result }
{
    let depth = machine.depth() as u64;
    if id == 0 || id > depth {
        return None;
    }
    Some((id - 1) as usize)
}
