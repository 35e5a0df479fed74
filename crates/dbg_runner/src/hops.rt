//! Takes the steps that a run which goes back runs again.

ghost use Rattle.std.specs.Prelude.{◌≡◌, ◌+◌, ◌-◌, ◌≤◌, is_some, min};
ghost use Rattle.dbg_plan.specs.Debugged.{debugged_program, IsConsidered, due_now};
ghost use Rattle.dbg_plan.specs.declared.mode.Mode.TheVariants.{Continue};
ghost use Rattle.dbg_runner.specs.Lawful.{RunsAt};
ghost use Rattle.dbg_runner.specs.Rooms.{IsRoomOf};
ghost use Rattle.dbg_runner.specs.Hops.{last_due_up_to, standing, gone_back};

use crate::outputs::Outputs;
use dbg_plan::{Debuggee, Mode};

/// Goes back to the position `to`, or to one before it, and considers where the debuggee stands then. Returns whether a
/// breakpoint is due there, with counts from there.
pub fn go_back(debuggee: &mut Debuggee, outputs: &mut Outputs, to: u64) -> bool
    requires within { to ≤ debuggee.old.position }
    requires considered { IsConsidered debuggee.old }
    requires room { IsRoomOf outputs.old debuggee.old }
    ensures gone { debuggee.new ≡ gone_back debuggee.old to }
    ensures considered { IsConsidered debuggee.new }
    ensures due { result ≡ is_some (due_now debuggee.new Continue) }
    ensures room { outputs.new ≡ outputs.old }
{
    debuggee.back(to);
    let due = outputs.consider(debuggee, Mode::Continue);
    outputs.clear();
    due.is_some()
}

/// Goes on to the position `limit`. Returns the last due position there or before; `found` is the last one before the call.
pub fn search(debuggee: &mut Debuggee, limit: u64, found: Option<u64>) -> Option<u64>
    requires considered { IsConsidered debuggee.old }
    requires within { debuggee.old.position ≤ limit }
    requires runs { RunsAt (debugged_program debuggee.old) limit }
    requires counted { debuggee.old.counted_from ≡ 0 }
    requires found { found ≡ last_due_up_to debuggee.old debuggee.old.position }
    ensures went { debuggee.new ≡ standing debuggee.old limit }
    ensures considered { IsConsidered debuggee.new }
    ensures found { result ≡ last_due_up_to debuggee.new limit }
{
    debuggee.search(limit, found)
}

/// Goes on towards the position `to` by at most `most` steps. Returns the number of steps.
pub fn go_on(debuggee: &mut Debuggee, to: u64, most: u64) -> u64
    requires considered { IsConsidered debuggee.old }
    requires within { debuggee.old.position ≤ to }
    requires runs { RunsAt (debugged_program debuggee.old) to }
    ensures steps { result ≡ min most (to - debuggee.old.position) }
    ensures went { debuggee.new ≡ standing debuggee.old (debuggee.old.position + result) }
    ensures considered { IsConsidered debuggee.new }
{
    let here = debuggee.machine().position();
    let steps = most.min(to - here);
    let _ = debuggee.search(here + steps, None);
    steps
}
