//! Goes back to earlier positions of a run.

ghost use Rattle.std.specs.Prelude.{◌≡◌};
ghost use Rattle.dbg_plan.specs.Trail.{floor_of, TrailsAreShort, TrailsAscend};
ghost use Rattle.dbg_plan.specs.Retreat.{LastDueIsLast};
ghost use Rattle.dbg_plan.specs.Kept.{AreOf, trail_of};

use crate::breakpoint::BREAKPOINT_LIMIT;
use crate::debuggee::Debuggee;
use crate::trail::Trail;
use pl0_machine::Machine;
use pl0_meaning::{configuration_laws, meaning_laws};
use std::alloc::{AllocError, Global};

/// The laws of trails, and of where going back leads. It does nothing: its contract is the laws.
pub fn going_back_laws()
    ensures short { TrailsAreShort }
    ensures ascend { TrailsAscend }
    ensures last_due { LastDueIsLast }
{}

impl Debuggee {
    ghost use Rattle.std.specs.Prelude.{◌≡◌, ◌≤◌, true, IfErr, MatchResult};
    ghost use Rattle.dbg_plan.specs.Trail.{asks, kept_at, floor_of};
    ghost use Rattle.dbg_plan.specs.Debugged.{machine_of, IsRunning};

    /// Keeps a checkpoint of where the machine stands, if the trail asks for one there.
    ///
    /// # Errors
    ///
    /// Out of memory; all is as before. It never fails if no checkpoint is asked for.
    pub fn keep(&mut self, alloc: Global) -> Result<(), AllocError>
        ensures kept { MatchResult result
            (λ _. self.new ≡ record self.old { trail = kept_at self.old.trail self.old.position })
            (λ _. self.new ≡ self.old) }
        ensures asked { IfErr result (λ _. asks self.old.trail self.old.position ≡ true) }
    {
        self.trail.keep(alloc, &self.machine)
    }

    /// Goes back to the last checkpoint at or before the position `to`, or to position 0, and returns the position there.
    /// It is the next to be considered, and the plan counts from it. It allocates nothing, and keeps all checkpoints.
    pub fn back(&mut self, to: u64) -> u64
        requires { to ≤ self.old.position }
        ensures floor { result ≡ floor_of self.old.trail.kept to }
        ensures back { self.new ≡ record self.old { position = result; counted_from = result; next = result } }
        ensures running { IsRunning (machine_of self.old) → IsRunning (machine_of self.new) }
    {
        meaning_laws();
        configuration_laws();
        let position = bring_back(&mut self.machine, &self.trail, to);
        self.counts = [0; BREAKPOINT_LIMIT];
        self.counted_from = position;
        self.considered = false;
        position
    }

    /// Sets all counts to 0: the plan counts from the next position to be considered.
    pub fn recount(&mut self)
        ensures { self.new ≡ record self.old { counted_from = self.old.next } }
    {
        let counted_from = self.next();
        self.counts = [0; BREAKPOINT_LIMIT];
        self.counted_from = counted_from;
    }
}

/// Brings a machine back to the last checkpoint at or before the position `to`, or to position 0, and returns its position.
fn bring_back(machine: &mut Machine, trail: &Trail, to: u64) -> u64
    requires { AreOf machine.old.unit trail.now.checkpoints }
    ensures floor { result ≡ floor_of (trail_of trail.now).kept to }
    ensures machine { machine.new ≡ record machine.old { position = result } }
{
    match trail.floor(to) {
        Some(checkpoint) => {
            machine.restore(checkpoint);
            checkpoint.position()
        }
        None => {
            machine.reset();
            0
        }
    }
}
