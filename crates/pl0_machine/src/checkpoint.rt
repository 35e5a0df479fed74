//! Keeps where a machine stood, and brings a machine back there.

ghost use Rattle.std.specs.Prelude.{◌≡◌, IfOk};

use crate::machine::Machine;
use crate::state::State;
use pl0_unit::Unit;
use std::alloc::{AllocError, Global};
use std::marker::Model;
use std::sync::Arc;

/// Where a machine stood, to which a machine of the same program can be brought back. It keeps the part of the stack that
/// was in use.
#[derive(Drop)]
pub struct Checkpoint {
    unit: Arc<Unit>,
    state: State,
}

impl Model for Checkpoint {
    ghost use Rattle.pl0_machine.specs.Machine.{Standing};
    ghost use Rattle.pl0_unit.specs.contracts.unit.Unit as compiled;
    ghost use Rattle.std.specs.Coded.{codes};

    ghost Value = { Standing };

    ghost coded = { Prim.hlevel (codes, compiled.the_row.coded) };

    ghost use Rattle.pl0_machine.specs.Invariant.{standing_in};
    ghost use Rattle.pl0_machine.specs.Kept.{Keeps};

    ghost view = { λ c. standing_in c.unit.value c.state };

    ghost invariant = { Keeps };
}

impl Checkpoint {
    ghost use Rattle.std.specs.Prelude.{◌≡◌, ◌≤◌, IfOk};
    ghost use Rattle.pl0_meaning.specs.Runs.{last_position};

    /// Keeps where a machine stands.
    ///
    /// # Errors
    ///
    /// Out of memory.
    pub fn take(alloc: Global, machine: &Machine) -> Result<Checkpoint, AllocError>
        ensures { IfOk result (λ c. c ≡ machine.now) }
    {
        let state = machine.state.in_use(alloc)?;
        let unit = machine.unit.clone()?;
        Ok(Checkpoint { unit, state })
    }

    /// Returns the position at which it was taken.
    pub fn position(&self) -> u64
        ensures position { result ≡ self.now.position }
        ensures bounded { result ≤ last_position }
    {
        self.state.position
    }
}

impl Machine {
    ghost use Rattle.std.specs.Prelude.{◌≡◌};

    /// Brings the machine to where it stood when the checkpoint was taken. It allocates nothing.
    pub fn restore(&mut self, checkpoint: &Checkpoint)
        requires { checkpoint.now.unit ≡ self.old.unit }
        ensures { self.new ≡ checkpoint.now }
    {
        self.state.resume(&checkpoint.state);
    }
}
