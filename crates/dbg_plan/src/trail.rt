//! Keeps the checkpoints of a run.

ghost use Rattle.std.specs.Prelude.{◌≡◌, ◌*◌, ◌<◌, ◌≤◌, ◌^◌, length, nat_le, option_map, reverse, vec_len, vec_capacity};
ghost use Rattle.std.specs.List.{find};
ghost use Rattle.dbg_plan.specs.Trail.{trail_limit, at_odd_places, with_room, AreAbove};
ghost use Rattle.pl0_unit.specs.declared.unit.Unit.{Unit as Compiled};
ghost use Rattle.dbg_plan.specs.Kept.{positions, trail_at, AreOf};

use pl0_machine::{Checkpoint, Machine};
use std::alloc::{AllocError, Global};
use std::marker::Model;

/// The most checkpoints that are kept.
const TRAIL_LIMIT: usize = 64;

/// How many positions the first checkpoints are apart at least.
const FIRST_SPACING: u64 = 4096;

/// Checkpoints of a program, by ascending positions, and how many positions the next ones are to be apart at least.
#[derive(Drop)]
pub struct Trail {
    checkpoints: Vec<Checkpoint>,
    spacing: u64,
}

impl Model for Trail {
    ghost use Rattle.pl0_unit.specs.contracts.unit.Unit as compiled;
    ghost use Rattle.std.specs.Coded.{codes};
    ghost use Rattle.dbg_plan.specs.Kept.{Kept};

    ghost Value = { Kept };

    ghost coded = { Prim.hlevel (codes, compiled.the_row.coded) };

    ghost use Rattle.dbg_plan.specs.KeptFields.{kept_of, IsTrail};

    ghost view = { kept_of };

    ghost invariant = { IsTrail };
}

impl Trail {
    ghost use Rattle.std.specs.Prelude.{◌≡◌, ◌≤◌, true, [], IfErr, IfSome, MatchOption, MatchResult};
    ghost use Rattle.pl0_unit.specs.declared.unit.Unit.{Unit as Compiled};
    ghost use Rattle.pl0_meaning.specs.Runs.{last_position};
    ghost use Rattle.dbg_plan.specs.Trail.{new_trail, greatest, asks, kept_at, floor_of};
    ghost use Rattle.dbg_plan.specs.Kept.{AreOf, trail_of};

    /// Returns a trail without checkpoints. It allocates nothing.
    pub fn new(alloc: Global) -> Trail
        ensures trail { trail_of result ≡ new_trail }
        ensures none { result.checkpoints ≡ [] }
    {
        Trail {
            checkpoints: Vec::new(alloc),
            spacing: FIRST_SPACING,
        }
    }

    /// Returns the position of the last checkpoint, or 0 if there is none.
    fn last(&self) -> u64
        ensures greatest { result ≡ greatest (trail_of self.now).kept }
        ensures bounded { result ≤ last_position }
    {
        match self.checkpoints.last() {
            Some(checkpoint) => checkpoint.position(),
            None => 0,
        }
    }

    /// Whether a checkpoint is asked for at a position: the last one is far enough before it.
    fn asks(&self, position: u64) -> bool
        ensures { result ≡ asks (trail_of self.now) position }
    {
        self.last() + self.spacing <= position
    }

    /// Keeps a checkpoint of where the machine stands, if one is asked for there.
    ///
    /// # Errors
    ///
    /// Out of memory; all is as before.
    pub fn keep(&mut self, alloc: Global, machine: &Machine) -> Result<(), AllocError>
        requires { AreOf machine.now.unit self.old.checkpoints }
        ensures kept { MatchResult result (λ _. trail_of self.new ≡ kept_at (trail_of self.old) machine.now.position)
            (λ _. self.new ≡ self.old) }
        ensures units { AreOf machine.now.unit self.new.checkpoints }
        ensures asked { IfErr result (λ _. asks (trail_of self.old) machine.now.position ≡ true) }
    {
        let position = machine.position();
        if !self.asks(position) {
            return Ok(());
        }
        // Taken first, so that no checkpoint is removed if an allocation fails.
        self.checkpoints.reserve(1)?;
        let checkpoint = Checkpoint::take(alloc, machine)?;
        self.spacing = make_room(&mut self.checkpoints, self.spacing);
        if self.asks(position) {
            self.checkpoints.push_reserved(checkpoint);
        }
        Ok(())
    }

    /// Returns the last checkpoint at or before a position.
    pub fn floor(&self, position: u64) -> Option<&Checkpoint>
        ensures floor { MatchOption result (floor_of (trail_of self.now).kept position ≡ 0)
            (λ c. c.now.position ≡ floor_of (trail_of self.now).kept position) }
        ensures unit { (unit : Compiled) → AreOf unit self.now.checkpoints → IfSome result (λ c. c.now.unit ≡ unit) }
    {
        last_until(&self.checkpoints, position)
    }
}

/// Thins the checkpoints if as many are kept as may be. Returns how far apart the next ones are to be at least.
fn make_room(checkpoints: &mut Vec<Checkpoint>, spacing: u64) -> u64
    requires few { length checkpoints.old.items ≤ trail_limit }
    requires small { spacing < 2 ^ 63 }
    ensures trail { trail_at checkpoints.new.items result ≡ with_room (trail_at checkpoints.old.items spacing) }
    ensures spacing { (spacing ≤ result) × (result ≤ 2 * spacing) }
    ensures units { (unit : Compiled) → AreOf unit checkpoints.old.items → AreOf unit checkpoints.new.items }
    ensures ascending { AreAbove 0 (positions checkpoints.old.items) → AreAbove 0 (positions checkpoints.new.items) }
    ensures room { length checkpoints.new.items < trail_limit }
    ensures fewer { vec_len checkpoints.new ≤ vec_len checkpoints.old }
    ensures capacity { vec_capacity checkpoints.new ≡ vec_capacity checkpoints.old }
{
    if checkpoints.len() < TRAIL_LIMIT {
        return spacing;
    }
    thin(checkpoints);
    spacing * 2
}

/// Removes the checkpoints at even places, counted from 1.
fn thin(checkpoints: &mut Vec<Checkpoint>)
    ensures thinned { checkpoints.new.items ≡ at_odd_places checkpoints.old.items }
    ensures capacity { vec_capacity checkpoints.new ≡ vec_capacity checkpoints.old }
{
    for place in 0..checkpoints.len() / 2 {
        let _given_up = checkpoints.remove(place + 1);
    }
}

/// Returns the last checkpoint at or before a position.
fn last_until(checkpoints: &[Checkpoint], position: u64) -> Option<&Checkpoint>
    ensures { option_map (λ c. c.now) result ≡ find (λ c. nat_le c.position position) (reverse checkpoints.now) }
{
    checkpoints
        .iter()
        .rev()
        .find(|checkpoint| checkpoint.position() <= position)
}
