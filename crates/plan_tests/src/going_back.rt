//! Going back to checkpoints, and to the beginning.

ghost use Rattle.std.specs.Prelude.{◌≡◌};

use dbg_plan::{Debuggee, Logs, Mode};
use pl0_machine::StepOutcome;
use sample_programs::{LONG_LOOP, RECURSIVE};
use std::alloc::Global;
use std::process::Abort;
use test_kit::debuggee_of;

/// At each of these positions a checkpoint is kept, if one is asked for.
const APART: u64 = 256;

/// Takes steps to a position, or to the end, and returns how many.
fn steps_to(rt: &impl Abort, alloc: Global, debuggee: &mut Debuggee, position: u64) -> u64
    requires { debuggee.old.next ≡ debuggee.old.position }
    ensures { debuggee.new.next ≡ debuggee.new.position }
{
    let from = debuggee.machine().position();
    let mut logs = Logs::new(alloc).expect(rt, "memory");
    for _ in 0..u64::MAX {
        let here = debuggee.machine().position();
        if here == position || debuggee.machine().depth() == 0 {
            break;
        }
        if here % APART == 0 {
            debuggee.keep(alloc).expect(rt, "memory");
        }
        let _ = debuggee.consider(Mode::Continue, &mut logs);
        match debuggee.step() {
            StepOutcome::Went(_) => {}
            StepOutcome::Done => {}
            StepOutcome::Fault(fault) => panic!(rt; "{fault:?} at {here}"),
        }
    }
    debuggee.machine().position().saturating_sub(from)
}

/// Goes back from a position that a run reached.
fn back(rt: &impl Abort, debuggee: &mut Debuggee, to: u64) -> u64
    ensures { debuggee.new.next ≡ debuggee.new.position }
{
    assert!(rt; to <= debuggee.machine().position());
    let position = debuggee.back(to);
    assert_eq!(rt; position, debuggee.machine().position());
    assert_eq!(rt; position, debuggee.counted_from());
    position
}

/// Positions to go back to, and the checkpoint that leads there.
const CHECKPOINTS: [(u64, u64); 6] = [
    (282_623, 274_432),
    (266_240, 266_240),
    (266_239, 258_048),
    (102_399, 94_208),
    (12_287, 4_096),
    (4_095, 0),
];

/// At position 266,240 there were 64 checkpoints, 4,096 positions apart, and every other one was given up. The later ones
/// are 8,192 apart. Going back gives up none.
#[test]
fn few_steps_are_run_again(rt: HostRuntime) {
    let mut debuggee = debuggee_of(rt.alloc(), LONG_LOOP).expect(&rt, "a lawful text");
    assert_eq!(rt; steps_to(&rt, rt.alloc(), &mut debuggee, 284_000), 284_000);
    assert_eq!(rt; back(&rt, &mut debuggee, 283_999), 282_624);
    assert_eq!(rt; steps_to(&rt, rt.alloc(), &mut debuggee, 283_999), 1_375);
    for (to, checkpoint) in CHECKPOINTS.as_slice() {
        assert_eq!(rt; back(&rt, &mut debuggee, *to), *checkpoint, "back to {to}");
    }
}

/// Takes steps to each of these positions, and asserts how many numbers were written up to there.
fn assert_written(rt: &impl Abort, alloc: Global, debuggee: &mut Debuggee, counts: &[(u64, u64)])
    requires { debuggee.old.next ≡ debuggee.old.position }
    ensures { debuggee.new.next ≡ debuggee.new.position }
{
    for (position, count) in counts {
        let _ = steps_to(rt, alloc, debuggee, *position);
        assert_eq!(rt; debuggee.machine().written(), *count, "at {position}");
    }
}

/// Positions of the nested procedures, and how many numbers were written up to there.
const WRITTEN: [(u64, u64); 6] = [(10, 0), (12, 0), (13, 1), (15, 1), (18, 2), (20, 2)];

#[test]
fn what_was_written_is_counted(rt: HostRuntime) {
    let alloc = rt.alloc();
    let mut debuggee = debuggee_of(alloc, RECURSIVE).expect(&rt, "a lawful text");
    assert_written(&rt, alloc, &mut debuggee, WRITTEN.as_slice());
    assert_eq!(rt; debuggee.machine().depth(), 0);
    assert_eq!(rt; back(&rt, &mut debuggee, 20), 0);
    assert_eq!(rt; debuggee.machine().written(), 0);
    assert_eq!(rt; steps_to(&rt, alloc, &mut debuggee, 15), 15);
    assert_eq!(rt; debuggee.machine().depth(), 3);
}
