//! What a text shows to each stage that reads, compiles or runs it.

use crate::machines::{number, step_of};
use pl0_machine::{Machine, StepOutcome};
use pl0_syntax::{Place, Step, SyntaxFault, Tree, blocks, frame_name, parse, steps};
use pl0_unit::Instruction;
use sample_programs::compiled;
use std::alloc::Global;
use std::process::Abort;
use test_kit::machine_of;

/// What is shown of a text.
#[derive(Clone, Copy)]
pub enum View {
    /// Its first fault, or that it is lawful.
    Fault,
    /// The steps of its program, each with the name of its block.
    Steps,
    /// The code of its program. A number stands before the instruction that begins that step.
    Code,
    /// The run of its program: at each position the step and how many frames are alive, and what it writes.
    Run,
    /// How the run of its program ends: the position, the frames, the last number written, the place of the step that
    /// comes next and the first variable of the main block.
    End,
}

/// At most this many steps of a run are taken.
const STEPS: usize = 200_000;

/// What a text shows.
pub fn show(rt: &impl Abort, alloc: Global, view: View, text: &str) -> String {
    let mut out = String::new(alloc);
    match view {
        View::Fault => write_fault(rt, &mut out, parse(alloc, text.as_bytes()).err()),
        View::Steps => write_steps(rt, alloc, &mut out, text),
        View::Code => write_code(rt, alloc, &mut out, text),
        View::Run => write_run(rt, &mut out, &mut begun(rt, alloc, text)),
        View::End => write_end(rt, &mut out, &mut begun(rt, alloc, text)),
    }
    out
}

/// A machine at the beginning of a lawful text.
fn begun(rt: &impl Abort, alloc: Global, text: &str) -> Machine {
    machine_of(alloc, text).expect(rt, "a lawful text")
}

/// A fault as the tables have it.
pub fn write_fault(rt: &impl Abort, out: &mut String, fault: Option<SyntaxFault>) {
    match fault {
        None => out.push_str("lawful").expect(rt, "memory"),
        Some(SyntaxFault::InText { kind, place }) => {
            let Place { line, column } = place;
            write!(out, "{kind:?} {line}:{column}").expect(rt, "memory");
        }
        Some(SyntaxFault::NoMemory) => out.push_str("out of memory").expect(rt, "memory"),
    }
}

fn write_step(rt: &impl Abort, alloc: Global, out: &mut String, tree: &Tree, step: Step) {
    let table = blocks(alloc, tree).expect(rt, "memory");
    assert!(rt; (step.block as usize) < table.len());
    let block = frame_name(&tree.program, &table, step.block);
    let kind = step.kind;
    let Place { line, column } = step.place;
    write!(out, "{block} {kind:?} {line}:{column}, ").expect(rt, "memory");
}

fn write_steps(rt: &impl Abort, alloc: Global, out: &mut String, text: &str) {
    let unit = compiled(alloc, text).expect(rt, "a lawful text");
    let found = steps(alloc, &unit.tree).expect(rt, "memory");
    for step in found.iter() {
        write_step(rt, alloc, out, &unit.tree, *step);
    }
    let count = found.len();
    write!(out, "{count} steps").expect(rt, "memory");
}

fn write_instruction(
    rt: &impl Abort,
    out: &mut String,
    instruction: Instruction,
    begins: Option<usize>,
) {
    if let Some(step) = begins {
        write!(out, "{step} ").expect(rt, "memory");
    }
    write!(out, "{instruction:?}, ").expect(rt, "memory");
}

fn write_code(rt: &impl Abort, alloc: Global, out: &mut String, text: &str) {
    let unit = compiled(alloc, text).expect(rt, "a lawful text");
    for (instruction, begins) in unit.code.iter().zip(&unit.begun_steps) {
        write_instruction(rt, out, *instruction, *begins);
    }
    let count = unit.code.len();
    write!(out, "{count} instructions").expect(rt, "memory");
}

fn write_outcome(rt: &impl Abort, out: &mut String, outcome: StepOutcome) {
    match outcome {
        StepOutcome::Went(None) => {}
        StepOutcome::Went(Some(number)) => write!(out, "! {number} ").expect(rt, "memory"),
        StepOutcome::Done => write!(out, "Done").expect(rt, "memory"),
        StepOutcome::Fault(fault) => write!(out, "{fault:?}").expect(rt, "memory"),
    }
}

fn write_run(rt: &impl Abort, out: &mut String, machine: &mut Machine) {
    for _ in 0..STEPS {
        let depth = machine.depth();
        if depth == 0 {
            return;
        }
        let step = machine.next_step();
        write!(out, "{step}/{depth} ").expect(rt, "memory");
        let outcome = machine.step();
        write_outcome(rt, out, outcome);
        if let StepOutcome::Fault(_) = outcome {
            return;
        }
    }
}

/// Runs a machine to its end, at most for [`STEPS`] steps: what the last step did, and the last number that was written.
fn run_to_end(machine: &mut Machine) -> (StepOutcome, Option<i64>) {
    let mut last = StepOutcome::Went(None);
    let mut number = None;
    for _ in 0..STEPS {
        if machine.depth() == 0 {
            break;
        }
        last = machine.step();
        match last {
            StepOutcome::Went(Some(written)) => number = Some(written),
            StepOutcome::Fault(_) => break,
            _ => {}
        }
    }
    (last, number)
}

/// The place of the step that comes next.
fn next_place(machine: &Machine) -> Option<Place> {
    if machine.depth() == 0 {
        return None;
    }
    Some(step_of(machine, machine.next_step())?.place)
}

fn write_end(rt: &impl Abort, out: &mut String, machine: &mut Machine) {
    let (last, written) = run_to_end(machine);
    let position = machine.position();
    let depth = machine.depth();
    let first = number(machine, 0, 0);
    write!(out, "{last:?} at {position}, {depth} frames, ").expect(rt, "memory");
    if let Some(Place { line, column }) = next_place(machine) {
        write!(out, "{line}:{column}, ").expect(rt, "memory");
    }
    write!(out, "{written:?}, {first:?}").expect(rt, "memory");
}
