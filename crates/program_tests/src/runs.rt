//! Runs of programs on the machine: their steps, how they end, and their frames.

use crate::machines::number;
use crate::shown::View;
use crate::table::{assert_rows, assert_shown};
use pl0_machine::{FrameView, Machine, StepOutcome};
use sample_programs::RECURSIVE;
use std::process::Abort;
use test_kit::machine_of;

const OF_RECURSIVE: &str = "9/1 10/1 2/2 3/2 4/2 5/2 2/3 3/3 4/3 6/3 \
    0/4 1/4 7/3 ! 1 8/3 6/2 0/3 1/3 7/2 ! 2 8/2 11/1 Done";

/// Faults, and runs of the greatest programs: of 65,536 bytes, of 1,024 names, of 64 levels, of 1,024 frames.
const ENDS: &str = "
a sum too large | var x; begin x := 9223372036854775807; x := x + 1 end. | Fault(Overflow) at 1, 1 frames, 1:40, None, Some(9223372036854775807)
the least number | var x; begin x := - 9223372036854775807 - 1; ! x; x := x / (-1) end. | Fault(Overflow) at 2, 1 frames, 1:51, Some(-9223372036854775808), Some(-9223372036854775808)
no end of calls | procedure p; call p; call p. | Fault(Depth) at 1023, 1024 frames, 1:14, None, None
1,025 frames | var n; procedure p; begin n := n + 1; if n < 1024 then call p end; call p. | Fault(Depth) at 3069, 1024 frames, 1:56, None, Some(1023)
1,024 frames | var n; procedure p; begin n := n + 1; if n < 1023 then call p end; call p. | Done at 4093, 0 frames, None, None
65,536 bytes | begin {16381 ! 1;}end.{2  } | Done at 16382, 0 frames, Some(1), None
1,024 variables | var v0{1023 ~,v%}; begin v1023 := 5; ! v1023 + v0 end. | Done at 3, 0 frames, Some(5), None
1,024 procedures | {1024 procedure p%; ;~}call p1024. | Done at 3, 0 frames, None, None
64 levels of procedures | var x; {64 procedure p; }! x; {63 call p; }call p. | Done at 130, 0 frames, Some(0), None
64 levels of ( | ! {64 (}1{64 )}. | Done at 2, 0 frames, Some(1), None
1,024 frames of 1,024 variables | procedure p; var v0{1023 ,v%}; call p; call p. | Fault(Depth) at 1023, 1024 frames, 1:5053, None, None";

#[test]
fn run_of_nested_procedures(rt: HostRuntime) {
    assert_shown(&rt, rt.alloc(), View::Run, RECURSIVE, OF_RECURSIVE);
}

#[test]
fn ends_of_runs(rt: HostRuntime) {
    assert_rows(&rt, rt.alloc(), View::End, ENDS);
}

/// Each frame's block, the step that it is in, the frame that it is linked to, and its first variable. The last
/// one was called by frame 2, which frame 1 called; both frames of p are linked to the main block's.
type Row = (u32, usize, Option<usize>, Option<i64>);

const FRAMES: [Row; 4] = [
    (2, 10, None, Some(0)),
    (1, 5, Some(0), Some(2)),
    (1, 6, Some(0), Some(1)),
    (0, 0, Some(2), None),
];

fn assert_frame(rt: &impl Abort, machine: &Machine, frame: usize, row: &Row) {
    assert!(rt; frame < machine.depth());
    let FrameView { block, next_step } = machine.frame(frame);
    let parent = machine.static_parent(frame);
    let found = (block, next_step, parent, number(machine, frame, 0));
    assert_eq!(rt; found, *row, "frame {frame}");
}

fn assert_frames(rt: &impl Abort, machine: &Machine) {
    assert_eq!(rt; machine.depth(), FRAMES.len());
    for (frame, row) in FRAMES.as_slice().iter().enumerate() {
        assert_frame(rt, machine, frame, row);
    }
}

#[test]
fn links_follow_the_text_and_not_the_calls(rt: HostRuntime) {
    let mut machine = machine_of(rt.alloc(), RECURSIVE).expect(&rt, "a lawful text");
    for _ in 0..10u32 {
        assert!(rt; 0 < machine.depth());
        assert_eq!(rt; machine.step(), StepOutcome::Went(None));
    }
    assert_frames(&rt, &machine);
}
