//! The code of programs.

use crate::shown::View;
use crate::table::{assert_rows, assert_shown};
use sample_programs::RECURSIVE;

/// The jumps past the inner blocks, q, the assignments of p, its other statements, and the main block.
const OF_RECURSIVE: &str = "Jump(25), Jump(9), Jump(3), \
    Enter(3), 0 Load { level: 1, address: 3 }, Load { level: 2, address: 3 }, Operate(Add), Store { level: 1, address: 3 }, 1 Operate(Return), \
    Enter(4), 2 Load { level: 1, address: 3 }, Store { level: 0, address: 3 }, 3 Load { level: 1, address: 3 }, Literal(1), Operate(Subtract), Store { level: 1, address: 3 }, \
    4 Load { level: 1, address: 3 }, Literal(0), Operate(Greater), JumpIfZero(21), \
    5 Call { level: 1, address: 1 }, 6 Call { level: 0, address: 2 }, 7 Load { level: 0, address: 3 }, Operate(Write), 8 Operate(Return), \
    Enter(4), 9 Literal(2), Store { level: 0, address: 3 }, 10 Call { level: 0, address: 1 }, 11 Operate(Return), 30 instructions";

const CODE: &str = "
a write and a variable | var x;~~begin x := 1;~! x end. | Jump(1), Enter(4), 0 Literal(1), Store { level: 0, address: 3 }, 1 Load { level: 0, address: 3 }, Operate(Write), 2 Operate(Return), 7 instructions";

#[test]
fn code_of_nested_procedures(rt: HostRuntime) {
    assert_shown(&rt, rt.alloc(), View::Code, RECURSIVE, OF_RECURSIVE);
}

#[test]
fn code_of_texts(rt: HostRuntime) {
    assert_rows(&rt, rt.alloc(), View::Code, CODE);
}
