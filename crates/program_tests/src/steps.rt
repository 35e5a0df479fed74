//! The steps of a program, and the blocks that they stand in.

use crate::shown::View;
use crate::table::assert_shown;
use sample_programs::RECURSIVE;

const OF_RECURSIVE: &str =
    "q Assign 5:1, q Return 5:11, p Assign 7:1, p Assign 8:1, p If 9:1, p Call 9:15, p Call 10:1, p Write 11:1, \
    p Return 12:4, main Assign 13:7, main Call 13:15, main Return 13:25, 12 steps";

#[test]
fn steps_of_nested_procedures(rt: HostRuntime) {
    assert_shown(&rt, rt.alloc(), View::Steps, RECURSIVE, OF_RECURSIVE);
}
