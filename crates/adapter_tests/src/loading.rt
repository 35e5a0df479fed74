//! The beginning of a file, read from a source that is interrupted at each second read.

use crate::fakes::{Input, Progress, Streams};
use adapter::{ReadFault, read_beginning};

/// How many bytes of a program's file are read.
const LIMIT: usize = 65_537;

/// The lengths of files, and how many bytes of them are given.
const LENGTHS: [(usize, usize); 5] = [
    (0, 0),
    (1, 1),
    (65_536, 65_536),
    (65_537, 65_537),
    (65_538, 65_537),
];

#[test]
fn gives_the_first_bytes(rt: HostRuntime) {
    let alloc = rt.alloc();
    let text = "x".repeat(alloc, 65_538).expect(&rt, "memory");
    let progress = Progress::new();
    for (length, given) in LENGTHS.as_slice() {
        for read_step in [1000, usize::MAX] {
            let bytes = text.as_bytes().get(..*length).unwrap_or_default();
            let streams = Streams {
                read_step,
                ..Streams::WELL
            };
            let mut source = Input::new(&rt, bytes, streams, &progress);
            let read = read_beginning(&rt, alloc, &mut source, LIMIT).expect(&rt, "memory");
            let other = read.iter().position(|byte| *byte != b'x');
            assert_eq!(rt;
                (read.len(), other),
                (*given, None),
                "{length} by {read_step}"
            );
        }
    }
}

/// A read fails at each of some bytes: nothing is given, and that is no end of the file.
#[test]
fn gives_nothing_where_a_read_fails(rt: HostRuntime) {
    let alloc = rt.alloc();
    let progress = Progress::new();
    for read_fails_at in 0..7usize {
        let streams = Streams {
            read_step: 2,
            read_fails_at,
            ..Streams::WELL
        };
        let mut source = Input::new(&rt, b"var x; .", streams, &progress);
        match read_beginning(&rt, alloc, &mut source, LIMIT) {
            Err(ReadFault::CannotRead) => {}
            other => panic!(rt; "{other:?}, and not CannotRead, at {read_fails_at}"),
        }
    }
}
