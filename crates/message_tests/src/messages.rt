//! Tests of the largest answer, written as a content.

use crate::text::repeated;
use dap_msg::{
    Body, CommandName, Items, Outgoing, QuestionKind, Shown, StackFrame, Supported, Text, write,
};
use std::alloc::Global;
use std::process::Abort;

/// A text of a message.
fn text(rt: &impl Abort, alloc: Global, text: &str) -> Text {
    Text::new(String::from_str(alloc, text).expect(rt, "memory"))
}

/// An answer with `count` frames of the main block.
fn answer(rt: &impl Abort, alloc: Global, count: usize) -> Outgoing {
    let mut frames = Vec::new(alloc);
    for _ in 0..count {
        frames
            .push(StackFrame {
                id: 1,
                name: text(rt, alloc, "main"),
                line: 1,
                column: 40,
            })
            .expect(rt, "memory");
    }
    Outgoing::Answer {
        request_seq: 4,
        command: CommandName::Supported(Supported::Inspect(QuestionKind::StackTrace)),
        result: Ok(Body::Shown(Shown::StackTrace {
            path: text(rt, alloc, "p.pl0"),
            frames: Items::new(frames),
            total: 1024,
        })),
    }
}

/// One frame, and 1,024 of them, are written after the bytes that were there before: an answer as large isn't refused as
/// out of memory.
#[test]
fn writes_frames(rt: HostRuntime) {
    let alloc = rt.alloc();
    let frame = r#"{"column":40,"id":1,"line":1,"name":"main","source":{"path":"p.pl0"}}"#;
    let next = format!(in alloc; ",{frame}").expect(&rt, "memory");
    let first = format!(in alloc; "> {{\"body\":{{\"stackFrames\":[{frame}").expect(&rt, "memory");
    let last =
        r#"],"totalFrames":1024},"command":"stackTrace","request_seq":4,"seq":6,"success":true,"type":"response"}"#;
    for count in [1, 1024] {
        let mut out = b"> ".to_vec(alloc).expect(&rt, "memory");
        write(&answer(&rt, alloc, count), 6, &mut out).expect(&rt, "memory");
        let others = count.saturating_sub(1);
        let expected = repeated(&rt, alloc, first.as_str(), next.as_str(), others, last);
        assert_eq!(rt; std::str::from_utf8(out.as_slice()), Ok(expected.as_str()));
    }
}
