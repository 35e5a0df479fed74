//! Worked rows: what an editor sends and must get, and how the session and the program end after it.

use crate::transcript::{answered_frames, sent_frames};
use dap_frame::FramingFault;
use dap_session::{Closed, SessionFault};

/// A session: what is sent and answered, and how it ends.
#[derive(Clone, Copy)]
pub struct Row {
    pub name: &'static str,
    pub transcript: &'static str,
    /// Bytes after the frames that are sent.
    pub tail: &'static str,
    /// How the session ends.
    pub end: Result<Closed, SessionFault>,
    /// The program's exit status, and its last line on standard error.
    pub status: u8,
    pub last_line: &'static str,
}

/// A first session, without a program.
pub const HELLO: &str = r#"
- initialize
> {"seq":2,"type":"request","command":"disconnect"}
< {"command":"disconnect","request_seq":2,"seq":2,"success":true,"type":"response"}
"#;

/// Its first request and answer.
pub const INITIALIZE: &str = "- initialize";

/// A launch.
pub const LAUNCH: &str = "- initialize\n- launch";

/// The same, and the program begins to run.
pub const STARTED: &str = "- initialize\n- launch\n- start";

const SKIPPED: &str = r#"
> {"seq":1}
> [
>
- initialize
> {"seq":2,"type":"request","command":"threads"}
< {"body":{"threads":[{"id":1,"name":"main"}]},"command":"threads","request_seq":2,"seq":2,"success":true,"type":"response"}
> {"seq":3,"type":"request","command":"disconnect"}
< {"command":"disconnect","request_seq":3,"seq":3,"success":true,"type":"response"}
"#;

const REFUSED: &str = r#"
> {"seq":1,"type":"request","command":"threads"}
< {"body":{},"command":"threads","message":"wrongPhase","request_seq":1,"seq":1,"success":false,"type":"response"}
> {"seq":2,"type":"request","command":"initialize","arguments":null}
< {"body":{},"command":"initialize","message":"badArguments","request_seq":2,"seq":2,"success":false,"type":"response"}
> {"seq":3,"type":"request","command":"initialize"}
< {"body":{"supportsConditionalBreakpoints":true,"supportsConfigurationDoneRequest":true,"supportsHitConditionalBreakpoints":true,"supportsLogPoints":true,"supportsStepBack":true},"command":"initialize","request_seq":3,"seq":3,"success":true,"type":"response"}
> {"seq":4,"type":"request","command":"completions"}
< {"body":{},"command":"completions","message":"unsupported","request_seq":4,"seq":4,"success":false,"type":"response"}
> {"seq":5,"type":"request","command":"continue"}
< {"body":{},"command":"continue","message":"badArguments","request_seq":5,"seq":5,"success":false,"type":"response"}
> {"seq":6,"type":"request","command":"launch","arguments":{"program":"p.pl0","noDebug":true}}
< {"body":{},"command":"launch","message":"badArguments","request_seq":6,"seq":6,"success":false,"type":"response"}
> {"seq":7,"type":"request","command":"initialize"}
< {"body":{},"command":"initialize","message":"wrongPhase","request_seq":7,"seq":7,"success":false,"type":"response"}
> {"seq":8,"type":"request","command":"disconnect","arguments":null}
< {"command":"disconnect","request_seq":8,"seq":8,"success":true,"type":"response"}
"#;

/// The names have 64 letters, 65, and none.
const NAMES: &str = r#"
> {"seq":1,"type":"request","command":"aaaaaaaaaaaaaaaaaaaaaaaaaaaaaaaaaaaaaaaaaaaaaaaaaaaaaaaaaaaaaaaa"}
< {"body":{},"command":"aaaaaaaaaaaaaaaaaaaaaaaaaaaaaaaaaaaaaaaaaaaaaaaaaaaaaaaaaaaaaaaa","message":"unsupported","request_seq":1,"seq":1,"success":false,"type":"response"}
> {"seq":2,"type":"request","command":"aaaaaaaaaaaaaaaaaaaaaaaaaaaaaaaaaaaaaaaaaaaaaaaaaaaaaaaaaaaaaaaaa"}
> {"seq":3,"type":"request","command":""}
"#;

const SEQS: &str = r#"
> {"seq":0,"type":"request","command":"initialize"}
> {"seq":1.0,"type":"request","command":"initialize"}
> {"seq":9007199254740992,"type":"request","command":"initialize"}
> {"seq":"1","type":"request","command":"initialize"}
> {"seq":9007199254740991,"type":"request","command":"initialize"}
< {"body":{"supportsConditionalBreakpoints":true,"supportsConfigurationDoneRequest":true,"supportsHitConditionalBreakpoints":true,"supportsLogPoints":true,"supportsStepBack":true},"command":"initialize","request_seq":9007199254740991,"seq":1,"success":true,"type":"response"}
"#;

const TWO_DISCONNECTS: &str = r#"
> {"seq":1,"type":"request","command":"disconnect"}
< {"command":"disconnect","request_seq":1,"seq":1,"success":true,"type":"response"}
> {"seq":2,"type":"request","command":"disconnect"}
"#;

const DISCONNECTED: Row = Row {
    name: "a first session",
    transcript: HELLO,
    tail: "",
    end: Ok(Closed::Disconnected),
    status: 0,
    last_line: "",
};

const INPUT_ENDED: Row = Row {
    name: "nothing is sent",
    transcript: "",
    tail: "",
    end: Ok(Closed::InputEnded),
    status: 0,
    last_line: "",
};

pub const ROWS: [Row; 9] = [
    DISCONNECTED,
    INPUT_ENDED,
    Row {
        name: "the last byte doesn't come",
        transcript: INITIALIZE,
        tail: "Content-Length: 49\r\n\r\n{\"seq\":2,\"type\":\"request\",\"command\":\"disconnect\"",
        ..INPUT_ENDED
    },
    Row {
        name: "contents that are no requests are skipped",
        transcript: SKIPPED,
        ..DISCONNECTED
    },
    Row {
        name: "requests are refused",
        transcript: REFUSED,
        ..DISCONNECTED
    },
    Row {
        name: "unknown commands",
        transcript: NAMES,
        ..INPUT_ENDED
    },
    Row {
        name: "seqs that are none",
        transcript: SEQS,
        ..INPUT_ENDED
    },
    Row {
        name: "one answer to two disconnects",
        transcript: TWO_DISCONNECTS,
        ..DISCONNECTED
    },
    Row {
        name: "line feeds alone end no line",
        tail: "Content-Length: 49\n\n{\"seq\":1,\"type\":\"request\",\"command\":\"initialize\"}",
        ..INPUT_ENDED
    },
];

/// Bytes that are at fault, wherever they stand, how, and the program's last line.
pub const FAULTS: [(&str, FramingFault, &str); 7] = [
    (
        "Content-Length: 49\n\n{\"seq\":1,\"type\":\"request\",\"command\":\"initialize\"}\r\n\r\n",
        FramingFault::BadField,
        "pl0dap: frame 2\n",
    ),
    ("A b: c\r\n", FramingFault::BadField, "pl0dap: frame 2\n"),
    (
        "Content-Length:49\r\n",
        FramingFault::BadField,
        "pl0dap: frame 2\n",
    ),
    (
        "content-length: 49\r\n\r\n",
        FramingFault::NoLength,
        "pl0dap: frame 3\n",
    ),
    (
        "Content-Length: 49\r\nContent-Length: 49\r\n",
        FramingFault::TwoLengths,
        "pl0dap: frame 4\n",
    ),
    (
        "Content-Length: 049\r\n",
        FramingFault::BadLength,
        "pl0dap: frame 5\n",
    ),
    (
        "Content-Length: 1048577\r\n",
        FramingFault::TooLarge,
        "pl0dap: frame 6\n",
    ),
];

/// The row of a fault that stands after a transcript.
pub const fn fault_row(
    transcript: &'static str,
    tail: &'static str,
    fault: FramingFault,
    last_line: &'static str,
) -> Row {
    Row {
        name: "a fault",
        transcript,
        tail,
        end: Err(SessionFault::Frame(fault)),
        status: 2,
        last_line,
    }
}

/// The frames of the first row, byte for byte: the other rows compare frames that the tests make.
#[test]
fn makes_the_frames_of_a_transcript(rt: HostRuntime) {
    let sent = sent_frames(&rt, rt.alloc(), HELLO);
    let expected =
        "Content-Length: 49\r\n\r\n{\"seq\":1,\"type\":\"request\",\"command\":\"initialize\"}Content-Length: 49\r\n\r\n{\"seq\":2,\"type\":\"request\",\"command\":\"disconnect\"}";
    assert_eq!(rt; sent.as_slice(), expected.as_bytes());
    let answered = answered_frames(&rt, rt.alloc(), HELLO);
    let expected =
        "Content-Length: 258\r\n\r\n{\"body\":{\"supportsConditionalBreakpoints\":true,\"supportsConfigurationDoneRequest\":true,\"supportsHitConditionalBreakpoints\":true,\"supportsLogPoints\":true,\"supportsStepBack\":true},\"command\":\"initialize\",\"request_seq\":1,\"seq\":1,\"success\":true,\"type\":\"response\"}Content-Length: 81\r\n\r\n{\"command\":\"disconnect\",\"request_seq\":2,\"seq\":2,\"success\":true,\"type\":\"response\"}";
    assert_eq!(rt; answered.as_slice(), expected.as_bytes());
}
