//! Tests of contents read as requests.

use crate::text::repeated;
use dap_msg::{Dialect, Request, read};
use std::alloc::Global;
use std::process::Abort;

/// What a request for `initialize` without arguments, whose `seq` is 1, is read as.
const INITIALIZE_1: &str =
    "Some(Request { seq: 1, body: Initialize(InitializeArguments { lines_start_at_1: true, columns_start_at_1: true }) })";

/// Contents, and what they are read as: white space, keys that are repeated, and what is no request.
const CONTENTS: [(&[u8], &str); 6] = [
    (
        b" {\r\n\t\"command\" : \"threads\", \"type\":\"request\", \"seq\":3 }\n",
        "Some(Request { seq: 3, body: Threads })",
    ),
    (
        br#"{"seq":5,"type":"request","command":"threads","seq":6,"seq":1,"command":"initialize"}"#,
        INITIALIZE_1,
    ),
    (br#"{"seq":1}"#, "None"),
    (b"[", "None"),
    (b"", "None"),
    (
        b"{\"seq\":1,\"type\":\"request\",\"command\":\"threads\",\"x\":\"\xff\"}",
        "None",
    ),
];

/// The number of a request for `threads`, and what it is read as where clients count from 1 and where they count from 0.
const SEQS: [(&str, &str, &str); 4] = [
    ("0", "None", "Some(Request { seq: 0, body: Threads })"),
    ("1.0", "None", "None"),
    ("9007199254740992", "None", "None"),
    (
        "9007199254740991",
        "Some(Request { seq: 9007199254740991, body: Threads })",
        "Some(Request { seq: 9007199254740991, body: Threads })",
    ),
];

/// A command, its arguments, and what is asked.
type Row = (&'static str, &'static str, &'static str);

/// A request for each command, as editors send it, with all of its arguments; and two that are refused.
const ASKED: [Row; 17] = [
    (
        "initialize",
        r#"{"linesStartAt1":false,"clientID":7}"#,
        "Initialize(InitializeArguments { lines_start_at_1: false, columns_start_at_1: true })",
    ),
    (
        "launch",
        r#"{"program":" ~","stopOnEntry":true,"noDebug":false}"#,
        r#"Launch(LaunchArguments { program: Text { text: " ~" }, stop_on_entry: true })"#,
    ),
    (
        "setBreakpoints",
        r#"{"source":{"path":"p.pl0"},"breakpoints":[{"line":2},{"line":0,"condition":"x > 2","hitCondition":"%2","logMessage":"x is {x}"},{"line":2147483647,"condition":""}]}"#,
        r#"SetBreakpoints(SetBreakpointsArguments { path: Some(Text { text: "p.pl0" }), breakpoints: Items { items: [SourceBreakpoint { line: 2, condition: Text { text: "" }, hit_condition: Text { text: "" }, log_message: Text { text: "" } }, SourceBreakpoint { line: 0, condition: Text { text: "x > 2" }, hit_condition: Text { text: "%2" }, log_message: Text { text: "x is {x}" } }, SourceBreakpoint { line: 2147483647, condition: Text { text: "" }, hit_condition: Text { text: "" }, log_message: Text { text: "" } }] } })"#,
    ),
    ("configurationDone", "null", "ConfigurationDone"),
    ("threads", "\"x\"", "Threads"),
    ("disconnect", "null", "Disconnect"),
    (
        "continue",
        r#"{"threadId":1}"#,
        "Resume(Continue, ThreadArguments { thread_id: 1 })",
    ),
    (
        "stepOut",
        r#"{"threadId":9007199254740991}"#,
        "Resume(StepOut, ThreadArguments { thread_id: 9007199254740991 })",
    ),
    (
        "stepBack",
        r#"{"threadId":1,"granularity":"line"}"#,
        "Retreat(StepBack, ThreadArguments { thread_id: 1 })",
    ),
    (
        "pause",
        r#"{"threadId":1}"#,
        "Pause(ThreadArguments { thread_id: 1 })",
    ),
    (
        "stackTrace",
        r#"{"threadId":1,"startFrame":1,"levels":2}"#,
        "Inspect(StackTrace(StackTraceArguments { thread_id: 1, start_frame: 1, levels: 2 }))",
    ),
    (
        "scopes",
        r#"{"frameId":4}"#,
        "Inspect(Scopes(ScopesArguments { frame_id: 4 }))",
    ),
    (
        "variables",
        r#"{"variablesReference":3}"#,
        "Inspect(Variables(VariablesArguments { variables_reference: 3 }))",
    ),
    (
        "evaluate",
        r#"{"expression":"k + n","frameId":4}"#,
        r#"Inspect(Evaluate(EvaluateArguments { expression: Text { text: "k + n" }, frame_id: 4 }))"#,
    ),
    (
        "evaluate",
        r#"{"expression":"1 / n"}"#,
        r#"Inspect(Evaluate(EvaluateArguments { expression: Text { text: "1 / n" }, frame_id: 1 }))"#,
    ),
    ("continue", "{}", "BadArguments(Resume(Continue))"),
    (
        "completions",
        "{}",
        r#"Unsupported(Text { text: "completions" })"#,
    ),
];

/// Asserts that a content is read as this, a request or none.
fn assert_read(rt: &impl Abort, alloc: Global, name: &str, content: &[u8], expected: &str) {
    let request = read(alloc, Dialect::Codes, content).expect(rt, "memory");
    let request = format!(in alloc; "{request:?}").expect(rt, "memory");
    assert_eq!(rt; request.as_str(), expected, "{name}");
}

#[test]
fn reads_contents(rt: HostRuntime) {
    for (content, expected) in CONTENTS.as_slice() {
        assert_read(&rt, rt.alloc(), expected, content, expected);
    }
}

#[test]
fn reads_seqs(rt: HostRuntime) {
    let alloc = rt.alloc();
    for (seq, from_one, from_zero) in SEQS.as_slice() {
        let content = format!(in alloc;
            "{{\"command\":\"threads\",\"type\":\"request\",\"seq\":{seq}}}"
        ).expect(&rt, "memory");
        let content = content.as_bytes();
        assert_read(&rt, alloc, seq, content, from_one);
        for (dialect, expected) in [(Dialect::Codes, from_one), (Dialect::Words, from_zero)] {
            let request = read(alloc, dialect, content).expect(&rt, "memory");
            let request = format!(in alloc; "{request:?}").expect(&rt, "memory");
            assert_eq!(rt; request.as_str(), *expected, "{seq} in {dialect:?}");
        }
    }
}

/// Asserts that a request for a command with these arguments asks for this, and names the command for its answer.
fn assert_asks(rt: &impl Abort, alloc: Global, row: Row) {
    let (command, arguments, expected) = row;
    let content = format!(in alloc;
        "{{\"seq\":7,\"type\":\"request\",\"command\":\"{command}\",\"arguments\":{arguments}}}"
    ).expect(rt, "memory");
    let request = read(alloc, Dialect::Codes, content.as_bytes()).expect(rt, "memory");
    let Request { seq, body } = request.expect(rt, "a request");
    let asked = format!(in alloc; "{seq}: {body:?}").expect(rt, "memory");
    let expected = format!(in alloc; "7: {expected}").expect(rt, "memory");
    assert_eq!(rt; asked.as_str(), expected.as_str(), "{row:?}");
    assert_eq!(rt; body.into_name().as_str(), command, "{row:?}");
}

#[test]
fn reads_arguments(rt: HostRuntime) {
    for row in ASKED.as_slice() {
        assert_asks(&rt, rt.alloc(), *row);
    }
}

/// Arguments with a part that may be repeated at most `most` times.
struct Limit {
    command: &'static str,
    first: &'static str,
    repeated: &'static str,
    most: usize,
    last: &'static str,
}

/// The limits of the arguments, one by one.
const LIMITS: [Limit; 6] = [
    Limit {
        command: "launch",
        first: r#"{"program":""#,
        repeated: "a",
        most: 255,
        last: r#""}"#,
    },
    Limit {
        command: "evaluate",
        first: r#"{"expression":""#,
        repeated: "é",
        most: 512,
        last: r#""}"#,
    },
    Limit {
        command: "setBreakpoints",
        first: r#"{"source":{},"breakpoints":[{"line":1,"condition":""#,
        repeated: "a",
        most: 1024,
        last: r#""}]}"#,
    },
    Limit {
        command: "setBreakpoints",
        first: r#"{"source":{},"breakpoints":[{"line":1,"hitCondition":""#,
        repeated: "a",
        most: 1024,
        last: r#""}]}"#,
    },
    Limit {
        command: "setBreakpoints",
        first: r#"{"source":{},"breakpoints":[{"line":1,"logMessage":""#,
        repeated: "é",
        most: 512,
        last: r#""}]}"#,
    },
    Limit {
        command: "setBreakpoints",
        first: r#"{"source":{},"breakpoints":[{"line":1}"#,
        repeated: r#",{"line":1}"#,
        most: 255,
        last: "]}",
    },
];

/// Asserts that the arguments with their part repeated `times` times make a request, and whether they are accepted.
fn assert_fits(rt: &impl Abort, alloc: Global, limit: &Limit, times: usize, fits: bool) {
    let command = limit.command;
    let head = format!(in alloc;
        "{{\"type\":\"request\",\"command\":\"{command}\",\"seq\":1,\"arguments\":"
    ).expect(rt, "memory");
    let arguments = repeated(rt, alloc, limit.first, limit.repeated, times, limit.last);
    let content = format!(in alloc; "{head}{arguments}}}").expect(rt, "memory");
    let request = read(alloc, Dialect::Codes, content.as_bytes()).expect(rt, "memory");
    let body = request.expect(rt, "a request").body;
    let asked = format!(in alloc; "{body:?}").expect(rt, "memory");
    let first = limit.first;
    assert_eq!(rt;
        !asked.starts_with("BadArguments("),
        fits,
        "whether it fits {times} times in {first}: {asked}"
    );
}

#[test]
fn reads_arguments_up_to_their_limits(rt: HostRuntime) {
    for limit in LIMITS.as_slice() {
        assert_fits(&rt, rt.alloc(), limit, limit.most, true);
        assert_fits(&rt, rt.alloc(), limit, limit.most.saturating_add(1), false);
    }
}

#[test]
fn reads_names_up_to_64_bytes(rt: HostRuntime) {
    let alloc = rt.alloc();
    let first = r#"{"seq":1,"type":"request","command":""#;
    let longest = repeated(
        &rt,
        alloc,
        r#"Some(Request { seq: 1, body: Unsupported(Text { text: ""#,
        "a",
        64,
        r#"" }) })"#,
    );
    for (times, expected) in [(64, longest.as_str()), (65, "None"), (0, "None")] {
        let content = repeated(&rt, alloc, first, "a", times, r#""}"#);
        let name = format!(in alloc; "{times} letters").expect(&rt, "memory");
        assert_read(&rt, alloc, name.as_str(), content.as_bytes(), expected);
    }
}

#[test]
fn reads_values_up_to_127_deep(rt: HostRuntime) {
    let alloc = rt.alloc();
    let first = r#"{"seq":1,"type":"request","command":"initialize","x":"#;
    for (arrays, expected) in [(126, INITIALIZE_1), (127, "None")] {
        let opened = repeated(&rt, alloc, first, "[", arrays, "");
        let content = repeated(&rt, alloc, opened.as_str(), "]", arrays, "}");
        let name = format!(in alloc; "{arrays} arrays").expect(&rt, "memory");
        assert_read(&rt, alloc, name.as_str(), content.as_bytes(), expected);
    }
}

/// A content of 1,048,576 bytes is read, and not refused as out of memory.
#[test]
fn reads_the_largest_content(rt: HostRuntime) {
    let alloc = rt.alloc();
    let first = r#"{"seq":1,"type":"request","command":"initialize","x":""#;
    let rest = 1_048_574usize.saturating_sub(first.len());
    let content = repeated(&rt, alloc, first, "x", rest, "\"}");
    assert_eq!(rt; content.len(), 1_048_576);
    assert_read(&rt, alloc, first, content.as_bytes(), INITIALIZE_1);
}
