//! Log points: which messages are refused, and what positions log.

ghost use Rattle.std.specs.Prelude.{◌≡◌};

use crate::steps::{goes, logged};
use dbg_plan::{Debuggee, Log, Logs, Mode, Reason, Resolution};
use sample_programs::LOOP;
use std::alloc::Global;
use std::process::Abort;
use test_kit::{Asked, breakpoints_at, debuggee_of, put_in};

/// How many positions are considered, at most.
const POSITIONS: u64 = 100;

/// Returns a debuggee of a text under log points, at position 0, and the answers to these.
fn asked(
    rt: &impl Abort,
    alloc: Global,
    text: &str,
    points: &[Asked],
) -> (Debuggee, Vec<Resolution>)
    ensures { result.0.next ≡ result.0.position }
{
    let mut debuggee = debuggee_of(alloc, text).expect(rt, "a lawful text");
    let breakpoints = breakpoints_at(alloc, points).expect(rt, "memory");
    let answers = put_in(alloc, &mut debuggee, &breakpoints).expect(rt, "a plan");
    (debuggee, answers)
}

/// What a position did, after its number.
fn note(rt: &impl Abort, alloc: Global, notes: &mut String, position: u64, what: &str) {
    let line = format!(in alloc; "{position}: {what}\n").expect(rt, "memory");
    notes.push_str(line.as_str()).expect(rt, "memory");
}

/// Returns what a text does in the mode `Continue` under log points: for each position that logs or is due, its number,
/// the logs with their breakpoints' numbers, and `stop`.
fn notes_of(rt: &impl Abort, alloc: Global, text: &str, points: &[Asked]) -> String {
    let (mut debuggee, _) = asked(rt, alloc, text, points);
    let mut logs = Logs::new(alloc).expect(rt, "memory");
    let mut notes = String::new(alloc);
    for position in 0..POSITIONS {
        if debuggee.machine().depth() == 0 {
            break;
        }
        let due = debuggee.consider(Mode::Continue, &mut logs);
        let told = logged(rt, alloc, &debuggee, &logs);
        for line in told.lines() {
            note(rt, alloc, &mut notes, position, line);
        }
        if due == Some(Reason::Breakpoint) {
            note(rt, alloc, &mut notes, position, "stop");
        }
        if !goes(&mut debuggee) {
            break;
        }
    }
    notes
}

const MESSAGE: &str = "x is {x}, {10 / (x - 2)}";

const POINTS: [Asked; 4] = [
    (3, "", "", "first {x}"),
    (3, "x = 4", "", ""),
    (2, "x > 4", "", "test {x}"),
    (3, "x > 3", "", "second }{x}{x}"),
];

/// Log points in the loop, and the logs expected.
const NOTED: [(&[Asked], &str); 6] = [
    (
        &[(3, "", "", MESSAGE)],
        "1: 0 x is 0, -5\n3: 0 x is 1, -10\n5: 0 x is 2, divideByZero\n7: 0 x is 3, 10\n9: 0 x is 4, 5\n11: 0 x is 5, 3\n",
    ),
    (
        &[(3, "", "%3", MESSAGE)],
        "5: 0 x is 2, divideByZero\n11: 0 x is 5, 3\n",
    ),
    (&[(3, "odd x", "2", "odd {x}")], "7: 0 odd 3\n11: 0 odd 5\n"),
    (&[(3, "x = 0", "", "}")], "1: 0 }\n"),
    (
        &[(
            3,
            "x = 1",
            "",
            "{9223372036854775807 + x} {-9223372036854775807 - x}",
        )],
        "3: 0 overflow -9223372036854775808\n",
    ),
    (
        &POINTS,
        "1: 0 first 0\n3: 0 first 1\n5: 0 first 2\n7: 0 first 3\n9: 0 first 4\n9: 3 second }44\n9: stop\n10: 2 test 5\n11: 0 first 5\n11: 3 second }55\n12: 2 test 6\n",
    ),
];

#[test]
fn logs_as_asked(rt: HostRuntime) {
    for (points, wanted) in NOTED.as_slice() {
        let notes = notes_of(&rt, rt.alloc(), LOOP, points);
        assert_eq!(rt; notes.as_str(), *wanted);
    }
}

const NESTED: &str =
    "var n;\nprocedure p;\nvar k;\nbegin k := n * n;\nn := n - 1;\nif n > 0 then call p;\n! k\nend;\nbegin n := 3; call p end.";

#[test]
fn logs_in_the_newest_frame(rt: HostRuntime) {
    let notes = notes_of(&rt, rt.alloc(), NESTED, &[(7, "", "", "k {k} n {n}")]);
    assert_eq!(rt;
        notes.as_str(),
        "13: 0 k 1 n 0\n15: 0 k 4 n 0\n17: 0 k 9 n 0\n"
    );
}

/// A line of the loop, the texts of a condition, a hit condition and a message, and the expected answer.
const ANSWERS: [(u32, &str, &str, &str, Resolution); 20] = [
    (3, "", "", "{x", Resolution::BadLogMessage),
    (3, "", "", "{}", Resolution::BadLogMessage),
    (3, "", "", "{ {x} }", Resolution::BadLogMessage),
    (3, "", "", "}", Resolution::At(1)),
    (3, "", "", "{", Resolution::BadLogMessage),
    (3, "", "", "a}{x}b", Resolution::At(1)),
    (3, "", "", "{y}", Resolution::BadLogMessage),
    (3, "", "", "{x} {y}", Resolution::BadLogMessage),
    (3, "", "", "{x < 1}", Resolution::BadLogMessage),
    (3, "", "", "{ x }", Resolution::At(1)),
    (3, "", "", " ", Resolution::At(1)),
    (3, "", "", "{x}{x}{x}{x}{x}{x}{x}{x}", Resolution::At(1)),
    (
        3,
        "",
        "",
        "{x}{x}{x}{x}{x}{x}{x}{x}{x}",
        Resolution::BadLogMessage,
    ),
    (3, "", "", "é😀 {x}", Resolution::At(1)),
    (3, "", "", "{é}", Resolution::BadLogMessage),
    (4, "x", "0", "{", Resolution::NoStep),
    (3, "x", "0", "{", Resolution::BadCondition),
    (3, "", "0", "{", Resolution::BadHitCondition),
    (3, "x > 1", "1", "{", Resolution::BadLogMessage),
    (3, "x > 1", "1", "{x}", Resolution::At(1)),
];

fn assert_answer(rt: &impl Abort, alloc: Global, point: Asked, wanted: Resolution) {
    let (_, answers) = asked(rt, alloc, LOOP, [point].as_slice());
    assert_eq!(rt; answers.as_slice(), [wanted].as_slice(), "{point:?}");
}

#[test]
fn answers_messages(rt: HostRuntime) {
    for (line, condition, hit, message, wanted) in ANSWERS.as_slice() {
        assert_answer(
            &rt,
            rt.alloc(),
            (*line, *condition, *hit, *message),
            *wanted,
        );
    }
}

/// Asserts that each of 256 breakpoints logs eight values.
fn assert_all_log(rt: &impl Abort, logs: &[Log]) {
    assert_eq!(rt; logs.len(), 256);
    for (number, log) in logs.iter().enumerate() {
        assert_eq!(rt; (log.number(), log.values().len()), (number, 8));
    }
}

/// As many log points as may be asked for, at one step, each with as many expressions as it may have.
#[test]
fn fills_the_room(rt: HostRuntime) {
    let points = [(1, "", "", "{1}{2}{3}{4}{5}{6}{7}{x}"); 256];
    let (mut debuggee, _) = asked(&rt, rt.alloc(), "var x; x := 1.", points.as_slice());
    let mut logs = Logs::new(rt.alloc()).expect(&rt, "memory");
    assert!(rt; debuggee.machine().depth() > 0);
    let _ = debuggee.consider(Mode::Continue, &mut logs);
    assert_all_log(&rt, logs.as_slice());
}
