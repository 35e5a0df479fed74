//! Lines that stand for others, which many sessions share.
//!
//! - `two procedures` stands for a program: a procedure in another one, which calls itself and the inner one.
//! - `launched` stands for the first two requests and their answers; `entered` for those of a launch that stops on
//!   entry, and for `configurationDone` after them.
//! - `refused syntax 6 1 1` stands for the first two requests where that refuses the launch; `launched again` for a
//!   launch of the smallest program after it.
//! - `started 4/3` stands for `configurationDone` with seq 3, which orders the first run, and for its answer with seq 4.
//! - `continue 2 8/6` stands for `continue` with seq 6, which orders run 2, and for its answer with seq 8. `next`,
//!   `stepIn`, `stepOut`, `stepBack` and `reverseContinue` go the same way.
//! - `ended` stands for the end of the input, which closes the session.

use crate::text::in_two;
use sample_programs::RECURSIVE;
use std::alloc::{AllocError, Global};
use std::process::Abort;

const LAUNCHED: &str = r#"> initialize
1: ok initialize/1
> launch {"program":"p.pl0"}
2: ok launch/2
3: initialized
"#;

const ENTERED: &str = r#"> initialize
1: ok initialize/1
> launch {"program":"p.pl0","stopOnEntry":true}
2: ok launch/2
3: initialized
> configurationDone
4: ok configurationDone/3
5: stopped entry
"#;

const REFUSED: &str = r#"> initialize
1: ok initialize/1
> launch {"program":"p.pl0"}
2: no launch/2 "#;

const LAUNCHED_AGAIN: &str = r#"> launch {"program":"dot.pl0"}
3: ok launch/3
4: initialized
"#;

const ENDED: &str = "end
! Quit
= InputEnded
";

/// A session, where each line that stands for others is those.
pub fn spelled_out(rt: &impl Abort, alloc: Global, session: &str) -> String {
    let mut whole = String::new(alloc);
    for line in session.lines() {
        let lines = lines_of(alloc, line).expect(rt, "memory");
        whole.push_str(lines.as_str()).expect(rt, "memory");
    }
    whole
}

/// The lines that a line stands for.
fn lines_of(alloc: Global, line: &str) -> Result<String, AllocError> {
    match line {
        "two procedures" => text_lines(alloc, RECURSIVE),
        "launched" => String::from_str(alloc, LAUNCHED),
        "entered" => String::from_str(alloc, ENTERED),
        "launched again" => String::from_str(alloc, LAUNCHED_AGAIN),
        "ended" => String::from_str(alloc, ENDED),
        _ => with_words(alloc, line),
    }
}

/// The lines of a transcript that give a program this text.
fn text_lines(alloc: Global, text: &str) -> Result<String, AllocError> {
    let mut lines = String::new(alloc);
    for line in text.split('\n') {
        lines.push_str("| ")?;
        lines.push_str(line)?;
        lines.push_str("\n")?;
    }
    Ok(lines)
}

/// The lines that a line stands for whose first word says of what kind it is.
fn with_words(alloc: Global, line: &str) -> Result<String, AllocError> {
    let (verb, words) = in_two(line, " ");
    match verb {
        "refused" => refused(alloc, words),
        "started" => started(alloc, words),
        "continue" | "next" | "stepIn" | "stepOut" | "stepBack" | "reverseContinue" => {
            resumed(alloc, verb, words)
        }
        _ => format!(in alloc; "{line}\n"),
    }
}

fn refused(alloc: Global, why: &str) -> Result<String, AllocError> {
    let mut lines = String::from_str(alloc, REFUSED)?;
    lines.push_str(why)?;
    lines.push_str("\n")?;
    Ok(lines)
}

fn started(alloc: Global, words: &str) -> Result<String, AllocError> {
    let (seq, request) = in_two(words, "/");
    format!(in alloc; "> configurationDone\n! Go 1\n{seq}: ok configurationDone/{request}\n")
}

fn resumed(alloc: Global, command: &str, words: &str) -> Result<String, AllocError> {
    let (run, answer) = in_two(words, " ");
    let (seq, request) = in_two(answer, "/");
    format!(in alloc; "> {command} {{\"threadId\":1}}\n! Go {run}\n{seq}: ok {command}/{request}\n")
}
