//! The contents that the short lines of a transcript stand for.

use crate::text::in_two;
use std::alloc::{AllocError, Global};
use std::process::Abort;

/// The content of a line such as `4: ok configurationDone/3`, `5: stopped breakpoint` or `6: {"body":..}`.
pub fn content(rt: &impl Abort, alloc: Global, line: &str) -> String {
    let (seq, message) = line.split_once(": ").expect(rt, "a seq and a message");
    written(alloc, seq, message).expect(rt, "memory")
}

fn written(alloc: Global, seq: &str, message: &str) -> Result<String, AllocError> {
    if message.starts_with('{') {
        return String::from_str(alloc, message);
    }
    let (kind, rest) = in_two(message, " ");
    match kind {
        "ok" => success(alloc, seq, rest),
        "no" => refusal(alloc, seq, rest),
        event => of_event(alloc, seq, event, rest),
    }
}

fn success(alloc: Global, seq: &str, answer: &str) -> Result<String, AllocError> {
    let (request, shown) = in_two(answer, " ");
    let (command, request_seq) = in_two(request, "/");
    let body = body(alloc, command, shown)?;
    format!(in alloc;
        "{{{body}\"command\":\"{command}\",\"request_seq\":{request_seq},\"seq\":{seq},\"success\":true,\"type\":\"response\"}}"
    )
}

fn refusal(alloc: Global, seq: &str, answer: &str) -> Result<String, AllocError> {
    let (request, message) = in_two(answer, " ");
    let (command, request_seq) = in_two(request, "/");
    format!(in alloc;
        "{{\"body\":{{}},\"command\":\"{command}\",\"message\":\"{message}\",\"request_seq\":{request_seq},\"seq\":{seq},\"success\":false,\"type\":\"response\"}}"
    )
}

fn of_event(alloc: Global, seq: &str, event: &str, shown: &str) -> Result<String, AllocError> {
    let body = match event {
        "stopped" => stop(alloc, shown)?,
        "output" => format!(in alloc;
            "\"body\":{{\"category\":\"stdout\",\"output\":\"{shown}\\n\"}},"
        )?,
        "console" => format!(in alloc;
            "\"body\":{{\"category\":\"console\",\"output\":\"{shown}\\n\"}},"
        )?,
        "exited" => format!(in alloc; "\"body\":{{\"exitCode\":{shown}}},")?,
        _ => String::new(alloc),
    };
    let event = if event == "console" { "output" } else { event };
    format!(in alloc; "{{{body}\"event\":\"{event}\",\"seq\":{seq},\"type\":\"event\"}}")
}

fn stop(alloc: Global, shown: &str) -> Result<String, AllocError> {
    let (reason, text) = in_two(shown, " ");
    let text = if text.is_empty() {
        String::new(alloc)
    } else {
        format!(in alloc; "\"text\":\"{text}\",")?
    };
    format!(in alloc;
        "\"body\":{{\"allThreadsStopped\":true,\"reason\":\"{reason}\",{text}\"threadId\":1}},"
    )
}

/// The body of an answer with a comma after it, or nothing where the answer has none.
fn body(alloc: Global, command: &str, shown: &str) -> Result<String, AllocError> {
    match command {
        "initialize" => String::from_str(
            alloc,
            r#""body":{"supportsConditionalBreakpoints":true,"supportsConfigurationDoneRequest":true,"supportsHitConditionalBreakpoints":true,"supportsLogPoints":true,"supportsStepBack":true},"#,
        ),
        "threads" => String::from_str(alloc, r#""body":{"threads":[{"id":1,"name":"main"}]},"#),
        "continue" => String::from_str(alloc, r#""body":{"allThreadsContinued":true},"#),
        "setBreakpoints" => list(
            alloc,
            "\"breakpoints\":[",
            shown,
            " ",
            Item::Breakpoint,
            "]",
        ),
        "stackTrace" => frames(alloc, shown),
        "scopes" => list(alloc, "\"scopes\":[", shown, ", ", Item::Scope, "]"),
        "variables" => list(alloc, "\"variables\":[", shown, ", ", Item::Variable, "]"),
        "evaluate" => format!(in alloc;
            "\"body\":{{\"result\":\"{shown}\",\"variablesReference\":0}},"
        ),
        _ => Ok(String::new(alloc)),
    }
}

/// What a list has.
#[derive(Clone, Copy)]
enum Item {
    Breakpoint,
    Frame,
    Scope,
    Variable,
}

fn item_text(alloc: Global, item: Item, shown: &str) -> Result<String, AllocError> {
    match item {
        Item::Breakpoint => breakpoint(alloc, shown),
        Item::Frame => frame(alloc, shown),
        Item::Scope => scope(alloc, shown),
        Item::Variable => variable(alloc, shown),
    }
}

/// A body with one list, of which each item is shown.
fn list(
    alloc: Global,
    first: &str,
    shown: &str,
    mark: &str,
    items: Item,
    last: &str,
) -> Result<String, AllocError> {
    let mut text = format!(in alloc; "\"body\":{{{first}")?;
    let mut is_first = true;
    for part in shown.split(mark) {
        if !is_first {
            text.push_str(",")?;
        }
        if !part.is_empty() {
            text.push_str(item_text(alloc, items, part)?.as_str())?;
        }
        is_first = false;
    }
    text.push_str(last)?;
    text.push_str("},")?;
    Ok(text)
}

/// `3` or `noStep`.
fn breakpoint(alloc: Global, shown: &str) -> Result<String, AllocError> {
    if shown.starts_with(|c: char| c.is_ascii_digit()) {
        format!(in alloc; "{{\"line\":{shown},\"verified\":true}}")
    } else {
        format!(in alloc; "{{\"message\":\"{shown}\",\"verified\":false}}")
    }
}

/// `4 frames: p 10:1 id 3, p 9:15 id 2`.
fn frames(alloc: Global, shown: &str) -> Result<String, AllocError> {
    let (total, frames) = in_two(shown, " frames: ");
    let last = format!(in alloc; "],\"totalFrames\":{total}")?;
    list(
        alloc,
        "\"stackFrames\":[",
        frames,
        ", ",
        Item::Frame,
        last.as_str(),
    )
}

/// `p 10:1 id 3`.
fn frame(alloc: Global, shown: &str) -> Result<String, AllocError> {
    let (name, rest) = in_two(shown, " ");
    let (place, id) = in_two(rest, " id ");
    let (line, column) = in_two(place, ":");
    format!(in alloc;
        "{{\"column\":{column},\"id\":{id},\"line\":{line},\"name\":\"{name}\",\"source\":{{\"path\":\"p.pl0\"}}}}"
    )
}

/// `p 3`.
fn scope(alloc: Global, shown: &str) -> Result<String, AllocError> {
    let (name, id) = in_two(shown, " ");
    format!(in alloc; "{{\"expensive\":false,\"name\":\"{name}\",\"variablesReference\":{id}}}")
}

/// `k 1`.
fn variable(alloc: Global, shown: &str) -> Result<String, AllocError> {
    let (name, value) = in_two(shown, " ");
    format!(in alloc; "{{\"name\":\"{name}\",\"value\":\"{value}\",\"variablesReference\":0}}")
}
