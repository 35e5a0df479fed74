//! Events of a debuggee.

ghost use Rattle.std.specs.Prelude.{◌≡◌, IfOk, option_map, string_bytes};
ghost use Rattle.serde_json.specs.View.{view};
ghost use Rattle.dap_server.specs.Messages.{plain_event};
ghost use Rattle.dap_bodies.specs.Events.{initialized, output, stopped, stop_body, exited, terminated};

use crate::cutting::shown_text;
use dap_server::Event;
use serde_json::{Value, json};
use std::alloc::{AllocError, Global};

/// The number of the debuggee's one thread.
pub const THREAD: u64 = 1;

/// Returns the event that tells that breakpoints can be set, and the debuggee started.
///
/// # Errors
///
/// An allocation failed.
pub fn initialized(alloc: Global) -> Result<Event, AllocError>
    ensures { IfOk result (λ event. plain_event event ≡ initialized) }
{
    Event::new(alloc, "initialized", None)
}

/// Returns the event that tells a text of this category, as `stdout` of what the debuggee prints or `console` of what the
/// debugger says.
///
/// # Errors
///
/// An allocation failed.
pub fn output(alloc: Global, category: &str, text: String) -> Result<Event, AllocError>
    ensures { IfOk result (λ event. plain_event event ≡ output category.now (string_bytes text)) }
{
    let body = json!(in alloc; {"category": category, "output": text})?;
    Event::new(alloc, "output", Some(body))
}

/// Returns the event that tells a stop: its reason, as `step` or `breakpoint`, and a text where there is more to say.
///
/// # Errors
///
/// An allocation failed.
pub fn stopped(alloc: Global, reason: &str, text: Option<&str>) -> Result<Event, AllocError>
    ensures { IfOk result (λ event.
        plain_event event ≡ stopped reason.now (option_map (λ t. t.now) text.entry)) }
{
    let body = stop_body(alloc, reason, text)?;
    Event::new(alloc, "stopped", Some(body))
}

/// Returns the body of a stop.
fn stop_body(alloc: Global, reason: &str, text: Option<&str>) -> Result<Value, AllocError>
    ensures { IfOk result (λ body.
        view body ≡ stop_body reason.now (option_map (λ t. t.now) text.entry)) }
{
    match text {
        Some(text) => {
            let text = shown_text(String::from_str(alloc, text)?)?;
            json!(in alloc; {
                "allThreadsStopped": true,
                "reason": reason,
                "text": text,
                "threadId": THREAD
            })
        }
        None => json!(in alloc; {
            "allThreadsStopped": true,
            "reason": reason,
            "threadId": THREAD
        }),
    }
}

/// Returns the event that tells the status with which the debuggee has ended.
///
/// # Errors
///
/// An allocation failed.
pub fn exited(alloc: Global, status: u64) -> Result<Event, AllocError>
    ensures { IfOk result (λ event. plain_event event ≡ exited status) }
{
    let body = json!(in alloc; {"exitCode": status})?;
    Event::new(alloc, "exited", Some(body))
}

/// Returns the event that tells that there is no more to debug.
///
/// # Errors
///
/// An allocation failed.
pub fn terminated(alloc: Global) -> Result<Event, AllocError>
    ensures { IfOk result (λ event. plain_event event ≡ terminated) }
{
    Event::new(alloc, "terminated", None)
}
