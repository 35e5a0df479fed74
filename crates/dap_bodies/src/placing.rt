//! The body that says what became of breakpoints.

ghost use Rattle.std.specs.Prelude.{◌≡◌, IfOk, codes, map};
ghost use Rattle.serde_json.specs.View.{view};
ghost use Rattle.dap_bodies.specs.Bodies.{plain_shown_breakpoint, breakpoints, body_of};

use crate::cutting::shown_text;
use crate::values::{BYTE_SIZE, Row, Shown, list_of};
use serde_json::{Value, json};
use std::alloc::{AllocError, Global};

/// How many bytes a row takes at most where it is written, without those of its text.
const BREAKPOINT_SIZE: usize = 107;

/// What became of a breakpoint that was asked for.
#[derive(Drop)]
pub enum Breakpoint {
    /// It is set at this line.
    SetAt(u64),
    /// It isn't set, and why.
    Refused(String),
}

impl Shown for Breakpoint {
    ghost use Rattle.dap_bodies.specs.Bodies.{plain_shown_breakpoint, breakpoint_value};

    ghost shown = { λ breakpoint. breakpoint_value (plain_shown_breakpoint breakpoint) };

    fn into_row(self, alloc: Global) -> Result<Row, AllocError> {
        match self {
            Breakpoint::SetAt(line) => Ok(Row {
                value: json!(in alloc; {"line": line, "verified": true})?,
                size: BREAKPOINT_SIZE,
            }),
            Breakpoint::Refused(why) => {
                let why = shown_text(why)?;
                let size = BREAKPOINT_SIZE + BYTE_SIZE * why.len();
                let value = json!(in alloc; {"message": why, "verified": false})?;
                Ok(Row { value, size })
            }
        }
    }
}

/// Returns the body for `setBreakpoints`, in the order in which they were asked for.
///
/// # Errors
///
/// An allocation failed.
pub fn breakpoints(alloc: Global, all: Vec<Breakpoint>) -> Result<Value, AllocError>
    ensures { IfOk result (λ body. view body ≡ breakpoints (map plain_shown_breakpoint all.items)) }
{
    breakpoints_body(alloc, list_of(alloc, all)?)
}

/// Returns the body with this array of breakpoints.
fn breakpoints_body(alloc: Global, all: Value) -> Result<Value, AllocError>
    ensures { IfOk result (λ body. view body ≡ body_of (codes "breakpoints") (view all)) }
{
    json!(in alloc; {"breakpoints": all})
}
