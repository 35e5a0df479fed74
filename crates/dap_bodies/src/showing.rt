//! Bodies that show a debuggee which has stopped.

ghost use Rattle.std.specs.Prelude.{◌≡◌, IfOk, codes, map, string_bytes};
ghost use Rattle.serde_json.specs.View.{view};
ghost use Rattle.dap_bodies.specs.Bodies.{frame_members, plain_shown_frame, stack_trace, plain_shown_scope, scopes, plain_shown_variable, variables, evaluated, exception_info, threads, body_of, stack_body};

use crate::cutting::shown_text;
use crate::events::THREAD;
use crate::values::{BYTE_SIZE, Row, Shown, list_of};
use serde_json::{Value, json};
use std::alloc::{AllocError, Global};

/// How many bytes a frame takes at most where it is written, without those of its texts.
const FRAME_SIZE: usize = 248;

/// The same of a scope.
const SCOPE_SIZE: usize = 227;

/// The same of a variable.
const VARIABLE_SIZE: usize = 200;

/// A frame of the stack.
#[derive(Drop)]
pub struct StackFrame {
    /// Its number, by which later requests name it.
    pub id: u64,
    /// What is shown of it, as the name of the function.
    pub name: String,
    /// The path of its source file.
    pub path: String,
    pub line: u64,
    pub column: u64,
}

impl Shown for StackFrame {
    ghost use Rattle.dap_bodies.specs.Bodies.{plain_shown_frame, frame_value};

    ghost shown = { λ frame. frame_value (plain_shown_frame frame) };

    fn into_row(self, alloc: Global) -> Result<Row, AllocError> {
        let frame = StackFrame {
            name: shown_text(self.name)?,
            path: shown_text(self.path)?,
            ..self
        };
        let size = FRAME_SIZE + BYTE_SIZE * (frame.name.len() + frame.path.len());
        let value = frame_members(alloc, frame)?;
        Ok(Row { value, size })
    }
}

/// Returns a frame as a value, with whole texts.
fn frame_members(alloc: Global, frame: StackFrame) -> Result<Value, AllocError>
    ensures { IfOk result (λ value. view value ≡ frame_members (plain_shown_frame frame)) }
{
    let StackFrame {
        id,
        name,
        path,
        line,
        column,
    } = frame;
    json!(in alloc; {
        "column": column,
        "id": id,
        "line": line,
        "name": name,
        "source": {"path": path}
    })
}

/// Returns the body for `stackTrace`: these frames, of this many in all.
///
/// # Errors
///
/// An allocation failed.
pub fn stack_trace(alloc: Global, frames: Vec<StackFrame>, total: u64) -> Result<Value, AllocError>
    ensures { IfOk result (λ body. view body ≡ stack_trace (map plain_shown_frame frames.items) total) }
{
    stack_body(alloc, list_of(alloc, frames)?, total)
}

/// Returns the body with this array of frames.
fn stack_body(alloc: Global, frames: Value, total: u64) -> Result<Value, AllocError>
    ensures { IfOk result (λ body. view body ≡ stack_body (view frames) total) }
{
    json!(in alloc; {"stackFrames": frames, "totalFrames": total})
}

/// A scope of a frame: a group of variables.
#[derive(Drop)]
pub struct Scope {
    /// What is shown of it.
    pub name: String,
    /// The reference by which its variables are asked for.
    pub reference: u64,
}

impl Shown for Scope {
    ghost use Rattle.dap_bodies.specs.Bodies.{plain_shown_scope, scope_value};

    ghost shown = { λ scope. scope_value (plain_shown_scope scope) };

    fn into_row(self, alloc: Global) -> Result<Row, AllocError> {
        let name = shown_text(self.name)?;
        let size = SCOPE_SIZE + BYTE_SIZE * name.len();
        let value = json!(in alloc; {
            "expensive": false,
            "name": name,
            "variablesReference": self.reference
        })?;
        Ok(Row { value, size })
    }
}

/// Returns the body for `scopes`.
///
/// # Errors
///
/// An allocation failed.
pub fn scopes(alloc: Global, all: Vec<Scope>) -> Result<Value, AllocError>
    ensures { IfOk result (λ body. view body ≡ scopes (map plain_shown_scope all.items)) }
{
    scopes_body(alloc, list_of(alloc, all)?)
}

/// Returns the body with this array of scopes.
fn scopes_body(alloc: Global, all: Value) -> Result<Value, AllocError>
    ensures { IfOk result (λ body. view body ≡ body_of (codes "scopes") (view all)) }
{
    json!(in alloc; {"scopes": all})
}

/// A variable, and its value as it is shown.
#[derive(Drop)]
pub struct Variable {
    pub name: String,
    pub value: String,
    /// The reference by which the variables inside are asked for; 0 where there are none.
    pub reference: u64,
}

impl Shown for Variable {
    ghost use Rattle.dap_bodies.specs.Bodies.{plain_shown_variable, variable_value};

    ghost shown = { λ variable. variable_value (plain_shown_variable variable) };

    fn into_row(self, alloc: Global) -> Result<Row, AllocError> {
        let Variable {
            name,
            value,
            reference,
        } = self;
        let (name, value) = (shown_text(name)?, shown_text(value)?);
        let size = VARIABLE_SIZE + BYTE_SIZE * (name.len() + value.len());
        let value = json!(in alloc; {
            "name": name,
            "value": value,
            "variablesReference": reference
        })?;
        Ok(Row { value, size })
    }
}

/// Returns the body for `variables`.
///
/// # Errors
///
/// An allocation failed.
pub fn variables(alloc: Global, all: Vec<Variable>) -> Result<Value, AllocError>
    ensures { IfOk result (λ body. view body ≡ variables (map plain_shown_variable all.items)) }
{
    variables_body(alloc, list_of(alloc, all)?)
}

/// Returns the body with this array of variables.
fn variables_body(alloc: Global, all: Value) -> Result<Value, AllocError>
    ensures { IfOk result (λ body. view body ≡ body_of (codes "variables") (view all)) }
{
    json!(in alloc; {"variables": all})
}

/// Returns the body for `evaluate`: the value as it is shown, and the reference by which the variables inside are asked
/// for, or 0 where there are none.
///
/// # Errors
///
/// An allocation failed.
pub fn evaluated(alloc: Global, value: String, reference: u64) -> Result<Value, AllocError>
    ensures { IfOk result (λ body. view body ≡ evaluated (string_bytes value) reference) }
{
    let value = shown_text(value)?;
    json!(in alloc; {"result": value, "variablesReference": reference})
}

/// Returns the body for `exceptionInfo`: which fault it is, and what that means. The debuggee stops at each fault.
///
/// # Errors
///
/// An allocation failed.
pub fn exception_info(alloc: Global, id: &str, description: &str) -> Result<Value, AllocError>
    ensures { IfOk result (λ body. view body ≡ exception_info id.now description.now) }
{
    let description = shown_text(String::from_str(alloc, description)?)?;
    let id = shown_text(String::from_str(alloc, id)?)?;
    json!(in alloc; {"breakMode": "always", "description": description, "exceptionId": id})
}

/// Returns the body for `threads`: the one thread, and its name.
///
/// # Errors
///
/// An allocation failed.
pub fn threads(alloc: Global, name: &str) -> Result<Value, AllocError>
    ensures { IfOk result (λ body. view body ≡ threads name.now) }
{
    json!(in alloc; {"threads": [{"id": THREAD, "name": name}]})
}
