//! Answers written as contents: their constant parts are appended whole. The bytes are those that the library's writer
//! gives, in fewer instructions.

ghost use Rattle.std.specs.Prelude.{◌≡◌, ◌++◌, ℕ, List, [], true, IfOk, OnOk, Some, codes, map, string_bytes};
ghost use Rattle.serde_json.specs.Data.{string, member};
ghost use Rattle.dap_msg.specs.Writing.{frame_end, list_opening, numbers_text, PutsValue, PutsOpening, PutsItems, PutsMembers};
ghost use Rattle.dap_msg.specs.Evaluate.{value_body};
ghost use Rattle.dap_msg.specs.Outgoing.{success_value, refused_value, refusal_text, response_end, body_data};
ghost use Rattle.dap_msg.specs.Lists.{list_body};
ghost use Rattle.dap_msg.specs.Questions.{shown_data};
ghost use Rattle.dap_msg.specs.SetBreakpoints.{breakpoint};
ghost use Rattle.dap_msg.specs.StackTrace.{stack_frame, stack_trace_body};
ghost use Rattle.dap_msg.specs.Writing.{IsContent};
ghost use Rattle.dap_msg.specs.declared.outgoing.BreakpointAnswer.TheVariants.{At, Unverified};

use crate::draft::Draft;
use crate::outgoing::{
    Body, BreakpointAnswer, BreakpointRefusal, Refusal, Scope, StackFrame, Variable,
};
use crate::question::Shown;
use std::alloc::AllocError;

/// The beginning of the answer to `initialize`.
const CAPABILITIES: &str =
    "{\"body\":{\"supportsConditionalBreakpoints\":true,\"supportsConfigurationDoneRequest\":true,\"supportsHitConditionalBreakpoints\":true,\"supportsLogPoints\":true,\"supportsStepBack\":true},";

/// Returns the content of a successful answer, in the memory of `room` as far as that goes.
pub(crate) fn success_content(
    room: Vec<u8>,
    body: &Body,
    request_seq: u64,
    command: &str,
    seq: u64,
) -> Result<Vec<u8>, AllocError>
    requires { room.items ≡ [] }
    ensures { IfOk result (λ content.
        IsContent (success_value (body_data body.now) request_seq command.now seq) content.items) }
{
    let mut text = Draft::new(room);
    put_body(&mut text, body)?;
    put_end(&mut text, request_seq, command, seq)?;
    text.finish()
}

/// Returns the content of a refusal, in the memory of `room` as far as that goes.
pub(crate) fn refusal_content(
    room: Vec<u8>,
    refusal: Refusal,
    request_seq: u64,
    command: &str,
    seq: u64,
) -> Result<Vec<u8>, AllocError>
    requires { room.items ≡ [] }
    ensures { IfOk result (λ content.
        IsContent (refused_value (refusal_text refusal) request_seq command.now seq) content.items) }
{
    let message = refusal.message(*room.allocator())?;
    let mut text = Draft::new(room);
    put_refusal(&mut text, message.as_str(), request_seq, command, seq)?;
    text.finish()
}

/// Appends the value of a refusal with this message.
fn put_refusal(
    text: &mut Draft,
    message: &str,
    request_seq: u64,
    command: &str,
    seq: u64,
) -> Result<(), AllocError>
    ensures { OnOk result
        (PutsValue (refused_value message.now request_seq command.now seq) text.old text.new) }
{
    text.put("{\"body\":{},\"command\":\"")?;
    text.put_escaped(command)?;
    text.put("\",\"message\":\"")?;
    text.put_escaped(message)?;
    put_numbers(text, request_seq, seq)?;
    text.put(",\"success\":false,\"type\":\"response\"}")
}

/// Appends the beginning of a successful answer: its body, if it has one.
fn put_body(text: &mut Draft, body: &Body) -> Result<(), AllocError>
    ensures { OnOk result (PutsOpening (body_data body.now) text.old text.new) }
{
    match body {
        Body::None => text.put("{"),
        Body::Capabilities => text.put(CAPABILITIES),
        Body::Breakpoints(answers) => {
            put_list(text, "{\"body\":{\"breakpoints\":[", answers.as_slice())
        }
        Body::Threads => text.put("{\"body\":{\"threads\":[{\"id\":1,\"name\":\"main\"}]},"),
        Body::Continued => text.put("{\"body\":{\"allThreadsContinued\":true},"),
        Body::Shown(shown) => put_shown(text, shown),
    }
}

/// Appends the members of a successful answer after its body.
fn put_end(text: &mut Draft, request_seq: u64, command: &str, seq: u64) -> Result<(), AllocError>
    ensures { OnOk result (PutsMembers
        (member (codes "command") (string command.now) (response_end request_seq seq true))
        text.old text.new) }
{
    text.put("\"command\":\"")?;
    text.put_escaped(command)?;
    put_numbers(text, request_seq, seq)?;
    text.put(",\"success\":true,\"type\":\"response\"}")
}

/// Appends the two numbers of an answer, after the text before them and its quote.
fn put_numbers(text: &mut Draft, request_seq: u64, seq: u64) -> Result<(), AllocError>
    ensures { OnOk result (text.new ≡ text.old ++ numbers_text request_seq seq) }
{
    text.put("\",\"request_seq\":")?;
    text.put_whole(request_seq)?;
    text.put(",\"seq\":")?;
    text.put_whole(seq)
}

/// Something that is written as a value.
trait Written {
    ghost use Rattle.std.specs.Prelude.{OnOk};
    ghost use Rattle.serde_json.specs.Data.{Data};
    ghost use Rattle.dap_msg.specs.Writing.{PutsValue};

    /// The value as which it is written.
    ghost value: { Self → Data };

    /// Appends it to a text.
    fn put_to(&self, text: &mut Draft) -> Result<(), AllocError>
        ensures { OnOk result (PutsValue (value self.now) text.old text.new) };
}

/// Appends the beginning of an answer whose body is a list: what stands before its items, and these with commas between
/// them.
fn put_list<T: Written>(text: &mut Draft, opening: &str, all: &[T]) -> Result<(), AllocError>
    ensures { (key : List ℕ) → opening.now ≡ list_opening key
        → OnOk result (PutsOpening (Some (list_body key (map T.value all.now))) text.old text.new) }
{
    text.put(opening)?;
    let mut is_later = false;
    for one in all {
        text.put_comma_if(is_later)?;
        one.put_to(text)?;
        is_later = true;
    }
    text.put("]},")
}

impl Written for BreakpointAnswer {
    ghost use Rattle.dap_msg.specs.SetBreakpoints.{breakpoint};

    ghost value = { breakpoint };

    fn put_to(&self, text: &mut Draft) -> Result<(), AllocError> {
        match *self {
            BreakpointAnswer::At(line) => put_verified(text, line),
            BreakpointAnswer::Unverified(why) => put_unverified(text, why),
        }
    }
}

impl Written for Scope {
    ghost use Rattle.dap_msg.specs.Scopes.{scope};

    ghost value = { scope };

    fn put_to(&self, text: &mut Draft) -> Result<(), AllocError> {
        text.put("{\"expensive\":false,\"name\":\"")?;
        text.put_escaped(self.name.as_str())?;
        text.put("\",\"variablesReference\":")?;
        text.put_whole(self.reference)?;
        text.put("}")
    }
}

impl Written for Variable {
    ghost use Rattle.dap_msg.specs.Variables.{variable};

    ghost value = { variable };

    fn put_to(&self, text: &mut Draft) -> Result<(), AllocError> {
        text.put("{\"name\":\"")?;
        text.put_escaped(self.name.as_str())?;
        text.put("\",\"value\":\"")?;
        text.put_signed(self.value)?;
        text.put("\",\"variablesReference\":0}")
    }
}

/// Appends the answer to a line at which a breakpoint is set.
fn put_verified(text: &mut Draft, line: u64) -> Result<(), AllocError>
    ensures { OnOk result (PutsValue (breakpoint (At line)) text.old text.new) }
{
    text.put("{\"line\":")?;
    text.put_whole(line)?;
    text.put(",\"verified\":true}")
}

/// Appends the answer to a line at which none is set, and why.
fn put_unverified(text: &mut Draft, why: BreakpointRefusal) -> Result<(), AllocError>
    ensures { OnOk result (PutsValue (breakpoint (Unverified why)) text.old text.new) }
{
    text.put("{\"message\":\"")?;
    text.put_escaped(why.message())?;
    text.put("\",\"verified\":false}")
}

/// Appends the beginning of the answer to a question.
fn put_shown(text: &mut Draft, shown: &Shown) -> Result<(), AllocError>
    ensures { OnOk result (PutsOpening (Some (shown_data shown.now)) text.old text.new) }
{
    match shown {
        Shown::StackTrace {
            path,
            frames,
            total,
        } => put_stack_trace_body(text, path.as_str(), frames.as_slice(), *total),
        Shown::Scopes(found) => put_list(text, "{\"body\":{\"scopes\":[", found.as_slice()),
        Shown::Variables(found) => put_list(text, "{\"body\":{\"variables\":[", found.as_slice()),
        Shown::Value(value) => put_value_body(text, *value),
    }
}

/// Appends the beginning of the answer to `stackTrace`.
fn put_stack_trace_body(
    text: &mut Draft,
    path: &str,
    frames: &[StackFrame],
    total: u64,
) -> Result<(), AllocError>
    ensures { OnOk result
        (PutsOpening (Some (stack_trace_body path.now frames.now total)) text.old text.new) }
{
    text.put("{\"body\":{\"stackFrames\":[")?;
    put_frames(text, path, frames)?;
    text.put("],\"totalFrames\":")?;
    text.put_whole(total)?;
    text.put("},")
}

/// Appends frames with commas between them.
fn put_frames(text: &mut Draft, path: &str, frames: &[StackFrame]) -> Result<(), AllocError>
    ensures { OnOk result
        (PutsItems (map (stack_frame path.now) frames.now) text.old text.new) }
{
    let end = frame_end(text.beside(), path)?;
    let mut is_later = false;
    for frame in frames {
        text.put_comma_if(is_later)?;
        put_frame(text, frame, end.as_str())?;
        is_later = true;
    }
    Ok(())
}

/// Returns what stands after its name in each frame whose source has this path, put together in `end`.
fn frame_end(mut end: Draft, path: &str) -> Result<String, AllocError>
    requires { end ≡ [] }
    ensures { IfOk result (λ end. string_bytes end ≡ frame_end path.now) }
{
    end.put("\",\"source\":{\"path\":\"")?;
    end.put_escaped(path)?;
    end.put("\"}}")?;
    end.into_text()
}

/// Appends a frame that ends so.
fn put_frame(text: &mut Draft, frame: &StackFrame, end: &str) -> Result<(), AllocError>
    ensures { (path : List ℕ) → end.now ≡ frame_end path
        → OnOk result (PutsValue (stack_frame path frame.now) text.old text.new) }
{
    text.put("{\"column\":")?;
    text.put_whole(frame.column)?;
    text.put(",\"id\":")?;
    text.put_whole(frame.id)?;
    text.put(",\"line\":")?;
    text.put_whole(frame.line)?;
    text.put(",\"name\":\"")?;
    text.put_escaped(frame.name.as_str())?;
    text.put(end)
}

/// Appends the beginning of the answer to `evaluate`.
fn put_value_body(text: &mut Draft, value: i64) -> Result<(), AllocError>
    ensures { OnOk result (PutsOpening (Some (value_body value)) text.old text.new) }
{
    text.put("{\"body\":{\"result\":\"")?;
    text.put_signed(value)?;
    text.put("\",\"variablesReference\":0},")
}
