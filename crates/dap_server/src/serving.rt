//! The conversation with a client.

ghost use Rattle.std.specs.Prelude.{◌≡◌, true, not, None, IfOk, IfErr, OnOk, option_map};
ghost use Rattle.byte_streams.specs.Streams.{Appends};
ghost use Rattle.serde_json.specs.View.{view};
ghost use Rattle.dap_frame.specs.Frame.{IsOpen};
ghost use Rattle.dap_server.specs.Requests.{request_of, IsReadAs};
ghost use Rattle.dap_server.specs.Messages.{leaves};
ghost use Rattle.dap_server.specs.Conversation.{state, Answers, Turns, Progress};
ghost use Rattle.dap_server.specs.ServingInbox.{ServedInbox, OwesNothing, OutputFailures};
ghost use Rattle.dap_server.specs.Serving.{stays, FailsAt, FailsIn, HasFailed, Failures, Stops, Served};
ghost use Rattle.dap_server.specs.declared.serving.Client.TheVariants.{Stays};

use crate::ending::{Ending, ServeFault};
use crate::inbox::Inbox;
use crate::messages::frames_of;
use crate::pace::Waiting;
use crate::reading::{command_of, is_request, leaves, seq_of};
use crate::responder::Responder;
use crate::working::converse;
use byte_streams::{Sink, Source, WriteFailed, write_all};
use dap_frame::Decoder;
use serde_json::Value;
use std::alloc::{AllocError, Global};
use std::sync::Wait;

/// Whether the client is still there.
#[derive(Clone, Copy)]
pub(crate) enum Client {
    Stays,
    Left,
}

/// Serves a client until its `disconnect` is answered or its input ends.
///
/// # Errors
///
/// `Input`, `Framing`: each request before the failed read or the fault was answered. `NoSeq`, `NoMemory`: each request
/// before one that still stands there was answered; `NoMemory` also where there is no room for the bytes read last. In
/// these cases whole responses and events were written. `Output`: a prefix was written of what answers the last request.
pub fn serve<R: Responder, I: Source, O: Sink>(
    rt: &impl Wait,
    alloc: Global,
    responder: &mut R,
    input: &mut I,
    output: &mut O,
) -> Result<Ending, ServeFault>
    ensures origin { R.origin responder.new ≡ R.origin responder.old }
    ensures served { Served R.replies responder.old responder.new
        (I.supply input.old) (I.supply input.new) (O.output output.old).written (O.output output.new).written result }
    ensures failures { Failures result (I.supply input.old).failures (I.supply input.new).failures
        (O.output output.old).failures (O.output output.new).failures }
{
    serve_inbox(rt, alloc, responder, input, output)
}

/// Serves a client until its `disconnect` is answered or no more comes, and sends the events of the inbox, each when it is
/// taken: after the answers to all requests that had come whole before it, and before any later one's.
///
/// # Errors
///
/// As [`serve`]. `NoSeq`, `NoMemory` and `Output` also where an event can't be sent.
pub fn serve_inbox<R: Responder, I: Inbox<O>, O: Sink>(
    rt: &impl Wait,
    alloc: Global,
    responder: &mut R,
    inbox: &mut I,
    output: &mut O,
) -> Result<Ending, ServeFault>
    // An item may be waited for wherever nothing is owed. So none is waited for elsewhere, whether the session ends or not.
    requires { (i : I) (o : O) → OwesNothing R.replies I.gives responder.old inbox.old i
        (O.output output.old).written (O.output o).written → I.may_wait i o }
    ensures origin { R.origin responder.new ≡ R.origin responder.old }
    ensures served { ServedInbox R.replies I.gives responder.old responder.new inbox.old inbox.new
        (O.output output.old).written (O.output output.new).written result }
    ensures failures { OutputFailures result (O.output output.old).failures (O.output output.new).failures }
{
    converse::<Waiting, R, I, O>(rt, alloc, responder, inbox, output)
}

/// Answers each request that has come whole.
pub(crate) fn answer_all<R: Responder, O: Sink>(
    rt: &impl Wait,
    alloc: Global,
    responder: &mut R,
    decoder: &mut Decoder,
    next: &mut u64,
    output: &mut O,
) -> Result<Client, ServeFault>
    requires { decoder.old.fault ≡ None }
    ensures origin { R.origin responder.new ≡ R.origin responder.old }
    ensures ok { IfOk result (λ client. Progress R.replies (state responder.old next.old true)
        (state responder.new next.new (stays client)) decoder.old.rest decoder.new.rest
        (Appends (O.output output.old).written (O.output output.new).written)) }
    ensures open { IfOk result (λ client. client ≡ Stays → IsOpen decoder.new.rest) }
    ensures sound { OnOk result (decoder.new.fault ≡ None) }
    ensures count { OnOk result ((O.output output.new).failures ≡ (O.output output.old).failures) }
    ensures err { IfErr result (λ fault. Stops fault R.replies (state responder.old next.old true) decoder.old.rest
        responder.new (O.output output.old).written (O.output output.new).written) }
    ensures failed { IfErr result (λ fault.
        HasFailed fault (O.output output.old).failures (O.output output.new).failures) }
{
    for _ in rt.forever() {
        let front = match decoder.front() {
            Ok(Some(front)) => front,
            Ok(None) => return Ok(Client::Stays),
            Err(fault) => return Err(ServeFault::Framing(fault)),
        };
        let outcome = answer(rt, alloc, decoder.content(front), responder, next, output);
        decoder.pass(front);
        match outcome? {
            Client::Stays => {}
            Client::Left => return Ok(Client::Left),
        }
    }
    unreachable!()
}

/// Answers a content, if it is a request.
fn answer<R: Responder, O: Sink>(
    rt: &impl Wait,
    alloc: Global,
    content: &[u8],
    responder: &mut R,
    next: &mut u64,
    output: &mut O,
) -> Result<Client, ServeFault>
    ensures origin { R.origin responder.new ≡ R.origin responder.old }
    ensures ok { IfOk result (λ client. Turns R.replies (state responder.old next.old true) content.now
        (state responder.new next.new (stays client)) (Appends (O.output output.old).written (O.output output.new).written)) }
    ensures count { OnOk result ((O.output output.new).failures ≡ (O.output output.old).failures) }
    ensures err { IfErr result (λ fault. FailsIn fault R.replies (state responder.old next.old true) content.now
        responder.new (O.output output.old).written (O.output output.new).written) }
    ensures failed { IfErr result (λ fault.
        HasFailed fault (O.output output.old).failures (O.output output.new).failures) }
{
    match read(alloc, content)? {
        Some(value) => answer_value(rt, alloc, &value, responder, next, output),
        None => Ok(Client::Stays),
    }
}

/// Reads a content as a value; `None` where it is none.
fn read(alloc: Global, content: &[u8]) -> Result<Option<Value>, AllocError>
    ensures { IfOk result (λ value. IsReadAs content.now (option_map view value)) }
{
    match Value::from_slice(alloc, content) {
        Ok(value) => Ok(Some(value)),
        Err(error) if error.is_memory() => Err(AllocError),
        Err(_) => Ok(None),
    }
}

/// Answers a value, if it is a request.
fn answer_value<R: Responder, O: Sink>(
    rt: &impl Wait,
    alloc: Global,
    value: &Value,
    responder: &mut R,
    next: &mut u64,
    output: &mut O,
) -> Result<Client, ServeFault>
    ensures origin { R.origin responder.new ≡ R.origin responder.old }
    ensures ok { IfOk result (λ client. Answers R.replies (state responder.old next.old true)
        (request_of (view value.now)) (state responder.new next.new (stays client))
        (Appends (O.output output.old).written (O.output output.new).written)) }
    ensures count { OnOk result ((O.output output.new).failures ≡ (O.output output.old).failures) }
    ensures err { IfErr result (λ fault. FailsAt fault R.replies (state responder.old next.old true)
        (request_of (view value.now)) responder.new (O.output output.old).written (O.output output.new).written) }
    ensures failed { IfErr result (λ fault.
        HasFailed fault (O.output output.old).failures (O.output output.new).failures) }
{
    if !is_request(value) {
        return Ok(Client::Stays);
    }
    let Some(seq) = seq_of(value) else {
        return Ok(Client::Stays);
    };
    let Some(command) = command_of(value) else {
        return Ok(Client::Stays);
    };
    let reply = responder.respond(alloc, command, value.get("arguments"))?;
    let bytes = frames_of(alloc, reply, seq, command, next)?;
    match write_all(rt, output, bytes.as_slice()) {
        Ok(()) => Ok(client_after(command)),
        Err(WriteFailed) => Err(ServeFault::Output),
    }
}

/// Whether the client stays after this command.
fn client_after(command: &str) -> Client
    ensures { stays result ≡ not (leaves command.now) }
{
    if leaves(command) {
        Client::Left
    } else {
        Client::Stays
    }
}
