//! What is told of a run.

ghost use Rattle.std.specs.Prelude.{◌≡◌, ◌++◌, ◌∷◌, [], IfOk, OnOk, map, option_map, string_bytes};
ghost use Rattle.dap_server.specs.Messages.{plain_event};
ghost use Rattle.debuggee.specs.Plain.{plain_halt, plain_output};
ghost use Rattle.dap_bodies.specs.Events.{output};
ghost use Rattle.dap_debug.specs.Telling.{AddsEvents, TellAll, TellOne, TellPieces, Tells, end_with, merge, merged, told_end};

use dap_bodies::{exited, output, split_text, stopped, terminated};
use dap_server::Event;
use debuggee::{Halt, Output};
use std::alloc::{AllocError, Global};

/// Returns the events that tell of a part of a run: all that was told, in as few as there can be with at most
/// 65,536 bytes each, and then why it halted, if it did.
///
/// # Errors
///
/// An allocation failed.
pub fn tell(alloc: Global, told: Vec<Output>, halt: &Option<Halt>) -> Result<Vec<Event>, AllocError>
    ensures { IfOk result (λ events. Tells (map plain_output told.items) (option_map plain_halt halt.now)
        (map plain_event events.items)) }
{
    let texts = merged(alloc, told)?;
    let mut events = events_of(alloc, texts)?;
    tell_end(alloc, halt, &mut events)?;
    Ok(events)
}

/// Returns the texts, of which those of one kind that follow each other are one.
fn merged(alloc: Global, told: Vec<Output>) -> Result<Vec<Output>, AllocError>
    ensures { IfOk result (λ texts. map plain_output texts.items ≡ merged (map plain_output told.items)) }
{
    let mut texts = Vec::new(alloc);
    for one in told {
        add(&mut texts, one)?;
    }
    Ok(texts)
}

/// Adds a text: to the last one, where both are of one kind.
fn add(texts: &mut Vec<Output>, one: Output) -> Result<(), AllocError>
    ensures { OnOk result (map plain_output texts.new.items ≡
        end_with (map plain_output texts.old.items) (plain_output one)) }
{
    let Some(last) = texts.pop() else {
        texts.push(one)?;
        return Ok(());
    };
    push_both(texts, last, one)?;
    Ok(())
}

/// Adds two texts, as one where both are of one kind.
fn push_both(texts: &mut Vec<Output>, first: Output, next: Output) -> Result<(), AllocError>
    ensures { OnOk result (map plain_output texts.new.items ≡ map plain_output texts.old.items
        ++ merge (plain_output first) (plain_output next ∷ [])) }
{
    match (first, next) {
        (Output::Printed(text), Output::Printed(more)) => {
            texts.push(Output::Printed(longer(text, more)?))?;
        }
        (Output::Logged(text), Output::Logged(more)) => {
            texts.push(Output::Logged(longer(text, more)?))?;
        }
        (Output::Printed(text), Output::Logged(more)) => {
            texts.push(Output::Printed(text))?;
            texts.push(Output::Logged(more))?;
        }
        (Output::Logged(text), Output::Printed(more)) => {
            texts.push(Output::Logged(text))?;
            texts.push(Output::Printed(more))?;
        }
    }
    Ok(())
}

/// Returns a text, and another after it.
fn longer(text: String, more: String) -> Result<String, AllocError>
    ensures { IfOk result (λ all. string_bytes all ≡ string_bytes text ++ string_bytes more) }
{
    let mut all = text;
    all.push_str(more.as_str())?;
    Ok(all)
}

/// Returns the events that tell these texts.
fn events_of(alloc: Global, texts: Vec<Output>) -> Result<Vec<Event>, AllocError>
    ensures { IfOk result (λ events. TellAll (map plain_output texts.items) (map plain_event events.items)) }
{
    let mut events = Vec::new(alloc);
    for one in texts {
        tell_one(alloc, one, &mut events)?;
    }
    Ok(events)
}

/// Adds the events that tell what the program has printed, or what a breakpoint says.
fn tell_one(alloc: Global, told: Output, events: &mut Vec<Event>) -> Result<(), AllocError>
    ensures { OnOk result (AddsEvents (TellOne (plain_output told)) (map plain_event events.old.items)
        (map plain_event events.new.items)) }
{
    match told {
        Output::Printed(text) => tell_pieces(alloc, "stdout", text.as_str(), events),
        Output::Logged(text) => tell_pieces(alloc, "console", text.as_str(), events),
    }
}

/// Adds the events that tell a text of this category, in pieces.
fn tell_pieces(
    alloc: Global,
    category: &str,
    text: &str,
    events: &mut Vec<Event>,
) -> Result<(), AllocError>
    ensures { OnOk result (AddsEvents (TellPieces category.now text.now) (map plain_event events.old.items)
        (map plain_event events.new.items)) }
{
    let mut rest = text;
    while let Some((piece, left)) = split_text(rest) {
        tell_piece(alloc, category, piece, events)?;
        rest = left;
    }
    tell_piece(alloc, category, rest, events)
}

/// Adds the event that tells a text of this category.
fn tell_piece(
    alloc: Global,
    category: &str,
    piece: &str,
    events: &mut Vec<Event>,
) -> Result<(), AllocError>
    ensures { OnOk result (map plain_event events.new.items ≡
        map plain_event events.old.items ++ output category.now piece.now ∷ []) }
{
    let text = String::from_str(alloc, piece)?;
    events.push(output(alloc, category, text)?)?;
    Ok(())
}

/// Adds why a run halted, if it did.
fn tell_end(alloc: Global, halt: &Option<Halt>, events: &mut Vec<Event>) -> Result<(), AllocError>
    ensures { OnOk result (map plain_event events.new.items ≡
        map plain_event events.old.items ++ told_end (option_map plain_halt halt.now)) }
{
    match halt {
        None => {}
        Some(Halt::AtBreakpoint) => events.push(stopped(alloc, "breakpoint", None)?)?,
        Some(Halt::AtStep) => events.push(stopped(alloc, "step", None)?)?,
        Some(Halt::AtFault(fault)) => {
            events.push(stopped(alloc, "exception", Some(fault.text.as_str()))?)?;
        }
        Some(Halt::AtEnd(status)) => {
            events.push(exited(alloc, *status)?)?;
            events.push(terminated(alloc)?)?;
        }
    }
    Ok(())
}
