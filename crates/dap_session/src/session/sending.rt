//! Sending: all frames of an item are built first, then its order is pushed, and then the frames are put.

ghost use Rattle.std.specs.Prelude.{◌≡◌, ◌++◌, ◌∷◌, [], ◌⊎◌, ◌+◌, ◌≤◌, ◌<◌, ◌^◌, map, length, option_map, IfOk, IfErr, OnOk, IsOk, None};
ghost use Rattle.std.specs.Option.{option_to_list};
ghost use Rattle.dap_frame.specs.Frame.{frame_of};
ghost use Rattle.dap_msg.specs.Outgoing.{text_of};
ghost use Rattle.dap_msg.specs.declared.outgoing.Outgoing.TheVariants.{Event};
ghost use Rattle.dbg_runner.specs.Orders.{plain_order};
ghost use Rattle.dap_history.specs.declared.fault.SessionFault.TheVariants.{NoMemory, SeqExhausted};
ghost use Rattle.dap_history.specs.History.{History, with_answer};
ghost use Rattle.dap_history.specs.Output.{frames_from};
ghost use Rattle.dap_replies.specs.Phases.{IsPhase, launch_of};
ghost use Rattle.dap_session.specs.Building.{plain_frames, Built, AddsFrames, IsNotBuilt, IsNotPushed, IsNotPut};

use super::Session;
use crate::ports::{OrderFault, Orders, Out};
use dap_frame::encode;
use dap_history::{SessionFault, reading_laws};
use dap_msg::{EventBody, Items, Outgoing, write};
use dap_replies::{Effect, Phase};
use dbg_runner::Order;
use std::alloc::Global;
use std::marker::Model;

/// The least seq that no message may have.
const SEQ_END: u64 = 1 << 53;

/// The frames of the messages built so far.
#[derive(Drop)]
struct Frames {
    /// The frames, in order.
    frames: Vec<Vec<u8>>,
    /// The seq of the next message.
    next_seq: u64,
}

impl Session {
    ghost use Rattle.std.specs.Prelude.{◌≡◌, ◌≢◌, [], None, Err, OnOk};
    ghost use Rattle.dap_history.specs.declared.fault.SessionFault.TheVariants.{NoMemory};
    ghost use Rattle.dap_history.specs.History.{Step, History, next_seq};
    ghost use Rattle.dap_replies.specs.Phases.{IsPhase, launch_of};
    ghost use Rattle.dap_session.specs.Ports.{ports};
    ghost use Rattle.dap_session.specs.Steps.{IsStepOf, IsStepWith, IsSent};

    /// Sends an answer, if there is one, and its effect, and takes over the effect's phase. No launch waits after it.
    pub(super) fn send<O: Out, D: Orders>(
        &mut self,
        answer: Option<Outgoing>,
        effect: Effect,
        out: &mut O,
        orders: &mut D,
    ) -> Result<(), SessionFault>
        ensures sent { (past : History) (step : Step) → self.old.next_seq ≡ next_seq past →
            IsStepOf answer effect step →
            IsSent result past step self.new
            (ports (O.seen out.old) (D.seen orders.old))
            (ports (O.seen out.new) (D.seen orders.new)) }
        ensures phase { OnOk result ((past : History) → IsPhase effect.phase past → IsPhase self.new.phase past) }
        ensures free { OnOk result (launch_of self.new.phase ≡ None) }
        // Where there is no message, no memory is needed.
        ensures enough { answer ≡ None → effect.events ≡ [] → result ≢ Err NoMemory }
        ensures stream { self.new.stream ≡ self.old.stream }
        ensures ending { self.new.ending ≡ self.old.ending }
        ensures passed { O.keeps_none out.old → OnOk result (O.keeps_none out.new) }
        ensures out { O.origin out.new ≡ O.origin out.old }
        ensures orders { D.origin orders.new ≡ D.origin orders.old }
    {
        let Effect {
            events,
            order,
            phase,
        } = effect;
        self.send_messages(answer, events, order, out, orders)?;
        self.take_over(phase);
        Ok(())
    }

    /// Sends an answer, if there is one, events, and an order, if there is one.
    fn send_messages<O: Out, D: Orders>(
        &mut self,
        answer: Option<Outgoing>,
        events: Items<EventBody>,
        order: Option<Order>,
        out: &mut O,
        orders: &mut D,
    ) -> Result<(), SessionFault>
        ensures sent { (past : History) (step : Step) → self.old.next_seq ≡ next_seq past →
            IsStepWith answer events order step →
            IsSent result past step self.new
            (ports (O.seen out.old) (D.seen orders.old))
            (ports (O.seen out.new) (D.seen orders.new)) }
        ensures enough { answer ≡ None → events ≡ [] → result ≢ Err NoMemory }
        ensures stream { self.new.stream ≡ self.old.stream }
        ensures ending { self.new.ending ≡ self.old.ending }
        ensures passed { O.keeps_none out.old → OnOk result (O.keeps_none out.new) }
        ensures out { O.origin out.new ≡ O.origin out.old }
        ensures orders { D.origin orders.new ≡ D.origin orders.old }
    {
        reading_laws();
        let Frames { frames, next_seq } = Frames::of(
            self.alloc,
            &mut self.content,
            self.next_seq,
            answer,
            events,
        )?;
        push(order, orders)?;
        put(frames, out)?;
        self.next_seq = next_seq;
        Ok(())
    }

    /// Takes over a phase. No launch waits after it.
    fn take_over(&mut self, phase: Phase)
        ensures phase { (past : History) → IsPhase phase past → IsPhase self.new.phase past }
        ensures free { launch_of self.new.phase ≡ None }
        ensures next_seq { self.new.next_seq ≡ self.old.next_seq }
        ensures stream { self.new.stream ≡ self.old.stream }
        ensures ending { self.new.ending ≡ self.old.ending }
    {
        self.phase = without_launch(phase);
    }
}

impl Model for Frames {
    ghost Value = { Built };

    ghost view = { λ all. record { frames = plain_frames all.frames.items; next_seq = all.next_seq } };
}

impl Frames {
    /// Builds the frames of an answer, if there is one, and of events, numbered from `seq` on.
    fn of(
        alloc: Global,
        content: &mut Vec<u8>,
        seq: u64,
        answer: Option<Outgoing>,
        events: Items<EventBody>,
    ) -> Result<Frames, SessionFault>
        ensures frames { IfOk result (λ all. all.frames ≡ frames_from seq (with_answer answer (map Event events))) }
        ensures seq { IfOk result (λ all. all.next_seq ≡ seq + length (with_answer answer (map Event events))) }
        ensures fits { IfOk result (λ all. seq ≤ 2 ^ 53 → all.next_seq ≤ 2 ^ 53) }
        ensures err { IfErr result (λ fault. IsNotBuilt fault seq (with_answer answer (map Event events))) }
        ensures enough { answer ≡ None → events ≡ [] → IsOk result }
    {
        let mut all = Frames {
            frames: Vec::new(alloc),
            next_seq: seq,
        };
        all.add_answer(content, answer)?;
        all.add_events(content, events.into_vec())?;
        Ok(all)
    }

    /// Adds the frame of an answer, if there is one.
    fn add_answer(
        &mut self,
        content: &mut Vec<u8>,
        answer: Option<Outgoing>,
    ) -> Result<(), SessionFault>
        ensures ok { OnOk result (AddsFrames (option_to_list answer) self.old self.new) }
        ensures err { IfErr result (λ fault. IsNotBuilt fault self.old.next_seq (option_to_list answer)) }
        ensures enough { answer ≡ None → IsOk result }
    {
        match answer {
            Some(answer) => self.add(content, &answer),
            None => Ok(()),
        }
    }

    /// Adds the frames of events.
    fn add_events(
        &mut self,
        content: &mut Vec<u8>,
        events: Vec<EventBody>,
    ) -> Result<(), SessionFault>
        ensures ok { OnOk result (AddsFrames (map Event events.items) self.old self.new) }
        ensures err { IfErr result (λ fault. IsNotBuilt fault self.old.next_seq (map Event events.items)) }
        ensures enough { events.items ≡ [] → IsOk result }
    {
        for event in events {
            self.add(content, &Outgoing::Event(event))?;
        }
        Ok(())
    }

    /// Adds the frame of a message.
    fn add(&mut self, content: &mut Vec<u8>, message: &Outgoing) -> Result<(), SessionFault>
        ensures ok { OnOk result (AddsFrames (message.now ∷ []) self.old self.new) }
        ensures err { IfErr result (λ fault. IsNotBuilt fault self.old.next_seq (message.now ∷ [])) }
    {
        let frame = frame(message, self.next_seq, content)?;
        if self.frames.push(frame).is_err() {
            return Err(SessionFault::NoMemory);
        }
        self.next_seq += 1;
        Ok(())
    }
}

/// Returns the phase; if a launch waits in it, it waits no longer.
fn without_launch(phase: Phase) -> Phase
    ensures free { launch_of result ≡ None }
    ensures phase { (past : History) → IsPhase phase past → IsPhase result past }
{
    match phase {
        Phase::Launching(settings, _) => Phase::Ready(settings),
        phase => phase,
    }
}

/// Returns the frame of a message. Its content is written to `content`, which is cleared first.
fn frame(message: &Outgoing, seq: u64, content: &mut Vec<u8>) -> Result<Vec<u8>, SessionFault>
    ensures frame { IfOk result (λ frame. frame.items ≡ frame_of (text_of message.now seq)) }
    ensures fits { OnOk result (seq < 2 ^ 53) }
    ensures cause { IfErr result (λ fault. (fault ≡ NoMemory) ⊎ ((fault ≡ SeqExhausted) × (2 ^ 53 ≤ seq))) }
{
    if seq >= SEQ_END {
        return Err(SessionFault::SeqExhausted);
    }
    content.clear();
    if write(message, seq, content).is_err() {
        return Err(SessionFault::NoMemory);
    }
    let mut frame = Vec::new(*content.allocator());
    if encode(content.as_slice(), &mut frame).is_err() {
        return Err(SessionFault::NoMemory);
    }
    Ok(frame)
}

/// Pushes an order, if there is one.
pub(super) fn push<D: Orders>(order: Option<Order>, orders: &mut D) -> Result<(), SessionFault>
    ensures pushed { OnOk result ((D.seen orders.new).orders ≡ (D.seen orders.old).orders
        ++ option_to_list (option_map plain_order order)) }
    ensures ok_gone { OnOk result ((D.seen orders.new).refusals ≡ (D.seen orders.old).refusals) }
    ensures ok_full { OnOk result ((D.seen orders.new).fulls ≡ (D.seen orders.old).fulls) }
    ensures err { IfErr result (λ fault. IsNotPushed fault (D.seen orders.old) (D.seen orders.new)) }
    ensures origin { D.origin orders.new ≡ D.origin orders.old }
{
    let Some(order) = order else {
        return Ok(());
    };
    match orders.push(order) {
        Ok(()) => Ok(()),
        Err(OrderFault::Full) => Err(SessionFault::OrdersFull),
        Err(OrderFault::Gone) => Err(SessionFault::RunnerGone),
    }
}

/// Puts frames, up to the first that is refused, and passes on all of them.
fn put<O: Out>(mut frames: Vec<Vec<u8>>, out: &mut O) -> Result<(), SessionFault>
    ensures ok { OnOk result ((O.seen out.new).frames ≡ (O.seen out.old).frames ++ plain_frames frames.items) }
    ensures ok_refused { OnOk result ((O.seen out.new).refused ≡ (O.seen out.old).refused) }
    ensures passed { O.keeps_none out.old → OnOk result (O.keeps_none out.new) }
    ensures origin { O.origin out.new ≡ O.origin out.old }
    ensures err { IfErr result (λ fault. IsNotPut fault (plain_frames frames.items) (O.seen out.old) (O.seen out.new)) }
{
    let Some(last) = frames.pop() else {
        return Ok(());
    };
    put_front(frames, out)?;
    match out.put_last(last) {
        Ok(()) => Ok(()),
        Err(_) => Err(SessionFault::WriterGone),
    }
}

/// Puts frames, up to the first that is refused.
fn put_front<O: Out>(frames: Vec<Vec<u8>>, out: &mut O) -> Result<(), SessionFault>
    ensures ok { OnOk result ((O.seen out.new).frames ≡ (O.seen out.old).frames ++ plain_frames frames.items) }
    ensures ok_refused { OnOk result ((O.seen out.new).refused ≡ (O.seen out.old).refused) }
    ensures origin { O.origin out.new ≡ O.origin out.old }
    ensures err { IfErr result (λ fault. IsNotPut fault (plain_frames frames.items) (O.seen out.old) (O.seen out.new)) }
{
    for frame in frames {
        if out.put(frame).is_err() {
            return Err(SessionFault::WriterGone);
        }
    }
    Ok(())
}
