//! The inbox of a session: a queue of what a client sends and of the runner's reports.

ghost use Rattle.std.specs.Prelude.{◌≡◌, ◌<◌, ◌++◌, ◌∷◌, [], true, false, Ok, IfOk, IfErr, OnOk, OnErr, IsTrue};
ghost use Rattle.dap_session.specs.Incoming.{incoming_of};
ghost use Rattle.dap_session.specs.Sending.{IsPrefixOf};
ghost use Rattle.dbg_runner.specs.Reported.{plain_report};
ghost use Rattle.dap_wires.specs.Inbox.{client_events, returned_events, put_reports, sent_reports, kept_count, refused_reports, taken_events, client_queue, report_queue, event_queue, left_queue, received};
ghost use Rattle.dap_wires.specs.Rooms.{quiet_room};
ghost use Rattle.dap_wires.specs.Senders.{is_report, is_quiet, from_client, reports_among};

use crate::arrival::{Arrival, is_quiet, outputs_of};
use crate::channels::{channel, reconcile};
use crate::event_ends::{ClientSender, InboxLog, ReportSender};
use crate::event_receiver::EventReceiver;
use crate::window::output_window;
use dap_session::Event;
use dbg_runner::{GhostList, Report, Reports};
use std::alloc::{AllocError, Global};
use std::collections::VecDeque;
use std::mem;
use std::sync::Wait;

/// How many messages the queue of an inbox has room for.
const INBOX_CAPACITY: usize = 64;

/// The largest number of quiet reports that cross an inbox in one message. Sending each by itself would take longer than
/// its slice.
const QUIET_LIMIT: usize = 16;

/// Makes an inbox. Returns the ends of the reader, of the runner and of the session.
///
/// # Errors
///
/// `AllocError`, where an allocation failed.
pub fn inbox<R: Copy + Drop>(
    rt: R,
    alloc: Global,
) -> Result<(ClientSender<R>, ReportSender<R>, EventReceiver<R>), AllocError>
    ensures client { IfOk result (λ r. (client_events r.0 ≡ []) × (returned_events r.0 ≡ [])) }
    ensures reports { IfOk result (λ r. (sent_reports r.1 ≡ []) × (refused_reports r.1 ≡ [])) }
    ensures events { IfOk result (λ r. taken_events r.2 ≡ []) }
    ensures one { IfOk result (λ r. (report_queue r.1 ≡ client_queue r.0) × (event_queue r.2 ≡ client_queue r.0)) }
{
    let (client, reports, events) = channel(rt, alloc, INBOX_CAPACITY)?;
    let (entry, exit) = output_window(alloc)?;
    Ok((
        ClientSender {
            end: client,
            handed_back: GhostList::new(),
        },
        ReportSender {
            alloc,
            end: reports,
            window: entry,
            kept: VecDeque::with_capacity(alloc, QUIET_LIMIT)?,
            handed_back: GhostList::new(),
        },
        EventReceiver::new(alloc, events, exit),
    ))
}

/// Brings the logs of all ends together, when all threads were joined, and proves that what the session received is, of the
/// reader and of the runner, a prefix of what each sent.
pub fn reconcile_inbox<R: Drop>(client: ClientSender<R>, reports: ReportSender<R>, log: InboxLog)
    requires one { (report_queue reports ≡ client_queue client) × (left_queue log ≡ client_queue client) }
    ensures client { IsPrefixOf (from_client (received log)) (client_events client) }
    ensures reports { IsPrefixOf (reports_among (received log)) (sent_reports reports) }
{
    reconcile(client.end, reports.end, log.log);
}

impl<R: Wait + Drop> ClientSender<R> {
    /// Sends an event that is not a report. Blocks while the inbox is full.
    ///
    /// # Errors
    ///
    /// The event, where the session has left the inbox.
    pub fn send(&mut self, event: Event) -> Result<(), Event>
        requires { is_report event ≡ false }
        ensures sent { OnOk result ((client_events self.new ≡ client_events self.old ++ incoming_of event ∷ [])
            × (returned_events self.new ≡ returned_events self.old)) }
        ensures refused { OnErr result ((client_events self.new ≡ client_events self.old)
            × (returned_events self.new ≡ returned_events self.old ++ incoming_of event ∷ [])) }
        ensures back { IfErr result (λ back. back ≡ event) }
        ensures queue { client_queue self.new ≡ client_queue self.old }
    {
        match self.end.send(Arrival::Event(event)) {
            Ok(()) => Ok(()),
            Err(Arrival::Event(back)) => {
                self.handed_back = self.handed_back.and(&back);
                Err(back)
            }
            Err(Arrival::Quiet(_)) => unreachable!(),
        }
    }
}

/// A quiet report is kept, which takes no memory, until one is sent that isn't quiet, or one more than QUIET_LIMIT.
impl<R: Wait + Drop> Reports for ReportSender<R> {
    ghost use Rattle.dap_wires.specs.declared.arrival.Arrival.{Arrival};
    ghost use Rattle.dap_wires.specs.Ends.{QueueId};
    ghost use Rattle.dap_wires.specs.Inbox.{sent_reports, refused_reports, report_queue};

    ghost sent = { sent_reports };

    ghost handed_back = { refused_reports };

    ghost Origin = { QueueId Arrival };

    ghost origin = { report_queue };

    fn send(&mut self, report: Report) -> Result<(), Report>
        ensures sends { OnOk result (sent_reports self.new ≡ sent_reports self.old ++ plain_report report ∷ []) }
        ensures keeps_refused { OnOk result (refused_reports self.new ≡ refused_reports self.old) }
        ensures refuses { OnErr result
            (refused_reports self.new ≡ refused_reports self.old ++ plain_report report ∷ []) }
        ensures keeps_sent { OnErr result (sent_reports self.new ≡ sent_reports self.old) }
        ensures back { IfErr result (λ back. back ≡ report) }
        ensures quiet { is_quiet report ≡ true → kept_count self.old < quiet_room
            → (result ≡ Ok tt) × (put_reports self.new ≡ put_reports self.old) }
        ensures passed { is_quiet report ≡ false → OnOk result (put_reports self.new ≡ sent_reports self.new) }
        ensures origin { report_queue self.new ≡ report_queue self.old }
    {
        if !is_quiet(&report) {
            return self.put(report);
        }
        if self.kept.len() == QUIET_LIMIT && !self.put_kept() {
            return Err(self.hand_back(report));
        }
        self.keep(report);
        Ok(())
    }
}

impl<R: Wait + Drop> ReportSender<R> {
    /// Keeps a quiet report, for which there is room.
    #[tactic(auto, using(crate::proofs::Sending::report_kept, crate::proofs::Sending::quiet_kept))]
    fn keep(&mut self, report: Report)
        requires quiet { is_quiet report ≡ true }
        requires few { kept_count self.old < quiet_room }
        ensures sent { sent_reports self.new ≡ sent_reports self.old ++ plain_report report ∷ [] }
        ensures put { put_reports self.new ≡ put_reports self.old }
        ensures refused { self.new.handed_back ≡ self.old.handed_back }
        ensures queue { report_queue self.new ≡ report_queue self.old }
    {
        self.kept.push_back_reserved(report);
    }

    /// Puts a report into the queue after those that were kept. Blocks while the inbox is full, or the window has no room
    /// for its outputs.
    ///
    /// # Errors
    ///
    /// The report, where the session has left the inbox.
    #[tactic(auto, using(crate::proofs::Sending::report_put, crate::proofs::Sending::all_put))]
    fn put(&mut self, report: Report) -> Result<(), Report>
        ensures sent { OnOk result (sent_reports self.new ≡ sent_reports self.old ++ plain_report report ∷ []) }
        ensures keeps_refused { OnOk result (refused_reports self.new ≡ refused_reports self.old) }
        ensures refused { OnErr result (refused_reports self.new ≡ refused_reports self.old
            ++ plain_report report ∷ []) }
        ensures keeps_sent { OnErr result (sent_reports self.new ≡ sent_reports self.old) }
        ensures back { IfErr result (λ back. back ≡ report) }
        ensures passed { OnOk result (put_reports self.new ≡ sent_reports self.new) }
        ensures queue { report_queue self.new ≡ report_queue self.old }
    {
        if !self.put_kept() {
            return Err(self.hand_back(report));
        }
        self.window.enter(&self.end.rt, outputs_of(&report));
        match self.end.send(Arrival::Event(Event::Report(report))) {
            Ok(()) => Ok(()),
            Err(Arrival::Event(Event::Report(back))) => Err(self.hand_back(back)),
            Err(_) => unreachable!(),
        }
    }

    /// Puts the reports that were kept into the queue, in one message where there is memory for it. Returns `true` where none
    /// is kept any more, and `false` where the session has left the inbox.
    fn put_kept(&mut self) -> bool
        ensures sent { sent_reports self.new ≡ sent_reports self.old }
        ensures refused { self.new.handed_back ≡ self.old.handed_back }
        ensures queue { report_queue self.new ≡ report_queue self.old }
        ensures none { IsTrue result → self.new.kept.items ≡ [] }
        ensures count { IsTrue result → kept_count self.new ≡ 0 }
    {
        if self.kept.is_empty() {
            return true;
        }
        let Ok(empty) = VecDeque::with_capacity(self.alloc, QUIET_LIMIT) else {
            return self.put_each();
        };
        let kept = mem::replace(&mut self.kept, empty);
        match self.end.send(Arrival::Quiet(kept)) {
            Ok(()) => true,
            Err(Arrival::Quiet(back)) => {
                self.kept = back;
                false
            }
            Err(Arrival::Event(_)) => unreachable!(),
        }
    }

    /// Puts the reports that were kept into the queue, each by itself, which takes no memory. Returns what `put_kept` does.
    fn put_each(&mut self) -> bool
        ensures sent { sent_reports self.new ≡ sent_reports self.old }
        ensures refused { self.new.handed_back ≡ self.old.handed_back }
        ensures queue { report_queue self.new ≡ report_queue self.old }
        ensures none { IsTrue result → self.new.kept.items ≡ [] }
        ensures count { IsTrue result → kept_count self.new ≡ 0 }
    {
        for _ in 0..QUIET_LIMIT {
            if !self.put_oldest() {
                return false;
            }
        }
        self.kept.is_empty()
    }

    /// Puts the oldest report that was kept into the queue. Returns `false` where the session has left the inbox.
    #[tactic(auto, using(crate::proofs::Sending::oldest_put, crate::proofs::Sending::quiet_rest))]
    fn put_oldest(&mut self) -> bool
        ensures sent { sent_reports self.new ≡ sent_reports self.old }
        ensures refused { self.new.handed_back ≡ self.old.handed_back }
        ensures queue { report_queue self.new ≡ report_queue self.old }
    {
        let Some(oldest) = self.kept.pop_front() else {
            return true;
        };
        match self.end.send(Arrival::Event(Event::Report(oldest))) {
            Ok(()) => true,
            Err(Arrival::Event(Event::Report(back))) => {
                self.kept.push_front_reserved(back);
                false
            }
            Err(_) => unreachable!(),
        }
    }

    /// Notes that a report is returned as an error, and returns it.
    fn hand_back(&mut self, report: Report) -> Report
        ensures back { result ≡ report }
        ensures refused { refused_reports self.new ≡ refused_reports self.old ++ plain_report report ∷ [] }
        ensures rest { self.new ≡ record self.old { handed_back = self.new.handed_back } }
    {
        self.handed_back = self.handed_back.and(&report);
        report
    }
}
