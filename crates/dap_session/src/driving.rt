//! A whole session: the loop over its events.

ghost use Rattle.std.specs.Prelude.{◌≡◌, ◌∷◌, [], ℕ, List, Option, None, Some, option_map, string_bytes, OnOk, IfSome};
ghost use Rattle.dap_history.specs.Events.{AreLawful};
ghost use Rattle.dap_session.specs.Coming.{Sources, ComesFrom, sources};
ghost use Rattle.dap_session.specs.Incoming.{incoming_of};
ghost use Rattle.dap_session.specs.Ports.{ports};
ghost use Rattle.dap_session.specs.Sending.{HasTriedQuit};
ghost use Rattle.dap_session.specs.Serving.{Driven, OwesOnly};

use crate::ports::{Event, GuardedLoader, Inbox, OrderFault, Orders, Out};
use crate::session::Session;
use crate::want::Want;
use dap_history::{Closed, SessionFault};
use dap_msg::Dialect;
use dbg_runner::Order;
use std::alloc::Global;
use std::sync::Wait;

/// Takes events until the session is closed or gives up, and returns what closed it. The client speaks `dialect`.
/// Where the session wants a file, the loader is asked for it before the next event is taken. It blocks while the inbox
/// or the loader does.
///
/// # Errors
///
/// At a framing fault, all was sent that the contents before it cause. At any other fault, what was sent is a prefix of
/// what the events cause. Either way one order to quit is tried then. `NoMemory` is returned only at an event that needs
/// memory.
pub fn drive<I: Inbox<L, O, D>, L: GuardedLoader<I, O, D>, O: Out, D: Orders>(
    rt: &impl Wait,
    alloc: Global,
    dialect: Dialect,
    inbox: &mut I,
    loader: &mut L,
    out: &mut O,
    orders: &mut D,
) -> Result<Closed, SessionFault>
    // The inbox may be asked wherever nothing is owed, and the loader wherever nothing is but the launch of the file. So
    // they are asked nowhere else, whether the session ends or not.
    requires { (path : Option (List ℕ)) (i : I) (l : L) (o : O) (d : D) → OwesOnly dialect path
        (sources (I.given inbox.old) (L.loaded loader.old)) (sources (I.given i) (L.loaded l))
        (ports (O.seen out.old) (D.seen orders.old)) (ports (O.seen o) (D.seen d))
        → I.origin i ≡ I.origin inbox.old → L.origin l ≡ L.origin loader.old
        → O.origin o ≡ O.origin out.old → D.origin d ≡ D.origin orders.old
        → (O.keeps_none out.old → O.keeps_none o)
        → (path ≡ None → I.may_ask i l o d) × ((file : List ℕ) → path ≡ Some file → L.may_load l file i o d) }
    ensures driven { Driven dialect result (I.given inbox.old) (I.given inbox.new)
        (L.loaded loader.old) (L.loaded loader.new) (ports (O.seen out.old) (D.seen orders.old))
        (ports (O.seen out.new) (D.seen orders.new)) }
    ensures inbox { I.origin inbox.new ≡ I.origin inbox.old }
    ensures loader { L.origin loader.new ≡ L.origin loader.old }
    // Where no frame was kept before, none is while the session waits, nor once it is closed.
    ensures passed { O.keeps_none out.old → OnOk result (O.keeps_none out.new) }
    ensures out { O.origin out.new ≡ O.origin out.old }
    ensures orders { D.origin orders.new ≡ D.origin orders.old }
{
    let mut session = Session::new(alloc, dialect);
    let mut wanted = None;
    for _ in rt.forever() {
        let event = next_event(&wanted, inbox, loader, out, orders);
        match session.take(event, out, orders) {
            Ok(Want::Event) => wanted = None,
            Ok(Want::File(path)) => wanted = Some(path),
            Ok(Want::Closed) => match session.closed() {
                Some(closed) => return Ok(closed),
                None => unreachable!(),
            },
            Err(fault) => {
                try_quit(orders);
                return Err(fault);
            }
        }
    }
    unreachable!()
}

/// Returns the next event: the loader's answer where a file is wanted, and otherwise the next event of the inbox.
fn next_event<I: Inbox<L, O, D>, L: GuardedLoader<I, O, D>, O, D>(
    wanted: &Option<String>,
    inbox: &mut I,
    loader: &mut L,
    out: &O,
    orders: &D,
) -> Event
    requires asks { wanted.now ≡ None → I.may_ask inbox.old loader.old out.now orders.now }
    requires loads { IfSome wanted.now (λ path.
        L.may_load loader.old (string_bytes path) inbox.old out.now orders.now) }
    ensures from { ComesFrom (option_map (λ path. string_bytes path) wanted.now) (incoming_of result)
        (sources (I.given inbox.old) (L.loaded loader.old))
        (sources (I.given inbox.new) (L.loaded loader.new)) }
    ensures lawful { AreLawful (incoming_of result ∷ []) }
    ensures origin { I.origin inbox.new ≡ I.origin inbox.old }
    ensures loader { L.origin loader.new ≡ L.origin loader.old }
{
    match wanted {
        Some(path) => Event::File(loader.load(path.as_str(), inbox, out, orders)),
        None => lawful(inbox.next(loader, out, orders)),
    }
}

/// Returns the event unchanged. It exists so that the proof can use that each report is lawful.
fn lawful(event: Event) -> Event
    ensures same { result ≡ event }
    ensures lawful { AreLawful (incoming_of result ∷ []) }
{
    match event {
        Event::Report(report) => {
            report.summary();
            Event::Report(report)
        }
        event => event,
    }
}

/// Pushes the order to quit. A refusal isn't reported.
fn try_quit<D: Orders>(orders: &mut D)
    ensures quit { HasTriedQuit (D.seen orders.old) (D.seen orders.new) }
    ensures origin { D.origin orders.new ≡ D.origin orders.old }
{
    match orders.push(Order::Quit) {
        Ok(()) | Err(OrderFault::Full | OrderFault::Gone) => {}
    }
}
