//! What connects a session and a runner with the world and with each other: queues between threads, and the loops that read
//! an input and write an output.
//!
//! The one contract is the rule of the queues (`specs/Delivery`): what was taken and then what is inside is, of each
//! sender, what it put, in its order, each once. [`inbox`], [`outbox`] and [`orders`] make a queue each, whose ends
//! implement the ports of [`dap_session`] and [`dbg_runner`]; [`Wires`] has all of them. [`reconcile_inbox`],
//! [`reconcile_outbox`] and [`reconcile_orders`], and [`reconcile`] for all three, bring the logs of all ends together
//! when all threads were joined, and prove that what was received is a prefix of what was sent. Quiet reports, for which
//! a client gets no message, cross an inbox several at once, and the session receives them one by one. No contract says
//! how many numbers and logs are on their way: at most 512, unless one report has more, so that a client gets at most
//! these, and those of one more slice, between the answer to a pause and the stop. [`read_loop`] and [`write_loop`]
//! stand between a queue and a source or a sink of [`byte_streams`]: the one sends what it read, and the other writes
//! what it took. Each queue and each loop can be used without the others.
//!
//! A call that waits requires that nothing is owed, so it is proved of loops that never end too: a [`SessionInbox`] is
//! asked only where its session has sent all that the events before call for, a [`WriterEnd`] only where its writer has
//! written all frames before, and [`read_loop`] reads only where it has sent all that it read.
#![tactic(auto)]

mod arrival;
mod bundle;
mod bundling;
mod channels;
mod end_log;
mod ends;
mod event_ends;
mod event_receiver;
mod events;
mod frame_ends;
mod frames;
mod order_ends;
mod order_queue;
mod reading;
mod rule;
mod session_inbox;
mod transfer;
mod window;
mod wires;
mod writer_end;
mod writer_message;
mod writing;

pub use arrival::Arrival;
pub use bundle::Bundle;
pub use end_log::EndLog;
pub use event_ends::{ClientSender, InboxLog, ReportSender};
pub use event_receiver::EventReceiver;
pub use events::{inbox, reconcile_inbox};
pub use frame_ends::{EndedSender, FrameReceiver, FrameSender, OutboxLog};
pub use frames::{outbox, reconcile_outbox};
pub use order_ends::{OrderReceiver, OrderSender};
pub use order_queue::{orders, reconcile_orders};
pub use reading::{ReadEnd, Reads, read_loop};
pub use session_inbox::SessionInbox;
pub use transfer::{PIECE_LIMIT, Pieces};
pub use wires::{SessionEnds, Wires, reconcile};
pub use writer_end::WriterEnd;
pub use writer_message::WriterMessage;
pub use writing::{Writes, write_loop};
