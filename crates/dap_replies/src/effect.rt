//! What follows a request, a file or a report.

use crate::phase::Phase;
use dap_msg::{Body, EventBody, Items, Refusal};
use dbg_runner::Order;

/// What follows a request, a file or a report, after its answer if it has one.
#[derive(Drop)]
pub struct Effect {
    /// The events, in order.
    pub events: Items<EventBody>,
    /// The order to the runner, if there is one.
    pub order: Option<Order>,
    /// The phase afterwards.
    pub phase: Phase,
}

/// The result of a request, and what follows it.
#[derive(Drop)]
pub struct Reply {
    /// The body of the answer, or why the request is refused.
    pub result: Result<Body, Refusal>,
    /// What follows the answer.
    pub effect: Effect,
}
