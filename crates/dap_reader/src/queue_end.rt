//! What proofs know of an end of the queue.

use std::collections::LinkedList;

/// What an end of the queue may do, and which reads gave what went through it. Only proofs read it: no value of it is ever
/// made.
pub(crate) enum QueueEnd {
    /// The queue is new, and its ends aren't apart yet.
    Unused,
    /// It takes, and took all that these reads gave, by so many receives.
    Takes(SupplyView, u64),
    /// It sends, and sent all that these reads gave.
    Sends(SupplyView),
    /// It is both: it took all that the first reads gave, and sent all that the second gave.
    Both(SupplyView, SupplyView),
    /// It was joined to the other, and does nothing.
    Spent,
}

/// What reads of an input gave: `Supply` of `byte_streams`, as a view.
pub(crate) struct SupplyView {
    pub first: Option<LinkedList<u8>>,
    pub bytes: LinkedList<u8>,
    pub ended: bool,
    pub failures: u64,
}
