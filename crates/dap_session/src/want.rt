//! What a session asks for.

/// What a session asks for next.
#[derive(Drop)]
pub enum Want {
    /// The next event.
    Event,
    /// The file at this path, for a launch that waits for it.
    File(String),
    /// Nothing: the session is closed.
    Closed,
}
