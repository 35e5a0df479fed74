//! What bodies and events are, by examples.

ghost use Rattle.dap_bodies.specs.WorkedBodies.{EventsAreWritten, StopsAreWritten, FramesAreWritten, VariablesAreWritten, OthersAreWritten};

/// The text of each event, and of each body, computed. It does nothing: its contract is the examples.
pub fn worked_bodies()
    ensures events { EventsAreWritten }
    ensures stops { StopsAreWritten }
    ensures frames { FramesAreWritten }
    ensures variables { VariablesAreWritten }
    ensures others { OthersAreWritten }
{}
