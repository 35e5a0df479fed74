//! What a session keeps between two items, and what it does at a request, at the file of a launch and at a report.
//!
//! The definition `IsPhase` (`specs/Phases`) says which histories a [`Phase`] represents: how far they have come, and the
//! program where it stands. A session holds its debuggee, by type, exactly in `Configuring`, `Stopped` and `Faulted`; while
//! the program runs it keeps a [`Run`], which knows what the next report has to begin with.
//!
//! The one contract is that of [`reply`]: the answer, the events after it and the order are those that the definitions of
//! `dap_history` say for any history that the phase represents, and the phase afterwards represents the history with that
//! step (`specs/Replied`). [`launch`] has the same contract for the file of a launch, and [`report`] for a report that is
//! accepted. One function chooses the reaction to a command by the table of reactions, and another carries it out.
#![tactic(auto)]

mod breakpoints;
mod carrying;
mod choosing;
mod effect;
mod launching;
mod laws;
mod logging;
mod pausing;
mod phase;
mod planning;
mod refusing;
mod replying;
mod reporting;
mod run;
mod running;
mod unstarted;

pub use effect::{Effect, Reply};
pub use launching::launch;
pub use laws::{phase_laws, quiet_laws};
pub use phase::{Phase, Target};
pub use replying::reply;
pub use reporting::report;
pub use run::Run;
pub use unstarted::Unstarted;
