//! The history of a session: which items its events give, what each item is answered with and causes, and the laws of
//! all that a session sends.
//!
//! A client asks for the capabilities, and launches a program (`specs/WorkedSessions`). Each step of the history is an item
//! with its answer and its effect, and what the history says of the present is computed:
//!
//! ```text
//! begun : History
//! begun =
//!     taken 1 (command.Initialize from_one) (answered body.Capabilities)
//!     ∷ record {
//!       item = Loaded (record { seq = 2; arguments = arguments }) (Some text);
//!       answer = Some (Answer 2 (name.Supported supported.Launch) (Ok body.None));
//!       effect = launches arguments text program;
//!     }
//!     ∷ []
//!
//! configuring : situation begun ≡ Configuring
//! configuring = refl
//! ```
//!
//! The contracts are those of [`history_laws`], [`run_laws`] and [`command_laws`]. The definitions are in `specs`, in the
//! order of `specs/Lib.antt`: what a step is (`History`), the readings of the items so far (`Readings`), a file for each
//! topic of commands (`Launching` to `Inspection`), the reaction to each command (`Reactions`), reports (`Reports`), what
//! each item causes (`Emission`), which items a list of events gives (`Events`), and the laws (`Laws` to `Shown`). They
//! speak only of plain data, so two lists of events with the same data have the same history. The only code here is the
//! types that both a session and its definitions speak of.
#![tactic(auto)]

mod ending;
mod fault;
mod launch;
mod laws;
mod situation;

pub use ending::{Closed, Ending};
pub use fault::{LoadFault, SessionFault};
pub use launch::Launch;
pub use laws::{command_laws, history_laws, reading_laws, run_laws, worked_words};
pub use situation::Situation;
