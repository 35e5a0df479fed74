//! What a client is shown of a program where it stands: its frames, their scopes and variables, and values of expressions.
//!
//! The one contract is that of [`ask`]: the answer is what the definitions of `dap_history` show (`RepliesFrom`) of the
//! configuration that the meaning of the program has at the debuggee's position. Each question has a function of its own.
//! No session is needed: a debuggee, the path of its program and how the client counts are enough.
#![tactic(auto)]

mod alive;
mod asking;
mod evaluate;
mod frame_name;
mod scopes;
mod stack_trace;
mod variables;

pub use asking::ask;
