//! The reply to a launch, once its file has come.

ghost use Rattle.std.specs.Prelude.{◌≡◌, None, IfOk, IsOk, option_map};
ghost use Rattle.dap_history.specs.History.{History};
ghost use Rattle.dap_history.specs.Launching as launching;
ghost use Rattle.dap_replies.specs.Phases.{IsPhase};
ghost use Rattle.dap_replies.specs.declared.phase.Phase.TheVariants as phase_is;
ghost use Rattle.dap_replies.specs.Launched.{HasBegun};
ghost use Rattle.dap_replies.specs.Replied.{HasLaunched};

use crate::effect::{Effect, Reply};
use crate::phase::{Phase, Target};
use crate::refusing::refuse;
use crate::unstarted::Unstarted;
use dap_history::{Launch, reading_laws};
use dap_msg::{Body, EventBody, InitializeArguments, Items, LaunchArguments, Refusal};
use pl0_code::{CodeFault, compile};
use pl0_syntax::{FaultKind, Place, SyntaxFault, Tree, parse};
use std::alloc::{AllocError, Global};
use std::sync::Arc;

/// Launches the program in a file. `file` is `None` where the file can't be read.
///
/// # Errors
///
/// An allocation failed.
pub fn launch(
    alloc: Global,
    settings: InitializeArguments,
    launch: Launch,
    file: Option<Vec<u8>>,
) -> Result<Reply, AllocError>
    ensures launches { IfOk result (λ given. (past : History) → IsPhase (phase_is.Launching settings launch) past →
        HasLaunched launch (option_map (λ bytes. bytes.items) file) past given) }
    // The refusal of a file that can't be read needs no memory.
    ensures enough { file ≡ None → IsOk result }
{
    reading_laws();
    let Some(text) = file else {
        return Ok(refuse(alloc, Phase::Ready(settings), Refusal::CannotRead));
    };
    match parse(alloc, text.as_slice()) {
        Ok(tree) => begin(alloc, settings, launch.arguments, tree),
        Err(SyntaxFault::InText { kind, place }) => {
            Ok(refuse(alloc, Phase::Ready(settings), syntax(kind, place)))
        }
        Err(SyntaxFault::NoMemory) => Err(AllocError),
    }
}

/// Returns the refusal of a text with this fault.
fn syntax(kind: FaultKind, place: Place) -> Refusal
    ensures { result ≡ launching.syntax kind place }
{
    Refusal::Syntax {
        number: u32::from(kind.number()),
        line: place.line,
        column: place.column,
    }
}

/// The program is launched, and waits for its configuration.
fn begin(
    alloc: Global,
    settings: InitializeArguments,
    arguments: LaunchArguments,
    tree: Tree,
) -> Result<Reply, AllocError>
    ensures { IfOk result (HasBegun settings arguments tree) }
{
    let unit = match compile(alloc, tree) {
        Ok(unit) => Arc::new(alloc, unit)?,
        Err(CodeFault::NoMemory) => return Err(AllocError),
    };
    let debuggee = Unstarted::new(alloc, unit)?;
    let events = vec![in alloc; EventBody::Initialized]?;
    let target = Target {
        settings,
        path: arguments.program,
        stop_on_entry: arguments.stop_on_entry,
        runs: 0,
        told: 0,
    };
    Ok(Reply {
        result: Ok(Body::None),
        effect: Effect {
            events: Items::new(events),
            order: None,
            phase: Phase::Configuring(target, debuggee),
        },
    })
}
