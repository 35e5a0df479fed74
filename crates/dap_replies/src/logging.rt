//! What positions log, as events.

ghost use Rattle.std.specs.Prelude.{◌≡◌, ◌++◌, [], OnOk, IsOk, option_map};
ghost use Rattle.std.specs.Arc.{arc_value};
ghost use Rattle.dbg_plan.specs.Messages.{plain_parts};
ghost use Rattle.dbg_plan.specs.Plans.{breakpoints_of, parts_at};
ghost use Rattle.dap_history.specs.Replies.{log_events};

use dap_msg::{EventBody, Text};
use dbg_plan::{Log, Part, Plan, log_text};
use std::alloc::{AllocError, Global};
use std::sync::Arc;

/// Appends what breakpoints of this plan logged to `events`.
///
/// # Errors
///
/// An allocation failed.
pub(crate) fn push_logs(
    alloc: Global,
    plan: &Option<Arc<Plan>>,
    logs: &[Log],
    events: &mut Vec<EventBody>,
) -> Result<(), AllocError>
    ensures are { OnOk result (events.new.items ≡ events.old.items
        ++ log_events (breakpoints_of (option_map arc_value plan.now)) logs.now) }
    ensures enough { logs.now ≡ [] → IsOk result }
{
    for log in logs {
        let text = log_text(alloc, parts(plan, log.number()), log)?;
        events.push(EventBody::Log(Text::new(text)))?;
    }
    Ok(())
}

/// Returns the parts of the log message of the breakpoint with this number; none where there is no plan.
fn parts(plan: &Option<Arc<Plan>>, number: usize) -> &[Part]
    ensures { plain_parts result.now ≡ parts_at (breakpoints_of (option_map arc_value plan.now)) number }
{
    match plan {
        None => &[],
        Some(plan) => plan.message(number),
    }
}
