//! What a run of the machine needs of a plan, and where it leaves a debuggee.

ghost use Rattle.std.specs.Prelude.{◌≡◌, option_map};
ghost use Rattle.std.specs.Arc.{arc_value};
ghost use Rattle.dbg_plan.specs.Quiet.{AreMarksIn, considered_after};

use crate::plan::Plan;
use pl0_machine::{Marks, StepOutcome};
use std::sync::Arc;

/// Returns the marks of a plan; `None` where there is no plan.
pub fn marks_of(plan: &Option<Arc<Plan>>) -> Option<&Marks>
    ensures { AreMarksIn (option_map arc_value plan.now) (option_map (λ marks. marks.now) result) }
{
    match plan {
        None => None,
        Some(plan) => Some(plan.marks()),
    }
}

/// Whether the position is considered where a run stands after this.
#[inline(always)]
pub fn stays_considered(outcome: Option<StepOutcome>) -> bool
    ensures { result ≡ considered_after outcome }
{
    match outcome {
        None => true,
        Some(StepOutcome::Went(_)) => false,
        Some(StepOutcome::Done) => false,
        Some(StepOutcome::Fault(_)) => true,
    }
}
