//! The plan of a program: its breakpoints, by their steps.

ghost use Rattle.std.specs.Prelude.{◌≡◌, ◌+◌, ◌<◌, ◌^◌, [], All, Decides, option_map, length, slice_get, Some, IfOk};
ghost use Rattle.std.specs.Arc.{arc_value};
ghost use Rattle.std.specs.Option.{option_map_or};
ghost use Rattle.dbg_plan.specs.Breakpoints.{plain_breakpoint};
ghost use Rattle.dbg_plan.specs.Messages.{plain_parts};
ghost use Rattle.dbg_plan.specs.Plans.{breakpoints_of};

use crate::breakpoint::Breakpoint;
use crate::message::Part;
use crate::same::same_breakpoints;
use crate::table::{counters_of, marked_of, starts_of};
use pl0_machine::Marks;
use pl0_tree::StepNumber;
use std::alloc::{AllocError, Global};
use std::marker::Model;
use std::sync::Arc;

/// The breakpoints of a program. Those of step s stand in `ordered` from `starts[s]` up to `starts[s + 1]`.
#[derive(Drop)]
pub struct Plan {
    ordered: Vec<Breakpoint>,
    starts: Vec<usize>,
    // The addresses at which a step with a breakpoint begins, and what the machine counts there.
    marks: Marks,
}

impl Model for Plan {
    ghost use Rattle.dbg_plan.specs.Plans.{Listed};
    ghost use Rattle.dbg_plan.specs.contracts.breakpoint.Breakpoint as breakpoint;
    ghost use Rattle.std.specs.Coded.{codes};

    ghost Value = { Listed };

    ghost coded = { Prim.hlevel (codes, breakpoint.the_row.coded) };

    ghost use Rattle.dbg_plan.specs.Table.{listed, IsTable};

    ghost view = { listed };

    ghost invariant = { IsTable };
}

impl Plan {
    ghost use Rattle.std.specs.Prelude.{Decides};
    ghost use Rattle.dbg_plan.specs.Breakpoints.{plain_breakpoints};
    ghost use Rattle.dbg_plan.specs.Messages.{plain_parts};
    ghost use Rattle.dbg_plan.specs.Plans.{those_of, marked_addresses, parts_at, IsNumbered};
    ghost use Rattle.dbg_plan.specs.Table.{AreMarksOf};

    /// Returns the plan of these breakpoints, for a program of `steps` steps. `begun_steps` says for each address of its
    /// code which step begins there.
    pub(crate) fn new(
        alloc: Global,
        steps: usize,
        begun_steps: &[Option<StepNumber>],
        breakpoints: Vec<Breakpoint>,
    ) -> Result<Plan, AllocError>
        requires numbered { IsNumbered breakpoints.items }
        requires within { All (λ b. b.step < steps) breakpoints.items }
        requires room { steps + 1 < 2 ^ 64 }
        ensures { IfOk result (λ plan. plan
            ≡ record {
              steps = steps;
              breakpoints = breakpoints.items;
              marked = marked_addresses breakpoints.items begun_steps.now;
            }) }
    {
        let mut ordered = breakpoints;
        ordered.sort_by_key(|breakpoint| breakpoint.step)?;
        let starts = starts_of(alloc, &ordered, steps)?;
        let marked = marked_of(alloc, begun_steps, &starts)?;
        let counters = counters_of(alloc, &ordered, &starts, steps)?;
        Ok(Plan {
            ordered,
            starts,
            marks: Marks { marked, counters },
        })
    }

    /// Whether the plan has no breakpoint.
    pub fn is_empty(&self) -> bool
        ensures empty { Decides result (self.now.breakpoints ≡ []) }
        ensures numbered { IsNumbered self.now.breakpoints }
    {
        self.ordered.is_empty()
    }

    /// Whether the other plan has the same breakpoints in the same order: steps, texts of conditions, rules, messages.
    pub fn same(&self, other: &Plan) -> bool
        ensures { Decides result (plain_breakpoints self.now.breakpoints ≡ plain_breakpoints other.now.breakpoints) }
    {
        same_breakpoints(&self.ordered, &other.ordered)
    }

    /// Whether the step that begins at an address of the code has a breakpoint.
    #[inline(always)]
    pub(crate) fn has_breakpoint(&self, address: usize) -> bool
        requires { address < length self.now.marked }
        ensures marked { slice_get self.now.marked address ≡ Some result }
        ensures numbered { IsNumbered self.now.breakpoints }
    {
        self.marks.marked[address]
    }

    /// Returns the marks of the addresses at which a step with a breakpoint begins.
    #[inline(always)]
    pub(crate) fn marks(&self) -> &Marks
        ensures { AreMarksOf self.now result.now }
    {
        &self.marks
    }

    /// Returns the breakpoints of a step, in the order asked.
    #[inline(always)]
    pub fn entry(&self, step: StepNumber) -> &[Breakpoint]
        requires { step < self.now.steps }
        ensures breakpoints { result.now ≡ those_of step self.now.breakpoints }
        ensures numbered { IsNumbered self.now.breakpoints }
    {
        &self.ordered[self.starts[step]..self.starts[step + 1]]
    }

    /// Returns the parts of the message of the breakpoint with this number, from 0; no parts if it has no message.
    pub fn message(&self, number: usize) -> &[Part]
        ensures { plain_parts result.now ≡ parts_at (plain_breakpoints self.now.breakpoints) number }
    {
        match self
            .ordered
            .iter()
            .find(|breakpoint| breakpoint.number == number)
        {
            Some(breakpoint) => parts_of(breakpoint),
            None => &[],
        }
    }
}

/// Returns a share of a plan, if there is one.
///
/// # Errors
///
/// The count of its shares is full.
pub fn share_plan(plan: &Option<Arc<Plan>>) -> Result<Option<Arc<Plan>>, AllocError>
    ensures { IfOk result (λ share. breakpoints_of (option_map arc_value share)
        ≡ breakpoints_of (option_map arc_value plan.now)) }
{
    match plan {
        None => Ok(None),
        Some(plan) => Ok(Some(Arc::try_clone(plan)?)),
    }
}

/// Whether two plans have the same breakpoints in the same order. `None` is the empty plan.
pub fn same_plan(left: &Option<Arc<Plan>>, right: &Option<Arc<Plan>>) -> bool
    ensures { Decides result (breakpoints_of (option_map arc_value left.now)
        ≡ breakpoints_of (option_map arc_value right.now)) }
{
    match (left, right) {
        (None, None) => true,
        (Some(left), Some(right)) => left.same(right),
        (Some(plan), None) | (None, Some(plan)) => plan.is_empty(),
    }
}

/// Returns the parts of a breakpoint's message; no parts if it has no message.
fn parts_of(breakpoint: &Breakpoint) -> &[Part]
    ensures { plain_parts result.now ≡ option_map_or (λ m. m.parts) (plain_breakpoint breakpoint.now).message [] }
{
    match &breakpoint.message {
        None => &[],
        Some(message) => message.parts.as_slice(),
    }
}
