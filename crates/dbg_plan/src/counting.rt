//! Counts the arrivals at breakpoints.

ghost use Rattle.std.specs.Prelude.{◌≡◌, ◌+◌, ◌<◌, ◌≤◌, ◌++◌, ◌&&◌, ℕ, [], is_none, length, All, option_map, if◌then◌else◌, Some};
ghost use Rattle.std.specs.Arc.{arc_value};
ghost use Rattle.pl0_machine.specs.Machine.{program};
ghost use Rattle.dbg_plan.specs.Plans.{breakpoint_limit, listed_of};
ghost use Rattle.dbg_plan.specs.declared.mode.Reason.TheVariants as reason;
ghost use Rattle.dbg_plan.specs.Due.{reason_of, depth_at};
ghost use Rattle.dbg_plan.specs.Debugged.{IsRunning};
ghost use Rattle.dbg_plan.specs.Counting.{increased, passes, starts_over, holds_now, counted, counted_at, those_due, any_stops, logged, logged_after, due_at, AreCounts, CountsOn, MayBePlanOf, IsMetHere};

use crate::breakpoint::{Breakpoint, Rule};
use crate::evaluation::is_met;
use crate::logging::stops_or_logs;
use crate::logs::Logs;
use crate::mode::{Mode, Reason};
use crate::plan::Plan;
use pl0_machine::Machine;
use std::sync::Arc;

/// Returns how many arrivals are passed before one is due.
pub fn passes_of(rule: Option<Rule>) -> u32
    ensures { result ≡ passes rule }
{
    match rule {
        None => 0,
        Some(Rule::From(k)) => k.saturating_sub(1),
        Some(Rule::Every(k)) => k.saturating_sub(1),
    }
}

/// Whether the arrivals are counted anew after one that is due.
pub fn starts_over(rule: Option<Rule>) -> bool
    ensures { result ≡ starts_over rule }
{
    matches!(rule, Some(Rule::Every(_)))
}

/// Returns the count after one more arrival. The rule decides how far it counts.
fn increase(rule: Option<Rule>, count: u32) -> u32
    ensures { result ≡ increased rule count }
{
    if count < passes_of(rule) {
        return count + 1;
    }
    match rule {
        None => count,
        Some(Rule::From(_)) => count,
        Some(Rule::Every(_)) => 0,
    }
}

/// Counts an arrival at a breakpoint of the machine's step if its condition is met, and returns whether the arrival is due.
#[inline(always)]
fn count_arrival(machine: &Machine, breakpoint: &Breakpoint, counts: &mut [u32]) -> bool
    requires running { IsRunning machine.now }
    requires here { IsMetHere machine.now breakpoint.now }
    requires within { breakpoint.now.number < length counts.old }
    ensures counts { counts.new ≡ counted_at (holds_now machine.now) breakpoint.now counts.old }
    ensures due { result ≡ due_at (holds_now machine.now) breakpoint.now counts.old }
{
    if !is_met(machine, breakpoint) {
        return false;
    }
    let count = counts[breakpoint.number];
    counts[breakpoint.number] = increase(breakpoint.rule, count);
    passes_of(breakpoint.rule) <= count
}

/// Counts an arrival at a breakpoint and logs its message if it is due, and returns whether the breakpoint stops the
/// program.
#[inline(always)]
fn meet(machine: &Machine, breakpoint: &Breakpoint, counts: &mut [u32], logs: &mut Logs) -> bool
    requires running { IsRunning machine.now }
    requires here { IsMetHere machine.now breakpoint.now }
    requires within { breakpoint.now.number < length counts.old }
    requires room { length logs.old < breakpoint_limit }
    ensures counts { counts.new ≡ counted_at (holds_now machine.now) breakpoint.now counts.old }
    ensures stops { result ≡ (due_at (holds_now machine.now)
        breakpoint.now counts.old && is_none breakpoint.now.message) }
    ensures logs { logs.new ≡ logged_after machine.now (due_at (holds_now machine.now) breakpoint.now counts.old)
        breakpoint.now logs.old }
{
    count_arrival(machine, breakpoint, counts) && stops_or_logs(machine, breakpoint, logs)
}

/// Counts the arrivals at these breakpoints, which are those of the machine's step, and appends what they log to `logs`.
/// Returns whether one stops the program.
pub fn count_arrivals(
    machine: &Machine,
    breakpoints: &[Breakpoint],
    counts: &mut [u32],
    logs: &mut Logs,
) -> bool
    requires running { IsRunning machine.now }
    requires here { All (IsMetHere machine.now) breakpoints.now }
    requires within { All (λ b. b.number < length counts.old) breakpoints.now }
    requires room { length logs.old + length breakpoints.now ≤ breakpoint_limit }
    ensures counts { counts.new ≡ counted (holds_now machine.now) breakpoints.now counts.old }
    ensures stops { result ≡ any_stops (those_due (holds_now machine.now) breakpoints.now counts.old) }
    ensures logs { logs.new ≡ logs.old ++ logged machine.now
        (those_due (holds_now machine.now) breakpoints.now counts.old) }
{
    let mut stops = false;
    for breakpoint in breakpoints {
        stops |= meet(machine, breakpoint, counts, logs);
    }
    stops
}

/// Counts the arrivals at the machine's position, and returns whether a breakpoint stops the program there. What the
/// position logs is in `logs` afterwards.
#[inline(always)]
pub fn count_position(
    machine: &Machine,
    plan: &Option<Arc<Plan>>,
    counts: &mut [u32],
    logs: &mut Logs,
) -> bool
    requires running { IsRunning machine.now }
    requires fits { MayBePlanOf machine.now.unit (option_map arc_value plan.now) }
    requires room { length counts.old ≡ breakpoint_limit }
    requires empty { logs.old ≡ [] }
    // Whatever position the counts begin at, they go on, and say what is due.
    ensures { (first : ℕ) → first ≤ machine.now.position
        → AreCounts (program machine.now) (listed_of
        (option_map arc_value plan.now)) first machine.now.position counts.old
        → CountsOn (program machine.now) (listed_of
        (option_map arc_value plan.now)) machine.now.position first result logs.new counts.new }
{
    match plan {
        None => false,
        Some(plan) => {
            if !plan.has_breakpoint(machine.address()) {
                return false;
            }
            count_arrivals(machine, plan.entry(machine.next_step()), counts, logs)
        }
    }
}

/// Returns why the machine's position is due, if it is. `hit` says whether a breakpoint stops the program there.
#[inline(always)]
pub fn reason_here(machine: &Machine, hit: bool, mode: Mode) -> Option<Reason>
    ensures { result ≡ (if hit then Some reason.Breakpoint
        else reason_of mode (depth_at (program machine.now) machine.now.position)) }
{
    if hit {
        return Some(Reason::Breakpoint);
    }
    // Asked first: a branch that is foreseen costs less than a jump by a table.
    if let Mode::Continue = mode {
        return None;
    }
    let depth = machine.depth();
    match mode {
        Mode::Entry => Some(Reason::Entry),
        Mode::Continue => None,
        Mode::In => Some(Reason::Step),
        Mode::Over(limit) => (depth <= limit).then_some(Reason::Step),
        Mode::Out(limit) => (depth < limit).then_some(Reason::Step),
        Mode::StepBack | Mode::Reverse => None,
    }
}
