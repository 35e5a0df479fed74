//! Runs the slices of a run that goes back.

ghost use Rattle.std.specs.Prelude.{◌≡◌, ◌≤◌, true, Some};
ghost use Rattle.pl0_meaning.specs.Runs.{last_position};
ghost use Rattle.dbg_plan.specs.Debugged.{debugged_program, IsConsidered};
ghost use Rattle.dbg_plan.specs.Retreat.{stop_at, goal_of};
ghost use Rattle.dbg_runner.specs.declared.retreat.Way.TheVariants as way;
ghost use Rattle.dbg_runner.specs.Plain.{goes_back};
ghost use Rattle.dbg_runner.specs.Lawful.{RunsAt};
ghost use Rattle.dbg_runner.specs.Rooms.{IsRoomOf};
ghost use Rattle.dbg_runner.specs.Hops.{moved};
ghost use Rattle.dbg_runner.specs.Courses.{IsOn, IsCounted, leads_to, RanAgain, arrival};

use crate::buffers::Buffers;
use crate::hops::{go_back, go_on, search};
use crate::outcome::SliceOutcome;
use crate::outputs::Outputs;
use crate::report::{Report, Subject, Summary};
use crate::slicing::SLICE_LIMIT;
use dbg_plan::{Debuggee, Mode, Reason};
use std::alloc::Global;
use std::marker::Model;

/// What a run that goes back is doing.
#[derive(Clone, Copy)]
pub enum Way {
    /// It considers the positions from 0 on. This is the last due one so far, if there is one.
    Searches(Option<u64>),
    /// It goes to the position where it stops, for this reason.
    Returns(u64, Reason),
}

/// A run that goes back, between two slices: its debuggee on the way, and what was found so far.
#[derive(Drop)]
pub struct Retreat {
    debuggee: Box<Debuggee>,
    mode: Mode,
    // Where it began, how many numbers were written up to there, and from where the plan counted there.
    start: u64,
    numbers_before: u64,
    counted_from: u64,
    // How many steps it ran again so far.
    steps_rerun: u64,
    // None before the first slice.
    way: Option<Way>,
}

impl Model for Retreat {
    ghost use Rattle.dbg_runner.specs.Retreating.{Retreating};
    ghost use Rattle.pl0_unit.specs.contracts.unit.Unit as compiled;
    ghost use Rattle.dbg_plan.specs.Breakpoints.{breakpoint_code};
    ghost use Rattle.std.specs.Coded.{codes};

    ghost Value = { Retreating };

    ghost coded = { Prim.hlevel (codes, compiled.the_row.coded, breakpoint_code) };

    ghost use Rattle.dbg_runner.specs.Courses.{retreating_of, IsRetreat};

    ghost view = { retreating_of };

    ghost invariant = { IsRetreat };
}

impl Retreat {
    ghost use Rattle.std.specs.Prelude.{◌≡◌, ◌*◌, ◌≤◌, true, Some, IfSome};
    ghost use Rattle.pl0_meaning.specs.Runs.{last_position};
    ghost use Rattle.dbg_plan.specs.Debugged.{IsConsidered};
    ghost use Rattle.dbg_plan.specs.Retreat.{goal_of};
    ghost use Rattle.pl0_machine.specs.Machine.{program_of as program_in};
    ghost use Rattle.dbg_runner.specs.declared.outcome.SliceOutcome.TheVariants as out;
    ghost use Rattle.dbg_runner.specs.Plain.{goes_back};
    ghost use Rattle.dbg_runner.specs.Lawful.{IsReportOf};
    ghost use Rattle.dbg_runner.specs.Reported.{plain_report};
    ghost use Rattle.dbg_runner.specs.Retreating.{turned, heading_back, IsDebuggeeOf, IsRoomFor, RanBack, summary_back};
    ghost use Rattle.dbg_runner.specs.Slices.{IsSliceBackOf, IsNextBackOf};

    /// Returns a run of this debuggee that goes back. It has taken no step yet.
    pub fn new(debuggee: Box<Debuggee>, mode: Mode) -> Retreat
        requires considered { IsConsidered debuggee.value }
        requires back { goes_back mode ≡ true }
        ensures { result ≡ turned debuggee.value mode }
    {
        let start = debuggee.machine().position();
        let numbers_before = debuggee.machine().written();
        let counted_from = debuggee.counted_from();
        Retreat {
            debuggee,
            mode,
            start,
            numbers_before,
            counted_from,
            steps_rerun: 0,
            way: None,
        }
    }

    /// Returns the debuggee, wherever the run is.
    pub fn debuggee(&self) -> &Debuggee
        ensures is { IsDebuggeeOf self.now result.now }
        ensures considered { IsConsidered result.now }
    {
        &self.debuggee
    }

    /// Does nothing: its contract bounds how many steps are run again, since a position is bounded.
    pub(crate) fn bounds_steps(&self)
        ensures { self.now.steps_rerun ≤ 2 * last_position }
    {
        let _again = self.steps_rerun;
    }

    /// Returns the summary of its report, if it ends so.
    fn summary(&self, run: u64, end: u64, outcome: SliceOutcome) -> Summary
        ensures { result ≡ summary_back run self.now end outcome }
    {
        Summary {
            run,
            counted_from: self.counted_from,
            mode: self.mode,
            start: self.start,
            end,
            numbers_before: self.numbers_before,
            steps_rerun: self.steps_rerun,
            outcome,
        }
    }

    /// Runs at most a slice's steps again. Returns why the run stops there, if it does.
    fn run_again(&mut self, outputs: &mut Outputs) -> Option<Reason>
        requires room { IsRoomFor outputs.old self.old }
        ensures ran { RanBack self.old result self.new }
        ensures room { outputs.new ≡ outputs.old }
    {
        let debuggee = &mut *self.debuggee;
        let way = match self.way {
            None => begin(debuggee, outputs, self.mode),
            Some(way) => way,
        };
        let (way, again) = run_again(debuggee, outputs, self.start, self.steps_rerun, way);
        self.way = Some(way);
        self.steps_rerun = again;
        arrival(way, self.debuggee.machine().position())
    }

    /// Runs at most [`SLICE_LIMIT`] steps again, and returns the report. The run is returned beside it only if it goes on.
    /// It allocates nothing.
    pub fn slice(
        mut self,
        run: u64,
        mut outputs: Outputs,
        buffers: &mut Buffers,
    ) -> (Report, Option<Retreat>)
        requires { IsRoomFor outputs self }
        ensures { IsSliceBackOf run self result.0 result.1 }
    {
        let arrival = self.run_again(&mut outputs);
        let (_, _, shared) = outputs.finish(buffers);
        match arrival {
            None => {
                let summary = self.summary(run, self.start, SliceOutcome::More);
                (Report::silent(summary, shared), Some(self))
            }
            Some(reason) => (self.arrive(run, reason), None),
        }
    }

    /// Returns the report of a run that has come to where it stops. Its plan counts from the next position on.
    fn arrive(self, run: u64, reason: Reason) -> Report
        requires come { goal_of (program_in self.unit) self.breakpoints self.mode self.start
            ≡ Some (record { position = self.position; reason = reason }) }
        ensures of { IsReportOf (heading_back run self) (plain_report result) }
        ensures outcome { result.outcome ≡ out.Due reason }
        ensures end { result.end ≡ self.position }
        ensures again { result.steps_rerun ≡ self.steps_rerun }
        ensures trail { IfSome result.debuggee (λ d. d.trail ≡ self.trail) }
    {
        let end = self.debuggee.machine().position();
        let summary = self.summary(run, end, SliceOutcome::Due(reason));
        let mut debuggee = self.debuggee;
        debuggee.recount();
        Report::silent(summary, Subject::Carried(debuggee))
    }

    /// Returns the report that there was no memory for a slice.
    fn give_up(self, run: u64) -> Report
        ensures of { IsReportOf (heading_back run self) (plain_report result) }
        ensures outcome { result.outcome ≡ out.NoMemory }
        ensures again { result.steps_rerun ≡ self.steps_rerun }
        ensures given_up { IfSome result.debuggee (λ d. IsDebuggeeOf self d) }
    {
        let summary = self.summary(run, self.start, SliceOutcome::NoMemory);
        Report::silent(summary, Subject::Carried(self.debuggee))
    }

    /// Runs a slice in these buffers, and returns its report, or the report that there was no memory for it. It allocates
    /// only what the buffers lack.
    pub fn next_report(
        self,
        alloc: Global,
        run: u64,
        buffers: &mut Buffers,
    ) -> (Report, Option<Retreat>)
        ensures { IsNextBackOf run self result.0 result.1 }
    {
        match Outputs::new(alloc, self.debuggee(), buffers) {
            Ok(outputs) => self.slice(run, outputs, buffers),
            Err(_) => (self.give_up(run), None),
        }
    }
}

/// Runs at most a slice's steps again. Returns what the run does next, and how many steps it has run again so far.
fn run_again(
    debuggee: &mut Debuggee,
    outputs: &mut Outputs,
    start: u64,
    again: u64,
    way: Way,
) -> (Way, u64)
    requires considered { IsConsidered debuggee.old }
    requires room { IsRoomOf outputs.old debuggee.old }
    requires begun { RunsAt (debugged_program debuggee.old) start }
    requires bounded { start ≤ last_position }
    requires on { IsOn start debuggee.old again way }
    ensures ran { RanAgain start again debuggee.old way result.1 debuggee.new result.0 }
    ensures room { outputs.new ≡ outputs.old }
{
    match way {
        Way::Searches(found) => search_on(debuggee, outputs, start, again, found),
        Way::Returns(to, _) => {
            let steps = go_on(debuggee, to, SLICE_LIMIT);
            (way, again + steps)
        }
    }
}

/// Goes on with a search by at most a slice's steps. `again` is the debuggee's position. After the search the run returns
/// to where it stops.
fn search_on(
    debuggee: &mut Debuggee,
    outputs: &mut Outputs,
    start: u64,
    again: u64,
    found: Option<u64>,
) -> (Way, u64)
    requires considered { IsConsidered debuggee.old }
    requires room { IsRoomOf outputs.old debuggee.old }
    requires begun { RunsAt (debugged_program debuggee.old) start }
    requires bounded { start ≤ last_position }
    requires on { IsOn start debuggee.old again (way.Searches found) }
    ensures ran { RanAgain start again debuggee.old (way.Searches found) result.1 debuggee.new result.0 }
    ensures room { outputs.new ≡ outputs.old }
{
    let last = start - 1;
    let limit = last.min(again + SLICE_LIMIT);
    let found = search(debuggee, limit, found);
    if limit < last {
        return (Way::Searches(found), limit);
    }
    let (to, reason) = stop_at(found);
    go_back(debuggee, outputs, to);
    let steps = go_on(debuggee, to, again + SLICE_LIMIT - limit);
    (Way::Returns(to, reason), limit + steps)
}

/// Begins to go back from where the debuggee stands, and returns what the run does next.
fn begin(debuggee: &mut Debuggee, outputs: &mut Outputs, mode: Mode) -> Way
    requires considered { IsConsidered debuggee.old }
    requires room { IsRoomOf outputs.old debuggee.old }
    requires back { goes_back mode ≡ true }
    ensures on { IsOn debuggee.old.position debuggee.new 0 result }
    ensures leads { goal_of (debugged_program debuggee.old) debuggee.old.breakpoints mode debuggee.old.position
        ≡ Some (leads_to debuggee.old.position debuggee.new result) }
    ensures counted { IsCounted mode debuggee.old.position debuggee.new 0 result }
    ensures kept { debuggee.new ≡ moved debuggee.old debuggee.new.position debuggee.new.counted_from }
    ensures considered { IsConsidered debuggee.new }
    ensures room { outputs.new ≡ outputs.old }
{
    let start = debuggee.machine().position();
    if let Mode::StepBack = mode {
        let previous = start.saturating_sub(1);
        go_back(debuggee, outputs, previous);
        return Way::Returns(previous, Reason::Step);
    }
    let due = go_back(debuggee, outputs, 0);
    if start == 0 {
        return Way::Returns(0, Reason::Entry);
    }
    Way::Searches(due.then_some(0))
}

/// Returns where a search leads, and why the run stops there: the last due position, or position 0 if none was found.
fn stop_at(found: Option<u64>) -> (u64, Reason)
    ensures { record { position = result.0; reason = result.1 } ≡ stop_at found }
{
    match found {
        Some(position) => (position, Reason::Breakpoint),
        None => (0, Reason::Entry),
    }
}

/// Returns why the run stops at a position, if it does.
fn arrival(way: Way, position: u64) -> Option<Reason>
    ensures { result ≡ arrival way position }
{
    match way {
        Way::Returns(to, reason) if to == position => Some(reason),
        _ => None,
    }
}
