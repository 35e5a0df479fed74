//! The runner in the thread of its caller: one slice at a time, when a report is asked for.

ghost use Rattle.std.specs.Prelude.{◌≡◌, false};
ghost use Rattle.dbg_runner.specs.Plain.{goes_back};

use dbg_plan::Mode;
use dbg_runner::{Buffers, ConsideredDebuggee, Order, Report, Retreat, next_report};
use std::alloc::Global;
use std::cell::Cell;

/// A run that goes on.
#[derive(Drop)]
struct Onward {
    debuggee: ConsideredDebuggee,
    mode: Mode,
    ghost onward: { goes_back mode ≡ false },
}

/// Which way a run goes.
#[derive(Drop)]
enum Course {
    On(Onward),
    Back(Retreat),
}

/// A run that is on.
#[derive(Drop)]
struct Running {
    run: u64,
    course: Course,
    begun: bool,
    held: bool,
}

/// A runner in one thread. Orders and reports go through `&self`, so that all ports of a session can share it.
#[derive(Drop)]
pub struct Runner {
    running: Cell<Option<Running>>,
}

impl Runner {
    /// A runner with no run.
    pub fn new() -> Runner {
        Runner {
            running: Cell::new(None),
        }
    }

    /// Obeys an order: a Go begins a run in the place of any other, a Hold of the run that is on holds it after its first
    /// slice, and Quit ends it.
    pub fn obey(&self, order: Order) {
        let running = self.running.replace(None);
        self.running.set(obey(running, order));
    }

    /// Runs the next slice of the run that is on: its report, or `None` where no run is on.
    pub fn next_report(&self, alloc: Global) -> Option<Report> {
        let running = self.running.replace(None)?;
        let (report, running) = report_next(alloc, running);
        self.running.set(running);
        Some(report)
    }

    /// Ends the run that is on by the report that there is no memory for its next slice. `None` where no run is on, or one
    /// that goes back.
    pub fn report_no_memory(&self) -> Option<Report> {
        report_no_memory(self.running.replace(None)?)
    }
}

/// The next report of a run, and the run if it goes on. A run is held after a slice, and never before its first; one that
/// goes back is never held.
fn report_next(alloc: Global, running: Running) -> (Report, Option<Running>) {
    let Running {
        run,
        course,
        begun,
        held,
    } = running;
    match course {
        Course::On(Onward { debuggee, mode }) => {
            if held && begun {
                return (Report::held(run, mode, debuggee.into_debuggee()), None);
            }
            let (report, on) = next_report(
                alloc,
                run,
                debuggee.into_debuggee(),
                mode,
                &mut Buffers::new(),
            );
            let running = match on {
                None => None,
                Some(debuggee) => Some(Running {
                    run,
                    course: Course::On(Onward {
                        debuggee: ConsideredDebuggee::new(debuggee),
                        mode,
                    }),
                    begun: true,
                    held,
                }),
            };
            (report, running)
        }
        Course::Back(retreat) => {
            let (report, on) = retreat.next_report(alloc, run, &mut Buffers::new());
            let running = on.map(|retreat| Running {
                run,
                course: Course::Back(retreat),
                begun: true,
                held,
            });
            (report, running)
        }
    }
}

/// The report of a run that goes on, for which there is no memory.
fn report_no_memory(running: Running) -> Option<Report> {
    let Running { run, course, .. } = running;
    match course {
        Course::On(Onward { debuggee, mode }) => {
            Some(Report::no_memory(run, mode, debuggee.into_debuggee()))
        }
        Course::Back(_) => None,
    }
}

/// Which way a run in a mode goes.
fn course_of(debuggee: ConsideredDebuggee, mode: Mode) -> Course {
    match mode {
        Mode::Entry => Course::On(Onward { debuggee, mode }),
        Mode::Continue => Course::On(Onward { debuggee, mode }),
        Mode::In => Course::On(Onward { debuggee, mode }),
        Mode::Over(_) => Course::On(Onward { debuggee, mode }),
        Mode::Out(_) => Course::On(Onward { debuggee, mode }),
        Mode::StepBack => Course::Back(Retreat::new(debuggee.into_debuggee(), mode)),
        Mode::Reverse => Course::Back(Retreat::new(debuggee.into_debuggee(), mode)),
    }
}

/// The run that is on after an order.
fn obey(running: Option<Running>, order: Order) -> Option<Running> {
    match order {
        Order::Go {
            run,
            debuggee,
            mode,
        } => Some(Running {
            run,
            course: course_of(debuggee, mode),
            begun: false,
            held: false,
        }),
        Order::Hold { run } => running.map(|running| Running {
            held: running.held || running.run == run,
            ..running
        }),
        Order::Quit => None,
    }
}
