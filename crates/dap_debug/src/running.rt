//! Starting a program, and letting it go on.

ghost use Rattle.std.specs.Prelude.{◌≡◌, [], None, IfOk, map, option_map};
ghost use Rattle.dap_server.specs.Messages.{plain_event, plain_reply};
ghost use Rattle.debuggee.specs.Plain.{plain_breakpoint, plain_fault, plain_halt};
ghost use Rattle.dap_debug.specs.Standings.{standing};
ghost use Rattle.dap_debug.specs.Running.{Arrival, ArrivesAndGoesOn, EntersFrom, GoesOn, fault_of, mode_of, phase_after, resumed, success, Pauses, Resumes, Slice, Starts, Terminates, WorksOn};

use crate::command::Resume;
use crate::state::{Phase, State};
use crate::telling::tell;
use dap_bodies::{stopped, terminated};
use dap_server::{Event, Reply};
use debuggee::{Breakpoint, Fault, Halt, Language, Mode, arrive, run};
use serde_json::{Value, json};
use std::alloc::{AllocError, Global};
use std::mem;

/// How far a program has come after a slice, and what is told of that.
#[derive(Drop)]
struct Ran<L> {
    phase: Phase<L>,
    fault: Option<Fault>,
    events: Vec<Event>,
}

impl<L: Language> State<L> {
    /// Runs the program for a slice, if it runs, and returns what is told of that.
    ///
    /// # Errors
    ///
    /// An allocation failed. The program is gone.
    pub fn run_on(&mut self, alloc: Global) -> Result<Vec<Event>, AllocError>
        ensures { IfOk result (λ events. WorksOn L.takes L.sees (standing self.old) (map plain_event events.items)
            (standing self.new)) }
    {
        match mem::replace(&mut self.phase, Phase::NoProgram) {
            Phase::Running(program, mode) => {
                let ran = run_slice(alloc, program, mode, &mut self.breakpoints)?;
                self.phase = ran.phase;
                self.fault = ran.fault;
                Ok(ran.events)
            }
            phase => {
                self.phase = phase;
                Ok(Vec::new(alloc))
            }
        }
    }

    /// Starts the program once the client has set its breakpoints.
    ///
    /// # Errors
    ///
    /// An allocation failed. How far the program has come isn't known.
    pub fn start(&mut self, alloc: Global) -> Result<Reply, AllocError>
        ensures { IfOk result (λ reply. Starts L.takes L.sees (standing self.old) (plain_reply reply)
            (standing self.new)) }
    {
        match mem::replace(&mut self.phase, Phase::NoProgram) {
            Phase::Configuring(program, stop_on_entry) => {
                let mut reply = Reply::done(alloc);
                reply.events = self.arrive_and_go_on(alloc, program, stop_on_entry)?;
                Ok(reply)
            }
            phase => {
                self.phase = phase;
                Reply::refused(alloc, "no program waits to be started")
            }
        }
    }

    /// Lets a program arrive where it begins, and then stop there or go on. Returns what is told of that.
    fn arrive_and_go_on(
        &mut self,
        alloc: Global,
        program: L,
        stop_on_entry: bool,
    ) -> Result<Vec<Event>, AllocError>
        ensures { IfOk result (λ events. ArrivesAndGoesOn L.takes L.sees stop_on_entry program
            (standing self.old).breakpoints (standing self.old).path (standing self.old).counting
            (map plain_event events.items) (standing self.new)) }
    {
        let ran = arrive_first(alloc, program, &mut self.breakpoints)?;
        self.phase = ran.phase;
        self.fault = ran.fault;
        let mut events = ran.events;
        events.append(&mut self.go_on(alloc, stop_on_entry)?)?;
        Ok(events)
    }

    /// Stops a program that has arrived where it begins, or lets it go on, if it still runs.
    fn go_on(&mut self, alloc: Global, stop_on_entry: bool) -> Result<Vec<Event>, AllocError>
        ensures { IfOk result (λ events. GoesOn L.takes L.sees stop_on_entry (standing self.old)
            (map plain_event events.items) (standing self.new)) }
    {
        if stop_on_entry {
            self.enter(alloc)
        } else {
            self.run_on(alloc)
        }
    }

    /// Stops a program that still runs where it begins.
    fn enter(&mut self, alloc: Global) -> Result<Vec<Event>, AllocError>
        ensures { IfOk result (λ events. EntersFrom (standing self.old).phase (standing self.old)
            (map plain_event events.items) (standing self.new)) }
    {
        let mut events = Vec::new(alloc);
        match mem::replace(&mut self.phase, Phase::NoProgram) {
            Phase::Running(program, _) => {
                self.phase = Phase::Stopped(program);
                events.push(stopped(alloc, "entry", None)?)?;
            }
            phase => self.phase = phase,
        }
        Ok(events)
    }

    /// Lets the program go on. What is told of its first slice comes with the reply.
    ///
    /// # Errors
    ///
    /// An allocation failed. The program is gone, or runs from where it stood.
    pub fn resume(&mut self, alloc: Global, resume: Resume) -> Result<Reply, AllocError>
        ensures { IfOk result (λ reply. Resumes L.takes L.sees resume (standing self.old) (plain_reply reply)
            (standing self.new)) }
    {
        match mem::replace(&mut self.phase, Phase::NoProgram) {
            Phase::Stopped(program) => {
                let mode = mode_of(resume, program.depth());
                self.phase = Phase::Running(program, mode);
                let mut reply = resumed(alloc, resume)?;
                reply.events = self.run_on(alloc)?;
                Ok(reply)
            }
            phase => {
                self.phase = phase;
                Reply::refused(alloc, "the program isn't stopped")
            }
        }
    }

    /// Stops a program that runs.
    ///
    /// # Errors
    ///
    /// An allocation failed. A program that ran is stopped.
    pub fn pause(&mut self, alloc: Global) -> Result<Reply, AllocError>
        ensures { IfOk result (λ reply. Pauses (standing self.old) (plain_reply reply) (standing self.new)) }
    {
        match mem::replace(&mut self.phase, Phase::NoProgram) {
            Phase::Running(program, _) => {
                self.phase = Phase::Stopped(program);
                let mut reply = Reply::done(alloc);
                reply.push(stopped(alloc, "pause", None)?)?;
                Ok(reply)
            }
            phase => {
                self.phase = phase;
                Reply::refused(alloc, "the program doesn't run")
            }
        }
    }

    /// Ends the program, if there is one.
    ///
    /// # Errors
    ///
    /// An allocation failed. The program has ended.
    pub fn terminate(&mut self, alloc: Global) -> Result<Reply, AllocError>
        ensures { IfOk result (λ reply. Terminates (standing self.old) (plain_reply reply) (standing self.new)) }
    {
        match mem::replace(&mut self.phase, Phase::NoProgram) {
            Phase::NoProgram => Ok(Reply::done(alloc)),
            Phase::Ended(program) => {
                self.phase = Phase::Ended(program);
                Ok(Reply::done(alloc))
            }
            Phase::Configuring(program, _) | Phase::Running(program, _) | Phase::Stopped(program) =>
                {
                    self.phase = Phase::Ended(program);
                    let mut reply = Reply::done(alloc);
                    reply.push(terminated(alloc)?)?;
                    Ok(reply)
                }
        }
    }
}

/// Lets a program arrive where it begins.
fn arrive_first<L: Language>(
    alloc: Global,
    program: L,
    breakpoints: &mut Vec<Breakpoint>,
) -> Result<Ran<L>, AllocError>
    ensures { IfOk result (λ ran. Arrival L.sees program (map plain_breakpoint breakpoints.old.items)
        (map plain_event ran.events.items) ran.phase (option_map plain_fault ran.fault)
        (map plain_breakpoint breakpoints.new.items)) }
{
    let mut told = Vec::new(alloc);
    let halt = arrive(alloc, &program, breakpoints, Mode::Continue, &mut told)?;
    let events = tell(alloc, told, &halt)?;
    Ok(Ran {
        phase: phase_after(&halt, program, Mode::Continue),
        fault: fault_of(halt),
        events,
    })
}

/// Runs a program for a slice.
fn run_slice<L: Language>(
    alloc: Global,
    program: L,
    mode: Mode,
    breakpoints: &mut Vec<Breakpoint>,
) -> Result<Ran<L>, AllocError>
    ensures { IfOk result (λ ran. Slice L.takes L.sees program mode (map plain_breakpoint breakpoints.old.items)
        (map plain_event ran.events.items) ran.phase (option_map plain_fault ran.fault)
        (map plain_breakpoint breakpoints.new.items)) }
{
    let mut program = program;
    let mut told = Vec::new(alloc);
    let halt = run(alloc, &mut program, breakpoints, mode, &mut told)?;
    let events = tell(alloc, told, &halt)?;
    Ok(Ran {
        phase: phase_after(&halt, program, mode),
        fault: fault_of(halt),
        events,
    })
}

/// Returns how far a program has come after a run that halted, or that goes on.
fn phase_after<L: Language>(halt: &Option<Halt>, program: L, mode: Mode) -> Phase<L>
    ensures { result ≡ phase_after (option_map plain_halt halt.now) program mode }
{
    match halt {
        None => Phase::Running(program, mode),
        Some(Halt::AtEnd(_)) => Phase::Ended(program),
        Some(Halt::AtBreakpoint | Halt::AtStep | Halt::AtFault(_)) => Phase::Stopped(program),
    }
}

/// Returns why a run can't go on, if it halted at a fault.
fn fault_of(halt: Option<Halt>) -> Option<Fault>
    ensures { option_map plain_fault result ≡ fault_of (option_map plain_halt halt) }
{
    match halt {
        Some(Halt::AtFault(fault)) => Some(Box::into_inner(fault)),
        _ => None,
    }
}

/// Returns the mode of a run that begins where so many frames are alive.
fn mode_of(resume: Resume, depth: usize) -> Mode
    ensures { result ≡ mode_of resume depth }
{
    match resume {
        Resume::Continue => Mode::Continue,
        Resume::Next => Mode::Over(depth),
        Resume::StepIn => Mode::In,
        Resume::StepOut => Mode::Out(depth),
    }
}

/// Returns the reply that lets the program go on, with no event yet.
fn resumed(alloc: Global, resume: Resume) -> Result<Reply, AllocError>
    ensures { IfOk result (λ reply. plain_reply reply ≡ success (resumed resume) []) }
{
    match resume {
        Resume::Continue => Ok(Reply::with_body(
            alloc,
            json!(in alloc; {"allThreadsContinued": true})?,
        )),
        Resume::Next | Resume::StepIn | Resume::StepOut => Ok(Reply::done(alloc)),
    }
}
