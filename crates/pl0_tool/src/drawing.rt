//! The machine as it is drawn: its registers, and the first cells of its frames.

ghost use Rattle.std.specs.Prelude.{◌≡◌, ◌<◌, ◌≤◌, ◌+◌, IfOk, position};
ghost use Rattle.pl0_machine.specs.Frames.{base_of};
ghost use Rattle.pl0_machine.specs.Machine.{frames, frame_of, depth_of, variables_of};
ghost use Rattle.pl0_tool.specs.Drawing.{IsDrawn, IsHead, AreHeads, IsReturn, behind, is_begun};

use crate::tracing::variable_count;
use pl0_machine::Machine;
use pl0_tree::StepNumber;
use pl0_unit::{FRAME_HEAD, Unit};
use std::alloc::{AllocError, Global};

/// The cells at the head of a frame, and the number of the first of them.
#[derive(Clone, Copy, Debug)]
pub struct FrameHead {
    pub base: usize,
    /// Where the frame of the enclosing block begins.
    pub static_link: usize,
    /// Where the caller's frame begins.
    pub dynamic_link: usize,
    /// The address of the instruction after the call.
    pub return_address: usize,
}

/// The registers of a machine, and the heads of frames, the newest last.
#[derive(Drop)]
pub struct Drawing {
    /// P: the address of the next instruction.
    pub address: usize,
    /// B: where the newest frame begins.
    pub base: usize,
    /// T: the topmost cell.
    pub top: usize,
    pub heads: Vec<FrameHead>,
}

/// Draws a machine if it is to be `drawn`, without its oldest frames, of which `hidden` are left out.
///
/// # Errors
///
/// `AllocError`, where an allocation failed.
pub fn draw_if(
    drawn: bool,
    alloc: Global,
    machine: &Machine,
    hidden: usize,
) -> Result<Option<Drawing>, AllocError>
    requires alive { 0 < depth_of machine.now }
    requires within { hidden ≤ depth_of machine.now }
    ensures { IfOk result (IsDrawn drawn machine.now hidden) }
{
    if !drawn {
        return Ok(None);
    }
    let newest = machine.depth() - 1;
    let base = base(machine, newest)?;
    let above = above(machine, newest, base)?;
    let heads = heads_of(alloc, machine, hidden)?;
    Ok(Some(Drawing {
        address: machine.address(),
        base,
        top: above - 1,
        heads,
    }))
}

/// Returns the heads of a machine's frames without the oldest ones, of which `hidden` are left out.
fn heads_of(alloc: Global, machine: &Machine, hidden: usize) -> Result<Vec<FrameHead>, AllocError>
    requires { hidden ≤ depth_of machine.now }
    ensures { IfOk result (λ heads. AreHeads machine.now hidden heads.items) }
{
    let count = machine.depth() - hidden;
    let mut heads = Vec::with_capacity(alloc, count)?;
    for index in 0..count {
        heads.push(head(machine, hidden + index)?)?;
    }
    Ok(heads)
}

/// Returns the head of a frame.
fn head(machine: &Machine, frame: usize) -> Result<FrameHead, AllocError>
    requires { frame < depth_of machine.now }
    ensures { IfOk result (IsHead machine.now frame) }
{
    let depth = machine.depth();
    prove!(frame < depth);
    let static_link = match machine.static_parent(frame) {
        Some(parent) => base(machine, parent)?,
        None => 0,
    };
    Ok(FrameHead {
        base: base(machine, frame)?,
        static_link,
        dynamic_link: base(machine, frame.saturating_sub(1))?,
        return_address: return_address(machine, frame),
    })
}

/// Returns where a frame begins.
fn base(machine: &Machine, frame: usize) -> Result<usize, AllocError>
    requires { frame < depth_of machine.now }
    ensures { IfOk result (λ base. base ≡ base_of (frames machine.now) frame) }
{
    let mut base = 0;
    for below in 0..frame {
        base = above(machine, below, base)?;
    }
    Ok(base)
}

/// Returns where the cells of a frame end that begins at `base`. No stack has so many cells that their number wouldn't
/// fit.
fn above(machine: &Machine, frame: usize, base: usize) -> Result<usize, AllocError>
    requires { frame < depth_of machine.now }
    ensures { IfOk result (λ end. end ≡ base + (3 + variables_of (frame_of machine.now frame))) }
{
    let size = variable_count(machine, frame)
        .checked_add(FRAME_HEAD)
        .ok_or(AllocError)?;
    base.checked_add(size).ok_or(AllocError)
}

/// Returns the address at which the code goes on after the call that made a frame. The main block's frame has none.
pub fn return_address(machine: &Machine, frame: usize) -> usize
    requires { frame < depth_of machine.now }
    ensures { IsReturn machine.now frame result }
{
    if frame == 0 {
        return 0;
    }
    behind(machine.unit(), machine.frame(frame - 1).next_step)
}

/// Returns the address of the instruction after the one that begins a step.
fn behind(unit: &Unit, step: StepNumber) -> usize
    ensures { result ≡ behind unit.now step }
{
    match beginning(&unit.begun_steps, step) {
        Some(at) => at + 1,
        None => 0,
    }
}

/// Returns the address of the instruction that begins a step.
fn beginning(begun_steps: &[Option<StepNumber>], step: StepNumber) -> Option<usize>
    ensures { result ≡ position (is_begun step) begun_steps.now }
{
    begun_steps.iter().position(|begun| is_begun(*begun, step))
}

/// Whether an instruction that begins a step begins this one.
fn is_begun(begun: Option<StepNumber>, step: StepNumber) -> bool
    ensures { result ≡ is_begun step begun }
{
    match begun {
        Some(begun) => begun == step,
        None => false,
    }
}
