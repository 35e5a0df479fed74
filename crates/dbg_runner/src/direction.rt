//! Whether a run goes on or back.

ghost use Rattle.std.specs.Prelude.{◌≡◌};
ghost use Rattle.dbg_runner.specs.Plain.{goes_back};

use dbg_plan::Mode;

/// Whether a run in this mode goes back.
pub fn goes_back(mode: Mode) -> bool
    ensures { result ≡ goes_back mode }
{
    match mode {
        Mode::StepBack | Mode::Reverse => true,
        Mode::Entry | Mode::Continue | Mode::In | Mode::Over(_) | Mode::Out(_) => false,
    }
}
