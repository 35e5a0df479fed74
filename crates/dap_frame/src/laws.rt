//! What holds of all frames and faults.

ghost use Rattle.dap_frame.specs.Laws.{FramesAreUnique, FaultsAreUnique, NeverBoth, OneOfThree, IsReadAgain, FramesJoin};
ghost use Rattle.dap_frame.specs.WorkedFaults.{FaultsAreThese, OtherFieldsAreLawful};

/// At the front of each rest stands one frame, or one fault, or neither; what is written is read again; and frames join.
///
/// It does nothing: its contract is the laws.
pub fn frame_laws()
    ensures frames { FramesAreUnique }
    ensures faults { FaultsAreUnique }
    ensures both { NeverBoth }
    ensures one_of_three { OneOfThree }
    ensures again { IsReadAgain }
    ensures join { FramesJoin }
{}

/// Which header parts are at fault, by examples. It does nothing: its contract is the examples.
pub fn worked_faults()
    ensures faults { FaultsAreThese }
    ensures fields { OtherFieldsAreLawful }
{}
