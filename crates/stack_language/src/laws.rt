//! Laws and worked examples of the language.

ghost use Rattle.stack_language.specs.Laws.{StepsAreOne, StopsAreShown};
ghost use Rattle.stack_language.specs.WorkedSteps.{LinesFollow, NumbersAreCalculated, NumbersAreMissing, NumbersMove, QuotientsAreRounded, ResultsOverflow, RoomIsLimited, StepsFollow, StepsTell, ZeroJumps};
ghost use Rattle.stack_language.specs.WorkedText.{InstructionsAreRead, LinesAreRead, NamesMeanAlone, NamesMeanWithOperand, OperandsAreRead};
ghost use Rattle.stack_language.specs.WorkedShown.{ExpressionsAreSeen, FramesAreShown, LinesAreSeen, MistakesAreFound, NamesMean, PlacesAreFound, PlacesAreSeen, ScopesAreShown, StacksAreShown, ValuesHold, VariablesAreShown};

/// A state has one step, so `takes` allows no other; and at a breakpoint the newest frame is shown at the line at which the
/// breakpoint was set. It does nothing: its contract is the laws.
pub fn language_laws()
    ensures one { StepsAreOne }
    ensures shown { StopsAreShown }
{}

/// What each instruction does, which fail, and the steps of a program, computed from the definitions. A wrong definition
/// doesn't meet them. It does nothing: its contract is the examples.
pub fn worked_steps()
    ensures moved { NumbersMove }
    ensures calculated { NumbersAreCalculated }
    ensures rounded { QuotientsAreRounded }
    ensures lines { LinesFollow }
    ensures zero { ZeroJumps }
    ensures missing { NumbersAreMissing }
    ensures overflow { ResultsOverflow }
    ensures room { RoomIsLimited }
    ensures steps { StepsFollow }
    ensures told { StepsTell }
{}

/// What a debugger sees of a state, and what a client is shown, computed from the definitions. A wrong definition doesn't meet
/// them. It does nothing: its contract is the examples.
pub fn worked_views()
    ensures names { NamesMean }
    ensures values { ValuesHold }
    ensures expressions { ExpressionsAreSeen }
    ensures variables { VariablesAreShown }
    ensures scopes { ScopesAreShown }
    ensures stacks { StacksAreShown }
    ensures mistakes { MistakesAreFound }
    ensures lines { LinesAreSeen }
    ensures seen { PlacesAreSeen }
    ensures places { PlacesAreFound }
    ensures frames { FramesAreShown }
{}

/// Which instruction a line is, and which line is a mistake, computed from the definitions. It does nothing: its contract is
/// the examples.
pub fn worked_texts()
    ensures alone { NamesMeanAlone }
    ensures operated { NamesMeanWithOperand }
    ensures operands { OperandsAreRead }
    ensures instructions { InstructionsAreRead }
    ensures lines { LinesAreRead }
{}
