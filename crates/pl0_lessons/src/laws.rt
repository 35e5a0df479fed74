//! Examples of the pages.

ghost use Rattle.pl0_lessons.specs.WorkedPages.{InstructionsAre, LeadsAre, PassedAre};

/// The instructions of a step, computed. It does nothing: its contract is the examples.
pub fn worked_pages()
    ensures instructions { InstructionsAre }
    ensures leads { LeadsAre }
    ensures passed { PassedAre }
{}
