//! The law of code.

ghost use Rattle.pl0_code.specs.Laws.{OneCode};

/// A program has only one code, so units of the same text have equal code. It does nothing: its contract is the law.
pub fn code_laws()
    ensures one_code { OneCode }
{}
