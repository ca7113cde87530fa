//! Laws of the program's answers. Each is a function that does nothing: its contract is the law.

ghost use Rattle.just_bench.specs.Prelude.{OneAnswer};

/// A case has one answer: two answers of the program to the same bytes, neither of which reports `OutOfMemory` in its
/// last line, are the same text with the same status.
pub fn one_answer()
    ensures { OneAnswer }
{}
