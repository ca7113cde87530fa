//! Laws about the tokens of a text. Each is a function that does nothing; its contract is the law.

ghost use Rattle.just_lexer.specs.Laws.{OneResult, PlacesCount, SomeResult};

/// A text has one list of tokens, and lexing ends in one way.
pub fn one_result()
    ensures { OneResult }
{}

/// Each text has such a list: each step takes a byte or ends a body, so lexing ends.
pub fn some_result()
    ensures { SomeResult }
{}

/// The line of a place is the number of newlines before it, and its offset the number of bytes.
pub fn places_count()
    ensures { PlacesCount }
{}
