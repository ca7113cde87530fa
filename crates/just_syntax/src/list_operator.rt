// The operators that combine two lists element by element.

ghost use Rattle.std.specs.Prelude.{◌≡◌};
ghost use Rattle.just_syntax.specs.Prelude.{separator};

use std::fmt;

/// How two lists are combined element by element.
#[derive(Clone, Copy, Debug, PartialEq, Eq)]
pub enum ListOperator {
    /// `+`, with nothing between two elements.
    Concatenate,
    /// `/`, with a slash between two elements.
    Join,
}

impl ListOperator {
    /// The separator between two combined elements: nothing, or a slash. Upstream's `ListOperator::separator`.
    pub fn separator(self) -> &'static str
        ensures { result.now ≡ separator self }
    {
        match self {
            ListOperator::Concatenate => "",
            ListOperator::Join => "/",
        }
    }
}

impl fmt::Display for ListOperator {
    ghost use Rattle.std.specs.Prelude.{Some};
    ghost use Rattle.just_syntax.specs.ListOperator.{operator_text};

    ghost output = { λ operator. Some (operator_text operator) };

    ghost styled_output = { λ operator _. Some (operator_text operator) };

    fn fmt<W: fmt::Write>(&self, f: &mut fmt::Formatter<W>) -> fmt::Result {
        match self {
            ListOperator::Concatenate => f.write_str("+"),
            ListOperator::Join => f.write_str("/"),
        }
    }
}
