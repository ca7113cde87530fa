// The operators that compare two values.

ghost use Rattle.std.specs.Prelude.{◌≡◌};
ghost use Rattle.just_syntax.specs.Prelude.{comparison_text};

use std::fmt;

/// How two values are compared.
#[derive(Clone, Copy, Debug, PartialEq, Eq)]
pub enum ConditionalOperator {
    /// `==`
    Equality,
    /// `!=`
    Inequality,
    /// `=~`, which this layer refuses.
    RegexMatch,
    /// `!~`, which this layer refuses.
    RegexMismatch,
}

impl ConditionalOperator {
    // The operator as written.
    pub(crate) fn text(self) -> &'static str
        ensures { result.now ≡ comparison_text self }
    {
        match self {
            ConditionalOperator::Equality => "==",
            ConditionalOperator::Inequality => "!=",
            ConditionalOperator::RegexMatch => "=~",
            ConditionalOperator::RegexMismatch => "!~",
        }
    }
}

impl fmt::Display for ConditionalOperator {
    ghost use Rattle.std.specs.Prelude.{Some};
    ghost use Rattle.just_syntax.specs.Printed.{comparison_text};

    ghost output = { λ operator. Some (comparison_text operator) };

    ghost styled_output = { λ operator _. Some (comparison_text operator) };

    fn fmt<W: fmt::Write>(&self, f: &mut fmt::Formatter<W>) -> fmt::Result {
        f.write_str(self.text())
    }
}
