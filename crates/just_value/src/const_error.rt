// What constant evaluation does not allow.

ghost use Rattle.std.specs.Prelude.{◌≡◌};
ghost use Rattle.just_value.specs.Prelude.{const_refusal, const_token, token_view};

use just_syntax::name::Name;
use just_syntax::token::Token;
use just_syntax::unstyled::write_unstyled;
use std::error::Error;
use std::fmt;

/// What constant evaluation does not allow.
#[derive(Clone, Copy, Debug, PartialEq)]
pub enum ConstError<'src> {
    /// A command.
    Backtick(Token<'src>),
    /// A call of a function.
    FunctionCall(Name<'src>),
    /// A variable without a constant value.
    Variable(Name<'src>),
}

impl<'src> ConstError<'src> {
    /// The token of the refusal. Upstream's `ConstError::context`.
    pub fn token(self) -> Token<'src>
        ensures { token_view result ≡ const_token (const_refusal self.entry) }
    {
        match self {
            ConstError::Backtick(token) => token,
            ConstError::FunctionCall(name) | ConstError::Variable(name) => name.token,
        }
    }
}

impl fmt::Display for ConstError<'_> {
    ghost use Rattle.std.specs.Prelude.{Some};
    ghost use Rattle.just_value.specs.ConstEval.{const_error_text};
    ghost use Rattle.just_value.specs.View.{const_refusal};

    ghost output = { λ error. Some (const_error_text (const_refusal error)) };

    ghost styled_output = { λ error _. Some (const_error_text (const_refusal error)) };

    fn fmt<W: fmt::Write>(&self, f: &mut fmt::Formatter<W>) -> fmt::Result {
        match self {
            ConstError::Backtick(_) => f.write_str("cannot call backticks in const context"),
            ConstError::FunctionCall(_) => f.write_str("cannot call functions in const context"),
            ConstError::Variable(name) => write_unstyled(
                f,
                format_args!("cannot access non-const variable `{name}` in const context"),
            ),
        }
    }
}

impl Error for ConstError<'_> {}
