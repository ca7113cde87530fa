// The places that require one text.

ghost use Rattle.std.specs.Prelude.{◌≡◌};
ghost use Rattle.just_syntax.specs.Prelude.{string_context_view, token, token_view};

use crate::name::Name;
use crate::token::Token;
use crate::unstyled::write_unstyled;
use std::fmt;

/// A place that requires one text: a value of any other length is refused.
#[derive(Clone, Copy, Debug, PartialEq, Eq)]
pub enum StringContext<'src> {
    /// The key of the attribute with this name.
    EnvKey(Name<'src>),
    /// An argument of the function with this name.
    Function(Name<'src>),
    /// The setting with this name.
    Setting(Name<'src>),
}

impl<'src> StringContext<'src> {
    /// The token of the name. Upstream's `StringContext::token`.
    pub fn token(self) -> Token<'src>
        ensures { token_view result ≡ token (string_context_view self.entry) }
    {
        match self {
            StringContext::EnvKey(name)
            | StringContext::Function(name)
            | StringContext::Setting(name) => name.token,
        }
    }
}

impl fmt::Display for StringContext<'_> {
    ghost use Rattle.std.specs.Prelude.{Some};
    ghost use Rattle.just_syntax.specs.StringContext.{context_text};
    ghost use Rattle.just_syntax.specs.View.{string_context_view};

    ghost output = { λ context. Some (context_text (string_context_view context)) };

    ghost styled_output = { λ context _. Some (context_text (string_context_view context)) };

    fn fmt<W: fmt::Write>(&self, f: &mut fmt::Formatter<W>) -> fmt::Result {
        match self {
            StringContext::EnvKey(name) => write_unstyled(
                f,
                format_args!("in key of `{name}` attribute"),
            ),
            StringContext::Function(name) => write_unstyled(
                f,
                format_args!("in argument to function `{name}`"),
            ),
            StringContext::Setting(name) => write_unstyled(f, format_args!("in setting `{name}`")),
        }
    }
}
