// What a token may be inside of.

ghost use Rattle.std.specs.Prelude.{◌≡◌};
ghost use Rattle.just_lexer.specs.Inside.{same_delimiter};

use crate::quote::Quote;

/// A kind of delimiters.
#[derive(Clone, Copy, Debug)]
pub enum Delimiter {
    Brace,
    Bracket,
    Paren,
}

impl Delimiter {
    /// Whether two delimiters have the same kind.
    pub(crate) fn is_same(self, other: Delimiter) -> bool
        ensures { result ≡ same_delimiter self other }
    {
        match (self, other) {
            (Delimiter::Brace, Delimiter::Brace)
            | (Delimiter::Bracket, Delimiter::Bracket)
            | (Delimiter::Paren, Delimiter::Paren) => true,
            _ => false,
        }
    }
}

/// What is open: a delimiter that began in a line, an interpolation of a recipe's body, or one of a format string.
#[derive(Clone, Copy, Debug)]
pub(crate) enum Inside {
    Delimiter { delimiter: Delimiter, line: usize },
    Interpolation,
    FormatString(Quote),
}
