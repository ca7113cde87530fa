// Names.

ghost use Rattle.std.specs.Prelude.{option_map, ◌≡◌};
ghost use Rattle.just_syntax.specs.Prelude.{name_view, place_view, placed};

use crate::place::Place;
use crate::token::Token;
use std::fmt;

/// A name in a source file.
#[derive(Clone, Copy, Debug, PartialEq, Eq)]
pub struct Name<'src> {
    pub token: Token<'src>,
}

impl<'src> Name<'src> {
    /// A name at a place; without a place, at the start of a file whose path is empty.
    pub fn new(lexeme: &'src str, place: Option<Place<'src>>) -> Name<'src>
        ensures { name_view result ≡ placed (option_map place_view place.entry) lexeme.now }
    {
        Name {
            token: Token::new(lexeme, place),
        }
    }

    /// The text of the name.
    pub fn lexeme(&self) -> &'src str
        ensures { result ≡ self.now.token.lexeme }
    {
        self.token.lexeme
    }
}

impl fmt::Display for Name<'_> {
    ghost use Rattle.std.specs.Prelude.{Some};

    ghost output = { λ name. Some name.token.lexeme.now };

    ghost styled_output = { λ name _. Some name.token.lexeme.now };

    fn fmt<W: fmt::Write>(&self, f: &mut fmt::Formatter<W>) -> fmt::Result {
        f.write_str(self.token.lexeme)
    }
}
