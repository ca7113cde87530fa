// Tokens: pieces of a source file.

ghost use Rattle.std.specs.Prelude.{option_map, ◌≡◌};
ghost use Rattle.just_syntax.specs.Prelude.{place_view, placed, token_view};

use crate::place::Place;

/// A piece of a source file: its place, counted from 0, its text, and the path of the file.
#[derive(Clone, Copy, Debug, PartialEq, Eq)]
pub struct Token<'src> {
    pub column: usize,
    pub line: usize,
    pub offset: usize,
    pub lexeme: &'src str,
    pub path: &'src str,
}

impl<'src> Token<'src> {
    /// A text at a place; without a place, at the start of a file whose path is empty.
    pub fn new(lexeme: &'src str, place: Option<Place<'src>>) -> Token<'src>
        ensures { token_view result ≡ placed (option_map place_view place.entry) lexeme.now }
    {
        let place = place.unwrap_or(Place::start_of(""));
        Token {
            column: place.column,
            line: place.line,
            offset: place.offset,
            lexeme,
            path: place.path,
        }
    }

    /// The text of the token. Upstream's `Token::lexeme`.
    pub fn lexeme(&self) -> &'src str
        ensures { result ≡ self.now.lexeme }
    {
        self.lexeme
    }
}
