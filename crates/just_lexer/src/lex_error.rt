// Why a text has no tokens.

ghost use Rattle.std.specs.Prelude.{option_map, ◌≡◌};
ghost use Rattle.just_syntax.specs.View.{token_view};
ghost use Rattle.just_lexer.specs.Fault.{lex_error_token};

use crate::fault::FaultKind;
use just_syntax::out_of_memory::OutOfMemory;
use just_syntax::token::Token;
use just_syntax::unstyled::write_unstyled;
use std::error::Error;
use std::fmt;

/// Why a text has no tokens.
#[derive(Clone, Copy, Debug)]
pub enum LexError<'src> {
    /// The first fault of the text, and the token at which it is.
    Fault { kind: FaultKind, token: Token<'src> },
    /// An allocation failed.
    OutOfMemory,
}

impl<'src> LexError<'src> {
    /// The token at which the fault is; `None` for `OutOfMemory`.
    pub fn token(&self) -> Option<Token<'src>>
        ensures { option_map token_view result ≡ lex_error_token self.now }
    {
        match self {
            LexError::Fault { token, .. } => Some(*token),
            LexError::OutOfMemory => None,
        }
    }
}

/// Writes what is wrong, for example ``unclosed delimiter `(` `` or `unterminated string`.
impl fmt::Display for LexError<'_> {
    ghost use Rattle.std.specs.Prelude.{Some};
    ghost use Rattle.just_lexer.specs.Said.{lex_error_text};

    ghost output = { λ error. Some (lex_error_text error) };

    ghost styled_output = { λ error _. Some (lex_error_text error) };

    fn fmt<W: fmt::Write>(&self, f: &mut fmt::Formatter<W>) -> fmt::Result {
        match self {
            LexError::Fault { kind, token } => {
                let words = kind.words();
                let lexeme = token.lexeme;
                if kind.names_token() {
                    write_unstyled(f, format_args!("{words} `{lexeme}`"))
                } else {
                    f.write_str(words)
                }
            }
            LexError::OutOfMemory => write_unstyled(f, OutOfMemory),
        }
    }
}

impl Error for LexError<'_> {}
