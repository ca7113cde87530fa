// Why tokens are refused.

ghost use Rattle.std.specs.Prelude.{option_map};
ghost use Rattle.std.specs.Fmt.{WritesStyledOnOk};
ghost use Rattle.just_syntax.specs.View.{token_view};
ghost use Rattle.just_expression_parser.specs.Found.{found_text};

use just_lexer::kind::TokenKind;
use just_syntax::out_of_memory::OutOfMemory;
use just_syntax::token::Token;
use just_syntax::unstyled::write_unstyled;
use std::error::Error;
use std::fmt;

/// What is wrong at a token.
#[derive(Clone, Copy, Debug)]
pub enum Fault {
    /// An expression was expected.
    ExpectedExpression,
    /// A token of this kind was expected.
    Expected(TokenKind),
    /// A string has an escape that means nothing.
    InvalidEscape,
}

/// Why tokens are refused.
#[derive(Clone, Copy, Debug)]
pub enum ParseError<'src> {
    /// The first token that no expression continues; `None` for the end.
    Unexpected {
        fault: Fault,
        token: Option<Token<'src>>,
    },
    /// An allocation failed, or forms nest too deeply.
    OutOfMemory,
}

/// Writes what was expected and what was found, for example ``expected ')', found `,` ``.
impl fmt::Display for ParseError<'_> {
    fn fmt<W: fmt::Write>(&self, f: &mut fmt::Formatter<W>) -> fmt::Result {
        match self {
            ParseError::Unexpected { fault, token } => {
                match fault {
                    Fault::ExpectedExpression => f.write_str("expected an expression")?,
                    Fault::Expected(kind) => write_unstyled(f, format_args!("expected {kind}"))?,
                    Fault::InvalidEscape => f.write_str("invalid escape")?,
                }
                write_found(f, *token)
            }
            ParseError::OutOfMemory => write_unstyled(f, OutOfMemory),
        }
    }
}

impl Error for ParseError<'_> {}

/// Writes the token that was found in the place of what was expected, for example ``, found `,` ``. No token, and one
/// without a text, is the end: `, found the end`.
///
/// # Errors
///
/// `fmt::Error`, if the writer fails.
pub fn write_found<W: fmt::Write>(f: &mut fmt::Formatter<W>, token: Option<Token>) -> fmt::Result
    ensures { WritesStyledOnOk W.write_str_gives f.old result (found_text (option_map token_view token.entry)) f.new }
{
    match token {
        Some(token) if !token.lexeme.is_empty() => {
            let lexeme = token.lexeme;
            write_unstyled(f, format_args!(", found `{lexeme}`"))
        }
        _ => f.write_str(", found the end"),
    }
}
