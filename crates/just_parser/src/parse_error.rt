// Why a text is no justfile.

ghost use Rattle.std.specs.Prelude.{option_map, ◌≡◌};
ghost use Rattle.just_syntax.specs.View.{token_view};
ghost use Rattle.just_parser.specs.Parsed.{parse_error_token};

use just_expression_parser::parse_error as expression;
use just_lexer::fault::FaultKind;
use just_lexer::lex_error::LexError;
use just_syntax::out_of_memory::OutOfMemory;
use just_syntax::token::Token;
use just_syntax::unstyled::write_unstyled;
use std::error::Error;
use std::fmt;

/// What is wrong at a token.
#[derive(Clone, Copy, Debug)]
pub enum Fault {
    /// `true` or `false` was expected.
    ExpectedBoolean,
    /// A list of a command and its first arguments was expected.
    ExpectedCommand,
    /// A string of a tab, or of some spaces, was expected.
    ExpectedIndentation,
    /// An item was expected.
    ExpectedItem,
    /// After attributes an item was expected that takes them.
    ExtraneousAttributes,
    /// A token of some kind, or an expression, was expected.
    Syntax(expression::Fault),
    /// No setting has this name.
    UnknownSetting,
    /// An import, or a module, is not read.
    Unsupported,
}

/// Why a text is no justfile.
#[derive(Clone, Copy, Debug)]
pub enum ParseError<'src> {
    /// The text has no tokens: the first fault, and the token at which it is.
    Lex {
        kind: FaultKind,
        token: Token<'src>,
    },
    /// The refused token, with which no item goes on; `None` for the end. What decides four faults is
    /// [`refuses_early`](crate::laws::refuses_early).
    Unexpected {
        fault: Fault,
        token: Option<Token<'src>>,
    },
    /// An allocation failed, or forms nest too deeply.
    OutOfMemory,
}

impl<'src> ParseError<'src> {
    /// The token at which the text is refused; `None` for the end and for `OutOfMemory`.
    pub fn token(&self) -> Option<Token<'src>>
        ensures { option_map token_view result ≡ parse_error_token self.now }
    {
        match self {
            ParseError::Lex { token, .. } => Some(*token),
            ParseError::Unexpected { token, .. } => *token,
            ParseError::OutOfMemory => None,
        }
    }
}

/// Writes what was expected and what was found, for example ``expected ':=', found `=` ``.
impl fmt::Display for ParseError<'_> {
    fn fmt<W: fmt::Write>(&self, f: &mut fmt::Formatter<W>) -> fmt::Result {
        match self {
            ParseError::Lex { kind, token } => {
                let (kind, token) = (*kind, *token);
                write_unstyled(f, LexError::Fault { kind, token })
            }
            ParseError::Unexpected { fault, token } => {
                let token = *token;
                let words = match fault {
                    Fault::ExpectedBoolean => "expected `true` or `false`",
                    Fault::ExpectedCommand => "expected a list of a command and its arguments",
                    Fault::ExpectedIndentation => "expected a string of a tab or of spaces",
                    Fault::ExpectedItem => "expected an item",
                    Fault::ExtraneousAttributes => "expected an item that takes attributes",
                    Fault::Syntax(fault) => {
                        let fault = *fault;
                        return write_unstyled(
                            f,
                            expression::ParseError::Unexpected { fault, token },
                        );
                    }
                    Fault::UnknownSetting => "unknown setting",
                    Fault::Unsupported => "imports and modules are not read",
                };
                f.write_str(words)?;
                expression::write_found(f, token)
            }
            ParseError::OutOfMemory => write_unstyled(f, OutOfMemory),
        }
    }
}

impl Error for ParseError<'_> {}
