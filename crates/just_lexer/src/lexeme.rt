// Tokens with their kinds.

use crate::kind::TokenKind;
use just_syntax::token::Token;

/// A token and its kind.
#[derive(Clone, Copy, Debug)]
pub struct Lexeme<'src> {
    pub kind: TokenKind,
    pub token: Token<'src>,
}
