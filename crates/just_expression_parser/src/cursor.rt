// Tokens, one after another.

ghost use Rattle.std.specs.Prelude.{IfErr, IfNone, IfSome, IsFalse, IsTrue, OnOk, [], drop, map, option_map, ◌∷◌, ◌≡◌};
ghost use Rattle.just_syntax.specs.View.{token_view};
ghost use Rattle.just_lexer.specs.View.{lexeme_view};
ghost use Rattle.just_expression_parser.specs.Parsed.{IsNotAt, IsRefusalAt, is_at_word, next_lexeme, tokens};
ghost use Rattle.just_lexer.specs.declared.kind.TokenKind.TheVariants.{Comma};
ghost use Rattle.just_expression_parser.specs.declared.parse_error.Fault.TheVariants.{Expected};
ghost use Rattle.just_expression_parser.specs.Tokens.{Mark, One, is_at, is_kind, is_word};

use crate::parse_error::{Fault, ParseError};
use just_lexer::kind::TokenKind;
use just_lexer::lexeme::Lexeme;
use just_syntax::token::Token;

/// Tokens, and how many of them were taken.
#[derive(Drop)]
pub struct Cursor<'tokens, 'src> {
    pub tokens: &'tokens [Lexeme<'src>],
    pub taken: usize,
}

impl<'tokens, 'src> Cursor<'tokens, 'src> {
    /// Before the first of these tokens.
    pub fn new(lexemes: &'tokens [Lexeme<'src>]) -> Cursor<'tokens, 'src>
        ensures { tokens result ≡ map lexeme_view lexemes.now }
    {
        Cursor {
            tokens: lexemes,
            taken: 0,
        }
    }

    /// The next token.
    pub(crate) fn peek(&self) -> Option<Lexeme<'src>>
        ensures { option_map lexeme_view result ≡ next_lexeme (tokens self.now) }
    {
        match self.tokens.get(self.taken) {
            Some(lexeme) => Some(*lexeme),
            None => None,
        }
    }

    /// Takes the next token.
    pub(crate) fn next(&mut self) -> Option<Lexeme<'src>>
        ensures some { IfSome result (λ t. tokens self.old ≡ lexeme_view t ∷ tokens self.new) }
        ensures none { IfNone result ((tokens self.old ≡ []) × (tokens self.new ≡ [])) }
    {
        match self.tokens.get(self.taken) {
            Some(lexeme) => {
                self.taken += 1;
                Some(*lexeme)
            }
            None => None,
        }
    }

    /// Takes the next token, if it is of this kind.
    pub fn take(&mut self, kind: TokenKind) -> Option<Token<'src>>
        ensures some { IfSome result (λ t. One kind (token_view t) (tokens self.old) (tokens self.new)) }
        ensures none { IfNone result ((tokens self.new ≡ tokens self.old) × IsNotAt kind (tokens self.old)) }
    {
        match self.tokens.get(self.taken) {
            Some(lexeme) => {
                if lexeme.kind != kind {
                    return None;
                }
                self.taken += 1;
                Some(lexeme.token)
            }
            None => None,
        }
    }

    /// Whether the token after so many others is of a kind.
    ///
    /// ```rust
    /// let is_assignment = cursor.is_at(1, TokenKind::ColonEquals);
    /// ```
    pub fn is_at(&self, others: usize, kind: TokenKind) -> bool
        ensures { result ≡ is_at others kind (tokens self.now) }
    {
        match self.rest().get(others) {
            Some(lexeme) => is_of_kind(lexeme, kind),
            None => false,
        }
    }

    /// Whether the next token is this word.
    pub fn is_at_word(&self, word: &str) -> bool
        ensures { result ≡ is_at_word word.now (tokens self.now) }
    {
        match self.tokens.get(self.taken) {
            Some(lexeme) => is_word(lexeme, word),
            None => false,
        }
    }

    /// Takes the next token, if it is this word, and tells whether it is.
    pub(crate) fn take_word(&mut self, word: &str) -> bool
        ensures taken { IsTrue result → tokens self.new ≡ drop 1 (tokens self.old) }
        ensures value { result ≡ is_at_word word.now (tokens self.old) }
        ensures stays { IsFalse result → tokens self.new ≡ tokens self.old }
    {
        let is_at_word = self.is_at_word(word);
        if is_at_word {
            self.taken += 1;
        }
        is_at_word
    }

    /// Takes the next token, which is of this kind.
    ///
    /// # Errors
    ///
    /// `Unexpected`, if it is not: it stays.
    pub(crate) fn expect(&mut self, kind: TokenKind) -> Result<(), ParseError<'src>>
        ensures ok { OnOk result (Mark kind (tokens self.old) (tokens self.new)) }
        ensures err { IfErr result (λ refusal.
            IsRefusalAt (Expected kind) (tokens self.old) refusal × IsNotAt kind (tokens self.old)) }
    {
        match self.take(kind) {
            Some(_) => Ok(()),
            None => Err(self.unexpected(Fault::Expected(kind))),
        }
    }

    /// Takes the next token, which is a comma.
    ///
    /// # Errors
    ///
    /// `Unexpected`, if it is not: it stays. The kind that was expected is that of the token without which a comma
    /// comes.
    pub(crate) fn expect_comma(&mut self, unless: TokenKind) -> Result<(), ParseError<'src>>
        ensures ok { OnOk result (Mark Comma (tokens self.old) (tokens self.new)) }
        ensures err { IfErr result (λ refusal.
            IsRefusalAt (Expected unless) (tokens self.old) refusal × IsNotAt Comma (tokens self.old)) }
    {
        match self.take(TokenKind::Comma) {
            Some(_) => Ok(()),
            None => Err(self.unexpected(Fault::Expected(unless))),
        }
    }

    /// The tokens that are left.
    pub fn rest(&self) -> &'tokens [Lexeme<'src>]
        ensures { map lexeme_view result.now ≡ tokens self.now }
    {
        let taken = self.taken.min(self.tokens.len());
        &self.tokens[taken..]
    }

    /// The refusal of the next token.
    pub(crate) fn unexpected(&self, fault: Fault) -> ParseError<'src>
        ensures { IsRefusalAt fault (tokens self.now) result }
    {
        let token = match self.tokens.get(self.taken) {
            Some(lexeme) => Some(lexeme.token),
            None => None,
        };
        ParseError::Unexpected { fault, token }
    }
}

// Whether a token is of this kind.
#[tactic(auto, unfolding(crate::specs::Tokens::is_kind, crate::specs::Tokens::code))]
fn is_of_kind(lexeme: &Lexeme, kind: TokenKind) -> bool
    ensures { result ≡ is_kind kind (lexeme_view lexeme.now) }
{
    lexeme.kind == kind
}

// Whether a token is this word.
#[tactic(auto, unfolding(crate::specs::Tokens::is_word, crate::specs::Tokens::is_kind, crate::specs::Tokens::code))]
fn is_word(lexeme: &Lexeme, word: &str) -> bool
    ensures { result ≡ is_word word.now (lexeme_view lexeme.now) }
{
    lexeme.kind == TokenKind::Identifier && lexeme.token.lexeme == word
}
