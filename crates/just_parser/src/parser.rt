// The tokens of a justfile, one after another.

ghost use Rattle.std.specs.Prelude.{IfErr, IfOk, OnOk, ◌≡◌};
ghost use Rattle.just_syntax.specs.View.{name_view, token_view, view};
ghost use Rattle.just_parser.specs.Parsed.{IsPhraseRefusalAt, IsPhraseRefused, IsSameRefusal, unread};
ghost use Rattle.just_parser.specs.Phrase.{Read, accepted, comma_unless, expected, expression, line_end, one, value};
ghost use Rattle.just_lexer.specs.declared.kind.TokenKind.TheVariants.{Identifier};

use crate::parse_error::{Fault, ParseError};
use just_expression_parser::cursor::Cursor;
use just_expression_parser::{parse_error as syntax, parse_expression, parse_value};
use just_lexer::kind::TokenKind;
use just_syntax::expression::Expression;
use just_syntax::name::Name;
use just_syntax::token::Token;
use std::alloc::Global;

/// Reads items from tokens.
#[derive(Drop)]
pub(crate) struct Parser<'tokens, 'src> {
    pub alloc: Global,
    pub cursor: Cursor<'tokens, 'src>,
}

impl<'src> Parser<'_, 'src> {
    /// A token of this kind.
    pub(crate) fn one(&mut self, kind: TokenKind) -> Result<Token<'src>, ParseError<'src>>
        ensures ok { IfOk result (λ t. one kind (unread self.old) ≡ Read (token_view t) (unread self.new)) }
        ensures refused { IfErr result (IsPhraseRefused (one kind (unread self.old))) }
    {
        match self.cursor.take(kind) {
            Some(token) => Ok(token),
            None => Err(self.expected(kind)),
        }
    }

    /// A name.
    pub(crate) fn name(&mut self) -> Result<Name<'src>, ParseError<'src>>
        ensures ok { IfOk result (λ n. one Identifier (unread self.old) ≡ Read (name_view n) (unread self.new)) }
        ensures refused { IfErr result (IsPhraseRefused (one Identifier (unread self.old))) }
    {
        match self.one(TokenKind::Identifier) {
            Ok(token) => Ok(Name { token }),
            Err(refusal) => Err(refusal),
        }
    }

    /// An expression.
    pub(crate) fn expression(&mut self) -> Result<Expression<'src>, ParseError<'src>>
        ensures ok { IfOk result (λ e. expression (unread self.old) ≡ Read (view e) (unread self.new)) }
        ensures refused { IfErr result (IsPhraseRefused (expression (unread self.old))) }
    {
        match parse_expression(self.alloc, self.cursor.rest()) {
            Ok((expression, rest)) => {
                self.cursor = Cursor::new(rest);
                Ok(expression)
            }
            Err(refusal) => Err(of_syntax(refusal)),
        }
    }

    /// A value.
    pub(crate) fn value(&mut self) -> Result<Expression<'src>, ParseError<'src>>
        ensures ok { IfOk result (λ e. value (unread self.old) ≡ Read (view e) (unread self.new)) }
        ensures refused { IfErr result (IsPhraseRefused (value (unread self.old))) }
    {
        match parse_value(self.alloc, self.cursor.rest()) {
            Ok((expression, rest)) => {
                self.cursor = Cursor::new(rest);
                Ok(expression)
            }
            Err(refusal) => Err(of_syntax(refusal)),
        }
    }

    /// The end of a line, or of the file, which stays.
    #[tactic(auto, unfolding(crate::specs::Phrase::line_end))]
    pub(crate) fn line_end(&mut self) -> Result<(), ParseError<'src>>
        ensures ok { OnOk result (line_end (unread self.old) ≡ Read tt (unread self.new)) }
        ensures refused { IfErr result (IsPhraseRefused (line_end (unread self.old))) }
    {
        if self.cursor.is_at(0, TokenKind::Eof) {
            return Ok(());
        }
        match self.one(TokenKind::Eol) {
            Ok(_) => Ok(()),
            Err(refusal) => Err(refusal),
        }
    }

    /// A comma, or nothing before a closing token.
    #[tactic(auto, unfolding(crate::specs::Phrase::comma_unless))]
    pub(crate) fn comma_unless(&mut self, close: TokenKind) -> Result<(), ParseError<'src>>
        ensures ok { OnOk result (comma_unless close (unread self.old) ≡ Read tt (unread self.new)) }
        ensures refused { IfErr result (IsPhraseRefused (comma_unless close (unread self.old))) }
    {
        if self.cursor.is_at(0, close) {
            return Ok(());
        }
        if !self.cursor.is_at(0, TokenKind::Comma) {
            return Err(self.expected(close));
        }
        match self.one(TokenKind::Comma) {
            Ok(_) => Ok(()),
            Err(refusal) => Err(refusal),
        }
    }

    /// A token of this kind, if it comes next; whether it does.
    #[tactic(auto, unfolding(crate::specs::Phrase::accepted))]
    pub(crate) fn accepted(&mut self, kind: TokenKind) -> Result<bool, ParseError<'src>>
        ensures ok { IfOk result (λ is_there. accepted kind (unread self.old) ≡ Read is_there (unread self.new)) }
        ensures refused { IfErr result (IsPhraseRefused (accepted kind (unread self.old))) }
    {
        if !self.cursor.is_at(0, kind) {
            return Ok(false);
        }
        match self.one(kind) {
            Ok(_) => Ok(true),
            Err(refusal) => Err(refusal),
        }
    }

    /// The refusal of the next token, where one of this kind was expected.
    pub(crate) fn expected(&self, kind: TokenKind) -> ParseError<'src>
        ensures { IsPhraseRefusalAt (expected kind) (unread self.now) result }
    {
        self.unexpected(Fault::Syntax(syntax::Fault::Expected(kind)))
    }

    /// The refusal of the next token.
    pub(crate) fn unexpected(&self, fault: Fault) -> ParseError<'src>
        ensures { IsPhraseRefusalAt fault (unread self.now) result }
    {
        let token = match self.cursor.rest().first() {
            Some(lexeme) => Some(lexeme.token),
            None => None,
        };
        ParseError::Unexpected { fault, token }
    }
}

// The refusal of an expression.
fn of_syntax<'src>(refusal: syntax::ParseError<'src>) -> ParseError<'src>
    ensures { IsSameRefusal refusal.entry result }
{
    match refusal {
        syntax::ParseError::Unexpected { fault, token } => ParseError::Unexpected {
            fault: Fault::Syntax(fault),
            token,
        },
        syntax::ParseError::OutOfMemory => ParseError::OutOfMemory,
    }
}
