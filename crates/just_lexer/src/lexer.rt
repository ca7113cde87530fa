// The state of lexing, and its steps.

ghost use Rattle.std.specs.Prelude.{IfOk, OnOk, [], drop, map, reverse, take, ◌≡◌};
ghost use Rattle.std.specs.Str.{IsCharBoundary};
ghost use Rattle.just_syntax.specs.Place.{token_at};
ghost use Rattle.just_syntax.specs.View.{place_view, token_view};
ghost use Rattle.just_lexer.specs.Advances.{FitsIn, PlaceFits};
ghost use Rattle.just_lexer.specs.Lexes.{lexeme_at, state_after};
ghost use Rattle.just_lexer.specs.Line.{next, outside};
ghost use Rattle.just_lexer.specs.State.{innermost_open, opening_token, start_state};
ghost use Rattle.just_lexer.specs.View.{lexeme_view, lexer_view, opening_view};

use crate::changes::{
    change_openings, has_colon_after, in_line_after, indentation_after, place_after,
};
use crate::inside::Inside;
use crate::kind::TokenKind;
use crate::lexeme::Lexeme;
use crate::line::{enclosed, in_line, line_start, text_end};
use crate::step::Step;
use just_syntax::out_of_memory::OutOfMemory;
use just_syntax::place::Place;
use just_syntax::token::Token;
use std::alloc::Global;

/// What is open, and the token that opened it.
#[derive(Clone, Copy, Debug)]
pub(crate) struct Opening<'src> {
    pub inside: Inside,
    pub token: Token<'src>,
}

/// The state of lexing: the rest of the text and its place, what is open, the indentation of the recipe's body, whether
/// a line has begun, and whether a body may follow.
#[derive(Drop)]
pub(crate) struct Lexer<'src> {
    pub place: Place<'src>,
    pub rest: &'src str,
    pub openings: Vec<Opening<'src>>,
    /// Empty outside of bodies.
    pub indentation: &'src str,
    pub in_line: bool,
    pub has_colon: bool,
}

impl<'src> Lexer<'src> {
    /// The start of the file with this path and text.
    pub(crate) fn new(alloc: Global, path: &'src str, source: &'src str) -> Lexer<'src>
        ensures state { lexer_view result ≡ start_state path.now }
        ensures text { result.rest.now ≡ source.now }
    {
        Lexer {
            place: Place::start_of(path),
            rest: source,
            openings: Vec::new(alloc),
            indentation: "",
            in_line: false,
            has_colon: false,
        }
    }

    /// What comes next.
    pub(crate) fn next(&self) -> Step
        ensures value { result ≡ next (lexer_view self.now) self.now.rest.now }
        ensures fits { FitsIn self.now.indentation.now self.now.rest.now result }
    {
        self.step(self.rest.as_bytes())
    }

    // What comes next in a text.
    #[tactic(auto, unfolding(crate::specs::Line::next, crate::specs::Line::next_inside))]
    fn step(&self, text: &[u8]) -> Step
        ensures { result ≡ next (lexer_view self.now) text.now }
    {
        match innermost(&self.openings) {
            None => self.outside(text),
            Some(inside) => enclosed(inside, text),
        }
    }

    // What comes next outside of all delimiters.
    #[tactic(auto, unfolding(crate::specs::Line::outside))]
    fn outside(&self, text: &[u8]) -> Step
        ensures { result ≡ outside (lexer_view self.now) text.now }
    {
        let indentation = self.indentation.as_bytes();
        if text.is_empty() {
            text_end(indentation)
        } else if self.in_line {
            in_line(indentation, text)
        } else {
            line_start(self.place.offset, indentation, self.has_colon, text)
        }
    }

    /// Takes a token.
    ///
    /// # Errors
    ///
    /// `OutOfMemory`, if an allocation fails.
    pub(crate) fn take(
        &mut self,
        kind: TokenKind,
        count: usize,
    ) -> Result<Lexeme<'src>, OutOfMemory>
        requires cut { IsCharBoundary self.old.rest.now count }
        requires fits { PlaceFits (place_view self.old.place) self.old.rest.now }
        ensures lexeme { IfOk result (λ lexeme. lexeme_view lexeme
            ≡ lexeme_at (lexer_view self.old) kind (take count self.old.rest.now)) }
        ensures state { OnOk result (lexer_view self.new
            ≡ state_after kind (take count self.old.rest.now) (lexer_view self.old)) }
        ensures rest { OnOk result (self.new.rest.now ≡ drop count self.old.rest.now) }
    {
        let (lexeme, rest) = self.rest.split_at(count);
        let token = Token::new(lexeme, Some(self.place));
        let is_outside = self.openings.is_empty();
        match change_openings(&mut self.openings, kind, token) {
            Ok(()) => {}
            Err(error) => return Err(error),
        }
        self.indentation = indentation_after(kind, lexeme, self.indentation);
        self.has_colon = has_colon_after(kind, is_outside, self.in_line, self.has_colon);
        self.in_line = in_line_after(kind, self.in_line);
        self.place = place_after(self.place, lexeme);
        self.rest = rest;
        Ok(Lexeme { kind, token })
    }

    /// The token of the next bytes.
    pub(crate) fn next_token(&self, count: usize) -> Token<'src>
        requires { IsCharBoundary self.now.rest.now count }
        ensures { token_view result ≡ token_at (place_view self.now.place) (take count self.now.rest.now) }
    {
        let (lexeme, _) = self.rest.split_at(count);
        Token::new(lexeme, Some(self.place))
    }

    /// The token that opened the innermost of what is open.
    pub(crate) fn opening_token(&self) -> Token<'src>
        ensures { token_view result ≡ opening_token (lexer_view self.now) (lexer_view self.now).openings }
    {
        match self.openings.last() {
            None => self.end_token(),
            Some(opening) => opening.token,
        }
    }

    /// An empty token at this place.
    pub(crate) fn end_token(&self) -> Token<'src>
        ensures { token_view result ≡ token_at (place_view self.now.place) [] }
    {
        Token::new("", Some(self.place))
    }
}

// The innermost of what is open.
fn innermost(openings: &[Opening]) -> Option<Inside>
    ensures { result ≡ innermost_open (reverse (map opening_view openings.now)) }
{
    match openings.last() {
        None => None,
        Some(opening) => Some(opening.inside),
    }
}
