// Format strings.

ghost use Rattle.std.specs.Prelude.{[], map, ◌∷◌};
ghost use Rattle.just_syntax.specs.View.{literal_view, piece_view, token_view, view};
ghost use Rattle.just_lexer.specs.declared.kind.TokenKind.TheVariants as kinds;
ghost use Rattle.just_expression_parser.specs.Machine as machine;
ghost use Rattle.just_expression_parser.specs.Parsed.{GoesOn, IsNotAt, goes, goes_at, left, style_view};
ghost use Rattle.just_expression_parser.specs.Tokens.{lexeme};

use crate::frame::{Frame, State};
use crate::interpolation::last_text;
use crate::literal::{middle_of_format, start_of_format};
use crate::machine::Machine;
use crate::operator::OR;
use crate::outcome::with_piece;
use crate::parse_error::ParseError;
use crate::style::Style;
use just_lexer::kind::TokenKind;
use just_syntax::expression::Expression;
use just_syntax::string_literal::StringLiteral;
use just_syntax::token::Token;

impl<'src> Machine<'_, 'src> {
    /// The text of a format string up to its first interpolation, after its token.
    pub(crate) fn format_string(
        &mut self,
        token: Token<'src>,
    ) -> Result<State<'src>, ParseError<'src>>
        ensures { GoesOn (goes_at (lexeme kinds.FormatStringStart (token_view token.entry)) self.old machine.Value)
            result self.new }
    {
        match start_of_format(self.alloc, token) {
            Ok(start) => self.wait(
                Frame::Interpolation {
                    start,
                    pieces: Vec::new(self.alloc),
                    style: Style::of_format(token.lexeme),
                },
                State::Expression(OR),
            ),
            Err(refusal) => Err(refusal),
        }
    }

    /// After an interpolation, the text up to the next one, or up to the end.
    pub(crate) fn after_interpolation(
        &mut self,
        start: StringLiteral<'src>,
        pieces: Vec<(Expression<'src>, StringLiteral<'src>)>,
        style: Style,
        value: Expression<'src>,
    ) -> Result<State<'src>, ParseError<'src>>
        ensures { GoesOn (goes self.old (machine.Done (view value.entry))
            (machine.Interpolation (literal_view start.entry) (map piece_view pieces.entry.items) (style_view style) ∷
            [])) result self.new }
    {
        match self.cursor.take(TokenKind::FormatStringContinue) {
            Some(token) => {
                let text = middle_of_format(self.alloc, style, token);
                match with_piece(start, pieces, value, text) {
                    Ok((start, pieces)) => self.wait(
                        Frame::Interpolation {
                            start,
                            pieces,
                            style,
                        },
                        State::Expression(OR),
                    ),
                    Err(refusal) => Err(refusal),
                }
            }
            None => self.after_last_interpolation(start, pieces, style, value),
        }
    }

    /// After the last interpolation, the text up to the end.
    pub(crate) fn after_last_interpolation(
        &mut self,
        start: StringLiteral<'src>,
        pieces: Vec<(Expression<'src>, StringLiteral<'src>)>,
        style: Style,
        value: Expression<'src>,
    ) -> Result<State<'src>, ParseError<'src>>
        ensures { IsNotAt kinds.FormatStringContinue (left self.old) → GoesOn
            (goes self.old (machine.Done (view value.entry))
            (machine.Interpolation (literal_view start.entry) (map piece_view pieces.entry.items) (style_view style) ∷
            [])) result self.new }
    {
        let text = last_text(self.alloc, &mut self.cursor, style);
        match with_piece(start, pieces, value, text) {
            Ok((start, pieces)) => Ok(State::Done(Expression::format_string(start, pieces))),
            Err(refusal) => Err(refusal),
        }
    }
}
