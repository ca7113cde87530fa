// Assertions.

ghost use Rattle.std.specs.Prelude.{[], ◌∷◌};
ghost use Rattle.just_syntax.specs.View.{name_view, view};
ghost use Rattle.just_expression_parser.specs.Machine as machine;
ghost use Rattle.just_expression_parser.specs.Parsed.{GoesOn, goes};

use crate::frame::{Frame, State};
use crate::machine::{Machine, done};
use crate::operator::OR;
use crate::outcome::allocated;
use crate::parse_error::ParseError;
use just_lexer::kind::TokenKind;
use just_syntax::expression::Expression;
use just_syntax::name::Name;
use just_syntax::results::followed;

impl<'src> Machine<'_, 'src> {
    /// After the condition of an assertion, a comma and a message, or the parenthesis.
    pub(crate) fn after_condition(
        &mut self,
        name: Name<'src>,
        condition: Expression<'src>,
    ) -> Result<State<'src>, ParseError<'src>>
        ensures { GoesOn (goes self.old (machine.Done (view condition.entry))
            (machine.Assertion (name_view name.entry) ∷ [])) result self.new }
    {
        match self.cursor.take(TokenKind::Comma) {
            Some(_) => self.wait(Frame::Message { condition, name }, State::Expression(OR)),
            None => match followed(condition, self.cursor.expect(TokenKind::ParenR)) {
                Ok(condition) => {
                    done(allocated(Expression::assert(self.alloc, name, condition, None)))
                }
                Err(refusal) => Err(refusal),
            },
        }
    }

    /// After the message of an assertion, the parenthesis.
    pub(crate) fn after_message(
        &mut self,
        name: Name<'src>,
        condition: Expression<'src>,
        message: Expression<'src>,
    ) -> Result<State<'src>, ParseError<'src>>
        ensures { GoesOn (goes self.old (machine.Done (view message.entry))
            (machine.Message (view condition.entry) (name_view name.entry) ∷ [])) result self.new }
    {
        match followed((condition, message), self.cursor.expect(TokenKind::ParenR)) {
            Ok((condition, message)) => done(allocated(Expression::assert(
                self.alloc,
                name,
                condition,
                Some(message),
            ))),
            Err(refusal) => Err(refusal),
        }
    }
}
