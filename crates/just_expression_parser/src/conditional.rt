// Conditionals.

ghost use Rattle.std.specs.Prelude.{IfErr, IfOk, [], option_map, ◌∷◌, ◌≡◌};
ghost use Rattle.just_syntax.specs.View.{conditional, view};
ghost use Rattle.just_expression_parser.specs.Machine as machine;
ghost use Rattle.just_expression_parser.specs.Parsed.{GoesOn, goes, state_view};

use crate::frame::{Frame, State};
use crate::machine::{Machine, done};
use crate::operator::OR;
use crate::outcome::allocated;
use crate::parse_error::ParseError;
use just_lexer::kind::TokenKind;
use just_syntax::expression::Expression;
use just_syntax::results::followed;
use std::alloc::Global;

impl<'src> Machine<'_, 'src> {
    /// After a condition, the brace of its branch.
    pub(crate) fn braced_branch(
        &mut self,
        condition: Expression<'src>,
    ) -> Result<State<'src>, ParseError<'src>>
        ensures { GoesOn (goes self.old (machine.Done (view condition.entry)) (machine.Condition ∷ [])) result
            self.new }
    {
        match followed(condition, self.cursor.expect(TokenKind::BraceL)) {
            Ok(condition) => self.wait(Frame::Consequence { condition }, State::Expression(OR)),
            Err(refusal) => Err(refusal),
        }
    }

    /// After a branch, its brace.
    pub(crate) fn after_consequence(
        &mut self,
        condition: Expression<'src>,
        consequence: Expression<'src>,
    ) -> Result<State<'src>, ParseError<'src>>
        ensures { GoesOn (goes self.old (machine.Done (view consequence.entry))
            (machine.Consequence (view condition.entry) ∷ [])) result self.new }
    {
        match followed(
            (condition, consequence),
            self.cursor.expect(TokenKind::BraceR),
        ) {
            Ok((condition, consequence)) => Ok(State::Otherwise {
                condition,
                consequence,
            }),
            Err(refusal) => Err(refusal),
        }
    }

    /// `else`, if there is another branch.
    pub(crate) fn otherwise(
        &mut self,
        condition: Expression<'src>,
        consequence: Expression<'src>,
    ) -> Result<State<'src>, ParseError<'src>>
        ensures { GoesOn (goes self.old (machine.Else (view condition.entry) (view consequence.entry)) []) result
            self.new }
    {
        if self.cursor.take_word("else") {
            Ok(State::Branch {
                condition,
                consequence,
            })
        } else {
            conditional(self.alloc, condition, consequence, None)
        }
    }

    /// The other branch, after `else`.
    pub(crate) fn branch(
        &mut self,
        condition: Expression<'src>,
        consequence: Expression<'src>,
    ) -> Result<State<'src>, ParseError<'src>>
        ensures { GoesOn (goes self.old (machine.Branch (view condition.entry) (view consequence.entry)) []) result
            self.new }
    {
        if self.cursor.take_word("if") {
            let frame = Frame::ElseIf {
                condition,
                consequence,
            };
            return self.wait_twice(frame, Frame::Condition, State::Expression(OR));
        }
        match followed(
            (condition, consequence),
            self.cursor.expect(TokenKind::BraceL),
        ) {
            Ok((condition, consequence)) => self.wait(
                Frame::Otherwise {
                    condition,
                    consequence,
                },
                State::Expression(OR),
            ),
            Err(refusal) => Err(refusal),
        }
    }

    /// After the other branch, its brace.
    pub(crate) fn after_branch(
        &mut self,
        condition: Expression<'src>,
        consequence: Expression<'src>,
        otherwise: Expression<'src>,
    ) -> Result<State<'src>, ParseError<'src>>
        ensures { GoesOn (goes self.old (machine.Done (view otherwise.entry))
            (machine.Otherwise (view condition.entry) (view consequence.entry) ∷ [])) result self.new }
    {
        let parts = (condition, consequence, otherwise);
        match followed(parts, self.cursor.expect(TokenKind::BraceR)) {
            Ok((condition, consequence, otherwise)) => {
                conditional(self.alloc, condition, consequence, Some(otherwise))
            }
            Err(refusal) => Err(refusal),
        }
    }
}

/// A conditional is read.
pub(crate) fn conditional<'src>(
    alloc: Global,
    condition: Expression<'src>,
    consequence: Expression<'src>,
    otherwise: Option<Expression<'src>>,
) -> Result<State<'src>, ParseError<'src>>
    ensures ok { IfOk result (λ s. state_view s ≡ machine.Done (conditional (view condition.entry)
        (view consequence.entry) (option_map view otherwise.entry))) }
    ensures refused { IfErr result (λ refusal. refusal ≡ ParseError.OutOfMemory) }
{
    done(allocated(Expression::conditional(alloc, condition, consequence, otherwise)))
}
