// Reads expressions. The forms that are read in part wait in a list, so that reading takes no stack.

ghost use Rattle.std.specs.Prelude.{Err, IfErr, IfNone, IfOk, IfSome, IsOkAnd, [], codes, false};
ghost use Rattle.std.specs.Prelude.{◌∷◌, ◌<◌, ◌≡◌, ◌≤◌, ◌⊎◌};
ghost use Rattle.just_syntax.specs.View.{name_view, token_view, view};
ghost use Rattle.just_lexer.specs.declared.kind.TokenKind.TheVariants as kinds;
ghost use Rattle.just_expression_parser.specs.Machine as machine;
ghost use Rattle.just_expression_parser.specs.Operator.{operation};
ghost use Rattle.just_expression_parser.specs.Parsed.{GoesOn, IsNoOperator, IsNotAt, IsPending, is_at_word};
ghost use Rattle.just_expression_parser.specs.Parsed.{IsRefusalOf, IsRefused, TakesOperator};
ghost use Rattle.just_expression_parser.specs.Parsed.{goes, goes_at, left, machine_frame_view, state_view, waiting};
ghost use Rattle.just_expression_parser.specs.Parsed.{waits};
ghost use Rattle.just_expression_parser.specs.Tokens.{lexeme};
ghost use Rattle.just_expression_parser.specs.declared.parse_error.Fault.TheVariants.{ExpectedExpression};

use crate::conditional::conditional;
use crate::cursor::Cursor;
use crate::frame::{Elements, Frame, State};
use crate::literal::{backtick, string};
use crate::operator::{OR, Operator, SUM, VALUE, operator_at};
use crate::outcome::{allocated, pushed, pushed_twice};
use crate::parse_error::{Fault, ParseError};
use just_lexer::kind::TokenKind;
use just_syntax::expression::Expression;
use just_syntax::name::Name;
use just_syntax::out_of_memory::OutOfMemory;
use just_syntax::results::followed;
use just_syntax::token::Token;
use std::alloc::Global;

/// Reads expressions.
#[derive(Drop)]
pub(crate) struct Machine<'tokens, 'src> {
    pub alloc: Global,
    pub cursor: Cursor<'tokens, 'src>,
    /// The innermost last.
    pub frames: Vec<Frame<'src>>,
}

impl<'src> Machine<'_, 'src> {
    /// Reads an expression of at least a level, as far as it goes.
    pub(crate) fn expression(&mut self, level: usize) -> Result<Expression<'src>, ParseError<'src>>
        ensures ok { IfOk result (λ e. (waiting self.old ≡ [])
            → machine.Read (view e) (left self.new) ≡ (goes self.old (machine.Expression level) []).result) }
        ensures refused { IfErr result (IsRefused (goes self.old (machine.Expression level) []).result) }
    {
        let mut state = State::Expression(level);
        loop {
            let next = match state {
                State::Done(expression) => match self.frames.pop() {
                    Some(frame) => self.resume(frame, expression),
                    None => return Ok(expression),
                },
                other => self.start(other),
            };
            match next {
                Ok(next) => state = next,
                Err(refusal) => return Err(refusal),
            }
        }
    }

    // What is read next, up to the next token.
    fn start(&mut self, state: State<'src>) -> Result<State<'src>, ParseError<'src>>
        ensures { IsPending (state_view state.entry)
            → GoesOn (goes self.old (state_view state.entry) []) result self.new }
    {
        match state {
            State::Branch {
                condition,
                consequence,
            } => self.branch(condition, consequence),
            State::Done(expression) => Ok(State::Done(expression)),
            State::Elements { form, elements } => self.elements(form, elements),
            State::Expression(level) => self.first(level),
            State::Named(name) => self.after_name(name),
            State::Otherwise {
                condition,
                consequence,
            } => self.otherwise(condition, consequence),
            State::Value => self.value(),
        }
    }

    // What a frame does with its expression.
    fn resume(
        &mut self,
        frame: Frame<'src>,
        value: Expression<'src>,
    ) -> Result<State<'src>, ParseError<'src>>
        ensures { GoesOn (goes self.old (machine.Done (view value.entry)) (machine_frame_view frame.entry ∷ [])) result
            self.new }
    {
        match frame {
            Frame::Assertion { name } => self.after_condition(name, value),
            Frame::Condition => self.braced_branch(value),
            Frame::Consequence { condition } => self.after_consequence(condition, value),
            Frame::ElseIf {
                condition,
                consequence,
            } => conditional(self.alloc, condition, consequence, Some(value)),
            Frame::Elements { form, elements } => self.after_element(form, elements, value),
            Frame::Group => self.after_contents(value),
            Frame::Interpolation {
                start,
                pieces,
                style,
            } => self.after_interpolation(start, pieces, style, value),
            Frame::Message { condition, name } => self.after_message(name, condition, value),
            Frame::Not => done(allocated(Expression::not(self.alloc, value))),
            Frame::Operators { least, below } => self.operators(least, below, value),
            Frame::Otherwise {
                condition,
                consequence,
            } => self.after_branch(condition, consequence, value),
            Frame::Root { operator } => done(allocated(Expression::join(
                self.alloc, None, operator, value,
            ))),
            Frame::Side {
                lhs,
                operator,
                token,
            } => done(allocated(applied(self.alloc, lhs, operator, token, value))),
        }
    }

    /// Waits in a frame for what is read next.
    pub(crate) fn wait(
        &mut self,
        frame: Frame<'src>,
        state: State<'src>,
    ) -> Result<State<'src>, ParseError<'src>>
        ensures { GoesOn
            (waits self.old (state_view state.entry) (machine_frame_view frame.entry ∷ [])) result self.new }
    {
        followed(state, pushed(&mut self.frames, frame))
    }

    /// Waits in two frames, of which the second is the inner one, for what is read next.
    pub(crate) fn wait_twice(
        &mut self,
        outer: Frame<'src>,
        inner: Frame<'src>,
        state: State<'src>,
    ) -> Result<State<'src>, ParseError<'src>>
        ensures { GoesOn (waits self.old (state_view state.entry)
            (machine_frame_view inner.entry ∷ machine_frame_view outer.entry ∷ [])) result self.new }
    {
        followed(state, pushed_twice(&mut self.frames, outer, inner))
    }

    // The start of an expression.
    fn first(&mut self, least: usize) -> Result<State<'src>, ParseError<'src>>
        ensures { GoesOn (goes self.old (machine.Expression least) []) result self.new }
    {
        if least <= SUM {
            self.loose(least)
        } else {
            self.operand(least)
        }
    }

    // The start of an expression that may be a conditional or begin with a slash.
    fn loose(&mut self, least: usize) -> Result<State<'src>, ParseError<'src>>
        ensures { least ≤ 3 → GoesOn (goes self.old (machine.Expression least) []) result self.new }
    {
        if self.cursor.take_word("if") {
            let operators = Frame::Operators { least, below: SUM };
            return self.wait_twice(operators, Frame::Condition, State::Expression(OR));
        }
        match self.cursor.take(TokenKind::Slash) {
            Some(operator) => {
                let operators = Frame::Operators { least, below: SUM };
                self.wait_twice(operators, Frame::Root { operator }, State::Expression(SUM))
            }
            None => self.operand(least),
        }
    }

    // A value, and the operators after it.
    fn operand(&mut self, least: usize) -> Result<State<'src>, ParseError<'src>>
        ensures { (3 < least) ⊎ ((is_at_word (codes "if") (left self.old) ≡ false) × IsNotAt kinds.Slash
            (left self.old))
            → GoesOn (goes self.old (machine.Expression least) []) result self.new }
    {
        let below = VALUE;
        self.wait(Frame::Operators { least, below }, State::Value)
    }

    // A value.
    fn value(&mut self) -> Result<State<'src>, ParseError<'src>>
        ensures { GoesOn (goes self.old machine.Value []) result self.new }
    {
        match self.cursor.next() {
            Some(lexeme) => self.value_of(lexeme.kind, lexeme.token),
            None => Err(self.cursor.unexpected(Fault::ExpectedExpression)),
        }
    }

    // The start of a value, after its first token.
    fn value_of(
        &mut self,
        kind: TokenKind,
        token: Token<'src>,
    ) -> Result<State<'src>, ParseError<'src>>
        ensures { GoesOn (goes_at (lexeme kind (token_view token.entry)) self.old machine.Value) result self.new }
    {
        match kind {
            TokenKind::Backtick => done(backtick(self.alloc, token)),
            TokenKind::Bang => self.wait(Frame::Not, State::Value),
            TokenKind::BracketL => Ok(State::Elements {
                form: Elements::List(token),
                elements: Vec::new(self.alloc),
            }),
            TokenKind::FormatStringStart => self.format_string(token),
            TokenKind::Identifier => self.named(token),
            TokenKind::ParenL => self.wait(Frame::Group, State::Expression(OR)),
            TokenKind::StringToken => done(string(self.alloc, token)),
            _ => Err(unexpected(token)),
        }
    }

    // A name, after its token.
    fn named(&self, token: Token<'src>) -> Result<State<'src>, ParseError<'src>>
        ensures { GoesOn (goes_at (lexeme kinds.Identifier (token_view token.entry)) self.now machine.Value) result
            self.now }
    {
        if token.lexeme == "if" {
            Err(unexpected(token))
        } else {
            Ok(State::Named(Name { token }))
        }
    }

    // A call or an assertion, if a parenthesis comes after the name; else a variable.
    fn after_name(&mut self, name: Name<'src>) -> Result<State<'src>, ParseError<'src>>
        ensures { GoesOn (goes self.old (machine.Named (name_view name.entry)) []) result self.new }
    {
        match self.cursor.take(TokenKind::ParenL) {
            None => Ok(State::Done(Expression::Variable { name, number: None })),
            Some(_) => {
                if name.lexeme() == "assert" {
                    self.wait(Frame::Assertion { name }, State::Expression(OR))
                } else {
                    Ok(State::Elements {
                        form: Elements::Call(name),
                        elements: Vec::new(self.alloc),
                    })
                }
            }
        }
    }

    // After an operand, an operator between these levels, if there is one.
    fn operators(
        &mut self,
        least: usize,
        below: usize,
        lhs: Expression<'src>,
    ) -> Result<State<'src>, ParseError<'src>>
        ensures { GoesOn (goes self.old (machine.Done (view lhs.entry)) (machine.Operators least below ∷ [])) result
            self.new }
    {
        match self.operator(least, below) {
            None => Ok(State::Done(lhs)),
            Some((operator, token)) => {
                let level = operator.level();
                let side = Frame::Side {
                    lhs,
                    operator,
                    token,
                };
                self.wait_twice(
                    Frame::Operators {
                        least,
                        below: level,
                    },
                    side,
                    State::Expression(level),
                )
            }
        }
    }

    // Takes the next token, if it is an operator between these levels.
    fn operator(&mut self, least: usize, below: usize) -> Option<(Operator, Token<'src>)>
        ensures some { IfSome result (λ p. TakesOperator least below p.0 (token_view p.1) self.old self.new) }
        ensures none { IfNone result (IsNoOperator least below self.old self.new) }
    {
        match self.cursor.peek() {
            Some(lexeme) => match operator_at(lexeme.kind) {
                Some(operator) => {
                    if operator.level() < least || below <= operator.level() {
                        return None;
                    }
                    self.cursor.next();
                    Some((operator, lexeme.token))
                }
                None => None,
            },
            None => None,
        }
    }
}

/// The expression is read, if it is there.
pub(crate) fn done<'src>(
    expression: Result<Expression<'src>, ParseError<'src>>,
) -> Result<State<'src>, ParseError<'src>>
    ensures ok { IfOk result (λ s. IsOkAnd expression.entry (λ e. s ≡ State.Done e)) }
    ensures refused { IfErr result (λ refusal. expression.entry ≡ Err refusal) }
{
    match expression {
        Ok(expression) => Ok(State::Done(expression)),
        Err(refusal) => Err(refusal),
    }
}

// Two expressions with an operator between them.
fn applied<'src>(
    alloc: Global,
    lhs: Expression<'src>,
    operator: Operator,
    token: Token<'src>,
    rhs: Expression<'src>,
) -> Result<Expression<'src>, OutOfMemory>
    ensures { IfOk result
        (λ e. view e ≡ operation (view lhs.entry) operator (token_view token.entry) (view rhs.entry)) }
{
    match operator {
        Operator::And => Expression::and(alloc, lhs, rhs),
        Operator::Comparison(operator) => Expression::comparison(alloc, lhs, operator, rhs, token),
        Operator::Concatenation => Expression::concatenation(alloc, lhs, token, rhs),
        Operator::Join => Expression::join(alloc, Some(lhs), token, rhs),
        Operator::ListConcatenation => Expression::list_concatenation(alloc, lhs, token, rhs),
        Operator::Or => Expression::or(alloc, lhs, rhs),
    }
}

// The refusal of a token that begins no expression.
fn unexpected<'src>(token: Token<'src>) -> ParseError<'src>
    ensures { IsRefusalOf ExpectedExpression (token_view token.entry) result }
{
    ParseError::Unexpected {
        fault: Fault::ExpectedExpression,
        token: Some(token),
    }
}
