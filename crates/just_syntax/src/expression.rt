// Expressions.

mod constructors;
mod copy;

use crate::conditional_operator::ConditionalOperator;
use crate::name::Name;
use crate::number::Number;
use crate::printed;
use crate::string_literal::StringLiteral;
use crate::token::Token;
use std::fmt;

/// An expression. A variable carries the number that resolution gave it, if any.
#[derive(Debug, Drop)]
pub enum Expression<'src> {
    /// `lhs && rhs`
    And {
        lhs: Box<Expression<'src>>,
        rhs: Box<Expression<'src>>,
    },
    /// `assert(condition)` or `assert(condition, message)`
    Assert {
        condition: Box<Expression<'src>>,
        message: Option<Box<Expression<'src>>>,
        name: Name<'src>,
    },
    /// A command in backticks.
    Backtick {
        contents: String,
        token: Token<'src>,
    },
    /// `name(arguments)`
    Call {
        arguments: Vec<Expression<'src>>,
        name: Name<'src>,
    },
    /// `lhs == rhs`, `lhs != rhs`, `lhs =~ rhs` or `lhs !~ rhs`
    Comparison {
        lhs: Box<Expression<'src>>,
        operator: ConditionalOperator,
        rhs: Box<Expression<'src>>,
        token: Token<'src>,
    },
    /// `lhs + rhs`
    Concatenation {
        lhs: Box<Expression<'src>>,
        operator: Token<'src>,
        rhs: Box<Expression<'src>>,
    },
    /// `if condition { consequence } else { otherwise }`, whose last part may be left out
    Conditional {
        condition: Box<Expression<'src>>,
        consequence: Box<Expression<'src>>,
        otherwise: Option<Box<Expression<'src>>>,
    },
    /// A format string: its start, and then interpolations, each with the text after it.
    FormatString {
        start: StringLiteral<'src>,
        expressions: Vec<(Expression<'src>, StringLiteral<'src>)>,
    },
    /// `(contents)`
    Group {
        contents: Box<Expression<'src>>,
    },
    /// `lhs / rhs` or `/ rhs`
    Join {
        lhs: Option<Box<Expression<'src>>>,
        operator: Token<'src>,
        rhs: Box<Expression<'src>>,
    },
    /// `[elements]`
    List {
        elements: Vec<Expression<'src>>,
        token: Token<'src>,
    },
    /// `lhs ++ rhs`
    ListConcatenation {
        lhs: Box<Expression<'src>>,
        operator: Token<'src>,
        rhs: Box<Expression<'src>>,
    },
    /// `!operand`
    Not {
        operand: Box<Expression<'src>>,
    },
    /// `lhs || rhs`
    Or {
        lhs: Box<Expression<'src>>,
        rhs: Box<Expression<'src>>,
    },
    /// `'text'`
    StringLiteral {
        string_literal: StringLiteral<'src>,
    },
    /// `name`
    Variable {
        name: Name<'src>,
        number: Option<Number>,
    },
}

impl fmt::Display for Expression<'_> {
    ghost use Rattle.std.specs.Prelude.{Some};
    ghost use Rattle.just_syntax.specs.Printed.{printed};
    ghost use Rattle.just_syntax.specs.View.{view};

    ghost output = { λ expression. Some (printed (view expression)) };

    ghost styled_output = { λ expression _. Some (printed (view expression)) };

    fn fmt<W: fmt::Write>(&self, f: &mut fmt::Formatter<W>) -> fmt::Result {
        printed::print(self, f)
    }
}
