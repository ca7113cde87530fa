// Whether two expressions are the same.

ghost use Rattle.std.specs.Prelude.{IsTrue, option_map, ◌↔◌, ◌≡◌};
ghost use Rattle.just_syntax.specs.Plain as plain;
ghost use Rattle.just_changes.specs.Prelude.{assert_view, conditional, join, literal_view, name_view, piece_views};
ghost use Rattle.just_changes.specs.Prelude.{token_view, view, views};

use crate::same_token::{is_same_literal, is_same_token};
use just_syntax::conditional_operator::ConditionalOperator;
use just_syntax::expression::Expression;
use just_syntax::name::Name;
use just_syntax::number::Number;
use just_syntax::string_literal::StringLiteral;
use just_syntax::token::Token;

/// Whether two expressions are the same: of one form, with the same texts, numbers and tokens, including positions and
/// paths, since a refusal names its position.
#[cycle(is_same)]
pub fn is_same(one: &Expression, other: &Expression) -> bool
    ensures { IsTrue result ↔ (view one.now ≡ view other.now) }
{
    match one {
        Expression::And { lhs, rhs } => is_and(lhs, rhs, other),
        Expression::Assert {
            condition,
            message,
            name,
        } => is_assert(condition, message.as_deref(), *name, other),
        Expression::Backtick { contents, token } => is_backtick(contents, *token, other),
        Expression::Call { arguments, name } => is_call(arguments, *name, other),
        Expression::Comparison {
            lhs,
            operator,
            rhs,
            token,
        } => is_comparison(lhs, *operator, rhs, *token, other),
        Expression::Concatenation { lhs, operator, rhs } => {
            is_concatenation(lhs, *operator, rhs, other)
        }
        Expression::Conditional {
            condition,
            consequence,
            otherwise,
        } => is_conditional(condition, consequence, otherwise.as_deref(), other),
        Expression::FormatString { start, expressions } => is_format(start, expressions, other),
        Expression::Group { contents } => is_group(contents, other),
        Expression::Join { lhs, operator, rhs } => is_join(lhs.as_deref(), *operator, rhs, other),
        Expression::List { elements, token } => is_list(elements, *token, other),
        Expression::ListConcatenation { lhs, operator, rhs } => {
            is_list_concatenation(lhs, *operator, rhs, other)
        }
        Expression::Not { operand } => is_not(operand, other),
        Expression::Or { lhs, rhs } => is_or(lhs, rhs, other),
        Expression::StringLiteral { string_literal } => is_string_literal(string_literal, other),
        Expression::Variable { name, number } => is_variable(*name, *number, other),
    }
}

#[cycle(is_same)]
fn are_both_same(
    lhs: &Expression,
    rhs: &Expression,
    other_lhs: &Expression,
    other_rhs: &Expression,
) -> bool
    ensures { IsTrue result ↔ ((view lhs.now ≡ view other_lhs.now) × (view rhs.now ≡ view other_rhs.now)) }
{
    is_same(lhs, other_lhs) && is_same(rhs, other_rhs)
}

#[cycle(is_same)]
fn is_some_same(one: Option<&Expression>, other: Option<&Expression>) -> bool
    ensures { IsTrue result ↔ (option_map (λ e. view e.now) one.entry ≡ option_map (λ e. view e.now) other.entry) }
{
    match one {
        Some(one) => match other {
            Some(other) => is_same(one, other),
            None => false,
        },
        None => other.is_none(),
    }
}

#[cycle(is_same)]
fn is_and(lhs: &Expression, rhs: &Expression, other: &Expression) -> bool
    ensures { IsTrue result ↔ (plain.And (view lhs.now) (view rhs.now) ≡ view other.now) }
{
    match other {
        Expression::And {
            lhs: other_lhs,
            rhs: other_rhs,
        } => are_both_same(lhs, rhs, other_lhs, other_rhs),
        _ => false,
    }
}

#[cycle(is_same)]
fn is_assert(
    condition: &Expression,
    message: Option<&Expression>,
    name: Name,
    other: &Expression,
) -> bool
    ensures { IsTrue result
        ↔ (assert_view (view condition.now) (option_map (λ e. view e.now) message.entry) (name_view name.entry)
        ≡ view other.now) }
{
    match other {
        Expression::Assert {
            condition: other_condition,
            message: other_message,
            name: other_name,
        } => {
            is_same(condition, other_condition)
                && is_some_same(message, other_message.as_deref())
                && is_same_token(name.token, other_name.token)
        }
        _ => false,
    }
}

fn is_backtick(contents: &str, token: Token, other: &Expression) -> bool
    ensures { IsTrue result ↔ (plain.Backtick contents.now (token_view token.entry) ≡ view other.now) }
{
    match other {
        Expression::Backtick {
            contents: other_contents,
            token: other_token,
        } => contents == other_contents.as_str() && is_same_token(token, *other_token),
        _ => false,
    }
}

#[cycle(is_same)]
fn is_call(arguments: &[Expression], name: Name, other: &Expression) -> bool
    ensures { IsTrue result ↔ (plain.Call (name_view name.entry) (views arguments.now) ≡ view other.now) }
{
    match other {
        Expression::Call {
            arguments: other_arguments,
            name: other_name,
        } => {
            are_all_same(arguments, other_arguments) && is_same_token(name.token, other_name.token)
        }
        _ => false,
    }
}

#[cycle(is_same)]
fn is_comparison(
    lhs: &Expression,
    operator: ConditionalOperator,
    rhs: &Expression,
    token: Token,
    other: &Expression,
) -> bool
    ensures { IsTrue result ↔ (plain.Comparison (view lhs.now) operator (view rhs.now) (token_view token.entry)
        ≡ view other.now) }
{
    match other {
        Expression::Comparison {
            lhs: other_lhs,
            operator: other_operator,
            rhs: other_rhs,
            token: other_token,
        } => {
            are_both_same(lhs, rhs, other_lhs, other_rhs)
                && operator == *other_operator
                && is_same_token(token, *other_token)
        }
        _ => false,
    }
}

#[cycle(is_same)]
fn is_concatenation(lhs: &Expression, operator: Token, rhs: &Expression, other: &Expression) -> bool
    ensures { IsTrue result ↔ (plain.Concatenation (view lhs.now) (token_view operator.entry) (view rhs.now)
        ≡ view other.now) }
{
    match other {
        Expression::Concatenation {
            lhs: other_lhs,
            operator: other_operator,
            rhs: other_rhs,
        } => {
            are_both_same(lhs, rhs, other_lhs, other_rhs)
                && is_same_token(operator, *other_operator)
        }
        _ => false,
    }
}

#[cycle(is_same)]
fn is_conditional(
    condition: &Expression,
    consequence: &Expression,
    otherwise: Option<&Expression>,
    other: &Expression,
) -> bool
    ensures { IsTrue result
        ↔ (conditional (view condition.now) (view consequence.now) (option_map (λ e. view e.now) otherwise.entry)
        ≡ view other.now) }
{
    match other {
        Expression::Conditional {
            condition: other_condition,
            consequence: other_consequence,
            otherwise: other_otherwise,
        } => {
            are_both_same(condition, consequence, other_condition, other_consequence)
                && is_some_same(otherwise, other_otherwise.as_deref())
        }
        _ => false,
    }
}

#[cycle(is_same)]
fn is_format(
    start: &StringLiteral,
    expressions: &[(Expression, StringLiteral)],
    other: &Expression,
) -> bool
    ensures { IsTrue result ↔ (plain.FormatString (literal_view start.now) (piece_views expressions.now)
        ≡ view other.now) }
{
    match other {
        Expression::FormatString {
            start: other_start,
            expressions: other_expressions,
        } => {
            is_same_literal(start, other_start) && are_pieces_same(expressions, other_expressions)
        }
        _ => false,
    }
}

#[cycle(is_same)]
fn is_group(contents: &Expression, other: &Expression) -> bool
    ensures { IsTrue result ↔ (plain.Group (view contents.now) ≡ view other.now) }
{
    match other {
        Expression::Group {
            contents: other_contents,
        } => is_same(contents, other_contents),
        _ => false,
    }
}

#[cycle(is_same)]
fn is_join(lhs: Option<&Expression>, operator: Token, rhs: &Expression, other: &Expression) -> bool
    ensures { IsTrue result ↔ (join (option_map (λ e. view e.now) lhs.entry) (token_view operator.entry) (view rhs.now)
        ≡ view other.now) }
{
    match other {
        Expression::Join {
            lhs: other_lhs,
            operator: other_operator,
            rhs: other_rhs,
        } => {
            is_some_same(lhs, other_lhs.as_deref())
                && is_same(rhs, other_rhs)
                && is_same_token(operator, *other_operator)
        }
        _ => false,
    }
}

#[cycle(is_same)]
fn is_list(elements: &[Expression], token: Token, other: &Expression) -> bool
    ensures { IsTrue result ↔ (plain.ListOf (views elements.now) (token_view token.entry) ≡ view other.now) }
{
    match other {
        Expression::List {
            elements: other_elements,
            token: other_token,
        } => are_all_same(elements, other_elements) && is_same_token(token, *other_token),
        _ => false,
    }
}

#[cycle(is_same)]
fn is_list_concatenation(
    lhs: &Expression,
    operator: Token,
    rhs: &Expression,
    other: &Expression,
) -> bool
    ensures { IsTrue result ↔ (plain.ListConcatenation (view lhs.now) (token_view operator.entry) (view rhs.now)
        ≡ view other.now) }
{
    match other {
        Expression::ListConcatenation {
            lhs: other_lhs,
            operator: other_operator,
            rhs: other_rhs,
        } => {
            are_both_same(lhs, rhs, other_lhs, other_rhs)
                && is_same_token(operator, *other_operator)
        }
        _ => false,
    }
}

#[cycle(is_same)]
fn is_not(operand: &Expression, other: &Expression) -> bool
    ensures { IsTrue result ↔ (plain.Not (view operand.now) ≡ view other.now) }
{
    match other {
        Expression::Not {
            operand: other_operand,
        } => is_same(operand, other_operand),
        _ => false,
    }
}

#[cycle(is_same)]
fn is_or(lhs: &Expression, rhs: &Expression, other: &Expression) -> bool
    ensures { IsTrue result ↔ (plain.Or (view lhs.now) (view rhs.now) ≡ view other.now) }
{
    match other {
        Expression::Or {
            lhs: other_lhs,
            rhs: other_rhs,
        } => are_both_same(lhs, rhs, other_lhs, other_rhs),
        _ => false,
    }
}

fn is_string_literal(literal: &StringLiteral, other: &Expression) -> bool
    ensures { IsTrue result ↔ (plain.StringLiteral (literal_view literal.now) ≡ view other.now) }
{
    match other {
        Expression::StringLiteral {
            string_literal: other_literal,
        } => is_same_literal(literal, other_literal),
        _ => false,
    }
}

fn is_variable(name: Name, number: Option<Number>, other: &Expression) -> bool
    ensures { IsTrue result ↔ (plain.Variable (name_view name.entry) number ≡ view other.now) }
{
    match other {
        Expression::Variable {
            name: other_name,
            number: other_number,
        } => number == *other_number && is_same_token(name.token, other_name.token),
        _ => false,
    }
}

#[cycle(is_same)]
fn are_all_same(some: &[Expression], others: &[Expression]) -> bool
    ensures { IsTrue result ↔ (views some.now ≡ views others.now) }
{
    let mut left = others.iter();
    for one in some {
        let Some(other) = left.next() else {
            return false;
        };
        if !is_same(one, other) {
            return false;
        }
    }
    left.next().is_none()
}

#[cycle(is_same)]
fn are_pieces_same(
    some: &[(Expression, StringLiteral)],
    others: &[(Expression, StringLiteral)],
) -> bool
    ensures { IsTrue result ↔ (piece_views some.now ≡ piece_views others.now) }
{
    let mut left = others.iter();
    for (one, literal) in some {
        let Some((other, other_literal)) = left.next() else {
            return false;
        };
        if !is_same(one, other) || !is_same_literal(literal, other_literal) {
            return false;
        }
    }
    left.next().is_none()
}
