// Copies of expressions. They are written out, since the recursion has to end before the stack does.

ghost use Rattle.std.specs.Prelude.{IfOk, OnOk, [], map, option_map, ◌++◌, ◌∷◌, ◌≡◌};
ghost use Rattle.just_syntax.specs.Plain as plain;
ghost use Rattle.just_syntax.specs.Prelude.{as_before, literal_view, name_view, piece_view, piece_views};
ghost use Rattle.just_syntax.specs.Prelude.{renumbered, renumbered_pieces, renumbered_row, token_view, view, views};

use crate::expression::Expression;
use crate::name::Name;
use crate::number::Number;
use crate::numbers::Numbers;
use crate::stack::MOST_COPIED_LEVELS;
use crate::string_literal::StringLiteral;
use crate::token::Token;
use std::alloc::{AllocError, Global};

// The numbers that the variables have.
struct AsBefore;

impl Numbers for AsBefore {
    ghost number_of = { λ _. as_before };

    fn number(&self, _: &str, number: Option<Number>) -> Option<Number> {
        number
    }
}

/// A copy, whose parts are allocated where those of the expression were. `AllocError`, if an allocation fails, or if
/// the expression has more than `stack::MOST_COPIED_LEVELS` levels: the copy of a deeper one does not fit on a stack of
/// 8 MiB. Nothing is created then.
impl Clone for Expression<'_> {
    ghost is_clone = { λ expression copy. view copy ≡ view expression };

    fn clone(&self) -> Result<Self, AllocError> {
        self.with_numbers(&AsBefore)
    }
}

impl<'src> Expression<'src> {
    /// A copy in which the variables have other numbers, and else as `clone` makes it, with its errors.
    pub fn with_numbers<N: Numbers>(&self, numbers: &N) -> Result<Expression<'src>, AllocError>
        ensures { IfOk result (λ e. view e ≡ renumbered (N.number_of numbers.now) (view self.now)) }
    {
        copy(self, numbers, MOST_COPIED_LEVELS)
    }
}

// A copy, if the expression has at most as many levels.
#[cycle(copy)]
fn copy<'src, N: Numbers>(
    expression: &Expression<'src>,
    numbers: &N,
    levels: usize,
) -> Result<Expression<'src>, AllocError>
    ensures { IfOk result (λ e. view e ≡ renumbered (N.number_of numbers.now) (view expression.now)) }
{
    if levels == 0 {
        return Err(AllocError);
    }
    let levels = levels - 1;
    match expression {
        Expression::And { lhs, rhs } => {
            let (lhs, rhs) = boxed_pair(lhs, rhs, numbers, levels)?;
            Ok(Expression::And { lhs, rhs })
        }
        Expression::Assert {
            condition,
            message,
            name,
        } => {
            let (condition, message) = boxed_with(condition, message.as_ref(), numbers, levels)?;
            Ok(Expression::Assert {
                condition,
                message,
                name: *name,
            })
        }
        Expression::Backtick { contents, token } => Ok(Expression::Backtick {
            contents: contents.clone()?,
            token: *token,
        }),
        Expression::Call { arguments, name } => call(name, arguments, numbers, levels),
        Expression::Comparison {
            lhs,
            operator,
            rhs,
            token,
        } => {
            let (lhs, rhs) = boxed_pair(lhs, rhs, numbers, levels)?;
            Ok(Expression::Comparison {
                lhs,
                operator: *operator,
                rhs,
                token: *token,
            })
        }
        Expression::Concatenation { lhs, operator, rhs } => {
            let (lhs, rhs) = boxed_pair(lhs, rhs, numbers, levels)?;
            Ok(Expression::Concatenation {
                lhs,
                operator: *operator,
                rhs,
            })
        }
        Expression::Conditional {
            condition,
            consequence,
            otherwise,
        } => {
            let condition = boxed(condition, numbers, levels)?;
            let (consequence, otherwise) = boxed_with(
                consequence,
                otherwise.as_ref(),
                numbers,
                levels,
            )?;
            Ok(Expression::Conditional {
                condition,
                consequence,
                otherwise,
            })
        }
        Expression::FormatString { start, expressions } => {
            format_string(start, expressions, numbers, levels)
        }
        Expression::Group { contents } => Ok(Expression::Group {
            contents: boxed(contents, numbers, levels)?,
        }),
        Expression::Join { lhs, operator, rhs } => {
            let (rhs, lhs) = boxed_with(rhs, lhs.as_ref(), numbers, levels)?;
            Ok(Expression::Join {
                lhs,
                operator: *operator,
                rhs,
            })
        }
        Expression::List { elements, token } => list(elements, token, numbers, levels),
        Expression::ListConcatenation { lhs, operator, rhs } => {
            let (lhs, rhs) = boxed_pair(lhs, rhs, numbers, levels)?;
            Ok(Expression::ListConcatenation {
                lhs,
                operator: *operator,
                rhs,
            })
        }
        Expression::Not { operand } => Ok(Expression::Not {
            operand: boxed(operand, numbers, levels)?,
        }),
        Expression::Or { lhs, rhs } => {
            let (lhs, rhs) = boxed_pair(lhs, rhs, numbers, levels)?;
            Ok(Expression::Or { lhs, rhs })
        }
        Expression::StringLiteral { string_literal } => Ok(Expression::StringLiteral {
            string_literal: string_literal.clone()?,
        }),
        Expression::Variable { name, number } => Ok(Expression::Variable {
            name: *name,
            number: numbers.number(name.lexeme(), *number),
        }),
    }
}

// A boxed copy, allocated where the part was.
#[cycle(copy)]
fn boxed<'src, N: Numbers>(
    part: &Box<Expression<'src>>,
    numbers: &N,
    levels: usize,
) -> Result<Box<Expression<'src>>, AllocError>
    ensures { IfOk result (λ b. view b.value ≡ renumbered (N.number_of numbers.now) (view part.now.value)) }
{
    let copy = copy(part, numbers, levels)?;
    box_of(*Box::allocator(part), copy)
}

// Boxed copies of two parts.
#[cycle(copy)]
fn boxed_pair<'src, N: Numbers>(
    first: &Box<Expression<'src>>,
    second: &Box<Expression<'src>>,
    numbers: &N,
    levels: usize,
) -> Result<(Box<Expression<'src>>, Box<Expression<'src>>), AllocError>
    ensures first { IfOk result (λ b. view b.0.value ≡ renumbered (N.number_of numbers.now) (view first.now.value)) }
    ensures second { IfOk result (λ b. view b.1.value ≡ renumbered (N.number_of numbers.now) (view second.now.value)) }
{
    let first = boxed(first, numbers, levels)?;
    let second = boxed(second, numbers, levels)?;
    Ok((first, second))
}

// Boxed copies of a part, and of one that may be left out.
#[cycle(copy)]
fn boxed_with<'src, N: Numbers>(
    part: &Box<Expression<'src>>,
    option: Option<&Box<Expression<'src>>>,
    numbers: &N,
    levels: usize,
) -> Result<(Box<Expression<'src>>, Option<Box<Expression<'src>>>), AllocError>
    ensures part { IfOk result (λ b. view b.0.value ≡ renumbered (N.number_of numbers.now) (view part.now.value)) }
    ensures option { IfOk result (λ b. option_map (λ o. view o.value) b.1
        ≡ option_map (λ e. renumbered (N.number_of numbers.now) (view e.now.value)) option.entry) }
{
    let part = boxed(part, numbers, levels)?;
    match option {
        Some(option) => {
            let option = boxed(option, numbers, levels)?;
            Ok((part, Some(option)))
        }
        None => Ok((part, None)),
    }
}

// A copy of a call.
#[cycle(copy)]
fn call<'src, N: Numbers>(
    name: &Name<'src>,
    arguments: &Vec<Expression<'src>>,
    numbers: &N,
    levels: usize,
) -> Result<Expression<'src>, AllocError>
    ensures { IfOk result (λ e. view e ≡ plain.Call (name_view name.now)
        (renumbered_row (N.number_of numbers.now) (views arguments.now.items))) }
{
    let copies = row(arguments, numbers, levels)?;
    Ok(Expression::call(*name, copies))
}

// A copy of a list.
#[cycle(copy)]
fn list<'src, N: Numbers>(
    elements: &Vec<Expression<'src>>,
    token: &Token<'src>,
    numbers: &N,
    levels: usize,
) -> Result<Expression<'src>, AllocError>
    ensures { IfOk result (λ e. view e
        ≡ plain.ListOf (renumbered_row (N.number_of numbers.now) (views elements.now.items)) (token_view token.now)) }
{
    let copies = row(elements, numbers, levels)?;
    Ok(Expression::list(copies, *token))
}

// A copy of a format string.
#[cycle(copy)]
fn format_string<'src, N: Numbers>(
    start: &StringLiteral<'src>,
    expressions: &Vec<(Expression<'src>, StringLiteral<'src>)>,
    numbers: &N,
    levels: usize,
) -> Result<Expression<'src>, AllocError>
    ensures { IfOk result (λ e. view e ≡ plain.FormatString (literal_view start.now)
        (renumbered_pieces (N.number_of numbers.now) (piece_views expressions.now.items))) }
{
    let start = start.clone()?;
    let copies = pieces(expressions, numbers, levels)?;
    Ok(Expression::format_string(start, copies))
}

// Copies of expressions.
#[cycle(copy)]
fn row<'src, N: Numbers>(
    expressions: &Vec<Expression<'src>>,
    numbers: &N,
    levels: usize,
) -> Result<Vec<Expression<'src>>, AllocError>
    ensures { IfOk result (λ copies. map view copies.items
        ≡ map (λ e. renumbered (N.number_of numbers.now) (view e)) expressions.now.items) }
{
    let mut copies = Vec::with_capacity(*expressions.allocator(), expressions.len())?;
    for expression in expressions {
        let copy = copy(expression, numbers, levels)?;
        push(&mut copies, copy)?;
    }
    Ok(copies)
}

// Copies of interpolations, each with the text after it.
#[cycle(copy)]
fn pieces<'src, N: Numbers>(
    expressions: &Vec<(Expression<'src>, StringLiteral<'src>)>,
    numbers: &N,
    levels: usize,
) -> Result<Vec<(Expression<'src>, StringLiteral<'src>)>, AllocError>
    ensures { IfOk result (λ copies. map piece_view copies.items
        ≡ map (λ p. (renumbered (N.number_of numbers.now) (view p.0), literal_view p.1)) expressions.now.items) }
{
    let mut copies = Vec::with_capacity(*expressions.allocator(), expressions.len())?;
    for (expression, text) in expressions {
        let text = text.clone()?;
        let copy = copy(expression, numbers, levels)?;
        push(&mut copies, (copy, text))?;
    }
    Ok(copies)
}

// Boxes a value. It and `push` are generic, so that a failing allocation needs no code that drops an expression.
fn box_of<T: Drop>(alloc: Global, value: T) -> Result<Box<T>, AllocError>
    ensures { IfOk result (λ b. b.value ≡ value) }
{
    Ok(Box::new(alloc, value)?)
}

// Adds a value to a list.
fn push<T: Drop>(all: &mut Vec<T>, value: T) -> Result<(), AllocError>
    ensures { OnOk result (all.new.items ≡ all.old.items ++ value ∷ []) }
{
    all.push(value)?;
    Ok(())
}
