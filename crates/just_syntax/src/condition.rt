// Prints an assertion's condition, if the stack budget suffices.

ghost use Rattle.std.specs.Prelude.{IfOk, IsTrue, max, option_map, string_bytes, ◌*◌, ◌↔◌, ◌≡◌, ◌≤◌};
ghost use Rattle.just_syntax.specs.Prelude.{levels, levels_of_part, levels_of_pieces, levels_of_row, piece_views};
ghost use Rattle.just_syntax.specs.Prelude.{printed, ticked, view, views};

use crate::expression::Expression;
use crate::out_of_memory::OutOfMemory;
use crate::stack::PRINTED;
use crate::string_literal::StringLiteral;
use std::alloc::Global;

/// The message of an assertion without one of its own: its condition, in backticks. Parts of the condition that were
/// never evaluated are printed too, and they may nest deeper than those that were.
///
/// # Errors
///
/// `OutOfMemory`, if an allocation fails, or if printing might use more than `budget` bytes of the stack: nothing is
/// created.
#[inline(never)]
pub fn in_backticks(
    alloc: Global,
    condition: &Expression,
    budget: usize,
) -> Result<String, OutOfMemory>
    ensures text { IfOk result (λ text. string_bytes text ≡ ticked (printed (view condition.now))) }
    ensures fits { IfOk result (λ _. PRINTED * levels (view condition.now) ≤ budget) }
{
    if fits(condition, budget) {
        written(alloc, condition)
    } else {
        Err(OutOfMemory)
    }
}

// The condition in backticks. Out of line, to keep the caller's frame small.
#[inline(never)]
fn written(alloc: Global, condition: &Expression) -> Result<String, OutOfMemory>
    ensures { IfOk result (λ text. string_bytes text ≡ ticked (printed (view condition.now))) }
{
    Ok(format!(in alloc; "`{condition}`")?)
}

// Whether printing an expression fits into `budget` bytes of stack. It uses less stack itself than printing does.
#[cycle(fits)]
fn fits(expression: &Expression, budget: usize) -> bool
    ensures { IsTrue result ↔ PRINTED * levels (view expression.now) ≤ budget }
{
    if budget < PRINTED {
        return false;
    }
    let budget = budget - PRINTED;
    match expression {
        Expression::And { lhs, rhs } => both_fit(lhs, rhs, budget),
        Expression::Assert {
            condition,
            message,
            ..
        } => fits(condition, budget) && part_fits(message.as_deref(), budget),
        Expression::Backtick { .. } => true,
        Expression::Call { arguments, .. } => row_fits(arguments, budget),
        Expression::Comparison { lhs, rhs, .. } => both_fit(lhs, rhs, budget),
        Expression::Concatenation { lhs, rhs, .. } => both_fit(lhs, rhs, budget),
        Expression::Conditional {
            condition,
            consequence,
            otherwise,
        } => both_fit(condition, consequence, budget) && part_fits(otherwise.as_deref(), budget),
        Expression::FormatString { expressions, .. } => pieces_fit(expressions, budget),
        Expression::Group { contents } => fits(contents, budget),
        Expression::Join { lhs, rhs, .. } => part_fits(lhs.as_deref(), budget) && fits(rhs, budget),
        Expression::List { elements, .. } => row_fits(elements, budget),
        Expression::ListConcatenation { lhs, rhs, .. } => both_fit(lhs, rhs, budget),
        Expression::Not { operand } => fits(operand, budget),
        Expression::Or { lhs, rhs } => both_fit(lhs, rhs, budget),
        Expression::StringLiteral { .. } => true,
        Expression::Variable { .. } => true,
    }
}

// Whether two expressions fit.
#[cycle(fits)]
fn both_fit<'src>(lhs: &Expression<'src>, rhs: &Expression<'src>, budget: usize) -> bool
    ensures { IsTrue result ↔ PRINTED * max (levels (view lhs.now)) (levels (view rhs.now)) ≤ budget }
{
    fits(lhs, budget) && fits(rhs, budget)
}

// Whether an optional part fits.
#[cycle(fits)]
fn part_fits(part: Option<&Expression>, budget: usize) -> bool
    ensures { IsTrue result ↔ PRINTED * levels_of_part (option_map (λ e. view e.now) part.entry) ≤ budget }
{
    match part {
        Some(part) => fits(part, budget),
        None => true,
    }
}

// Whether each of some expressions fits.
#[cycle(fits)]
fn row_fits(expressions: &[Expression], budget: usize) -> bool
    ensures { IsTrue result ↔ PRINTED * levels_of_row (views expressions.now) ≤ budget }
{
    for expression in expressions {
        if !fits(expression, budget) {
            return false;
        }
    }
    true
}

// Whether each interpolation fits.
#[cycle(fits)]
fn pieces_fit(expressions: &[(Expression, StringLiteral)], budget: usize) -> bool
    ensures { IsTrue result ↔ PRINTED * levels_of_pieces (piece_views expressions.now) ≤ budget }
{
    for (expression, _) in expressions {
        if !fits(expression, budget) {
            return false;
        }
    }
    true
}
