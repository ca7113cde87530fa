// What occurs in an expression, in the order of its text.

ghost use Rattle.std.specs.Prelude.{IfOk, OnOk, [], option_map, ◌++◌, ◌∷◌, ◌≡◌};
ghost use Rattle.just_syntax.specs.Prelude.{CallAt, CommandAt, VariableAt, name_view};
ghost use Rattle.just_syntax.specs.Prelude.{occurrences_in, occurrences_view, occurring, occurring_in_call};
ghost use Rattle.just_syntax.specs.Prelude.{occurring_in_pieces, occurring_in_row, occurring_in_some, piece_views};
ghost use Rattle.just_syntax.specs.Prelude.{token_view, view, views};

use crate::expression::Expression;
use crate::name::Name;
use crate::number::Number;
use crate::occurrence::Occurrence;
use crate::out_of_memory::OutOfMemory;
use crate::results::push;
use crate::string_literal::StringLiteral;
use crate::token::Token;
use std::alloc::Global;

/// The commands, calls and variables that occur in an expression, in the order of its text: a call comes before what
/// occurs in its arguments. Branches count whether or not they would be taken. One walk collects them, so that checking
/// them needs no recursion.
///
/// For example, `f(x) + `date`` gives the call of `f`, the variable `x` and the command `date`.
///
/// # Errors
///
/// `OutOfMemory` if an allocation fails.
pub fn occurrences_in<'src, 'a>(
    alloc: Global,
    expression: &'a Expression<'src>,
) -> Result<Vec<Occurrence<'src, 'a>>, OutOfMemory>
    ensures { IfOk result (λ all. occurrences_view all.items ≡ occurrences_in (view expression.now)) }
{
    let mut all = Vec::new(alloc);
    add(&mut all, expression)?;
    Ok(all)
}

/// What occurs in an expression, as `occurrences_in`, in a list that is used again: it is emptied first.
///
/// # Errors
///
/// `OutOfMemory` if an allocation fails.
pub fn refill<'src, 'a>(
    occurrences: &mut Vec<Occurrence<'src, 'a>>,
    expression: &'a Expression<'src>,
) -> Result<(), OutOfMemory>
    ensures { OnOk result (occurrences_view occurrences.new.items ≡ occurrences_in (view expression.now)) }
{
    occurrences.clear();
    add(occurrences, expression)?;
    Ok(())
}

// Adds what occurs in an expression. The recursive arms are functions of their own, to keep this frame small:
// expressions may nest as deeply as the stack allows.
#[cycle(add)]
fn add<'src, 'a>(
    all: &mut Vec<Occurrence<'src, 'a>>,
    expression: &'a Expression<'src>,
) -> Result<(), OutOfMemory>
    ensures { OnOk result (occurrences_view all.new.items
        ≡ occurring (occurrences_view all.old.items) (view expression.now)) }
{
    match expression {
        Expression::And { lhs, rhs } => add_both(all, lhs, rhs),
        Expression::Assert {
            condition,
            message,
            name: _,
        } => add_assert(all, condition, message.as_deref()),
        Expression::Backtick { contents, token } => add_command(all, contents, token),
        Expression::Call { arguments, name } => add_call(all, name, arguments),
        Expression::Comparison {
            lhs,
            operator: _,
            rhs,
            token: _,
        } => add_both(all, lhs, rhs),
        Expression::Concatenation {
            lhs,
            operator: _,
            rhs,
        } => add_both(all, lhs, rhs),
        Expression::Conditional {
            condition,
            consequence,
            otherwise,
        } => add_conditional(all, condition, consequence, otherwise.as_deref()),
        Expression::FormatString {
            start: _,
            expressions,
        } => add_pieces(all, expressions),
        Expression::Group { contents } => add(all, contents),
        Expression::Join {
            lhs,
            operator: _,
            rhs,
        } => add_join(all, lhs.as_deref(), rhs),
        Expression::List { elements, token: _ } => add_row(all, elements),
        Expression::ListConcatenation {
            lhs,
            operator: _,
            rhs,
        } => add_both(all, lhs, rhs),
        Expression::Not { operand } => add(all, operand),
        Expression::Or { lhs, rhs } => add_both(all, lhs, rhs),
        Expression::StringLiteral { string_literal: _ } => Ok(()),
        Expression::Variable { name, number } => add_variable(all, name, *number),
    }
}

// Adds what occurs in two expressions.
#[cycle(add)]
fn add_both<'src, 'a>(
    all: &mut Vec<Occurrence<'src, 'a>>,
    lhs: &'a Expression<'src>,
    rhs: &'a Expression<'src>,
) -> Result<(), OutOfMemory>
    ensures { OnOk result (occurrences_view all.new.items
        ≡ occurring (occurring (occurrences_view all.old.items) (view lhs.now)) (view rhs.now)) }
{
    add(all, lhs)?;
    add(all, rhs)
}

// Adds what occurs in an expression, if there is one.
#[cycle(add)]
fn add_some<'src, 'a>(
    all: &mut Vec<Occurrence<'src, 'a>>,
    expression: Option<&'a Expression<'src>>,
) -> Result<(), OutOfMemory>
    ensures { OnOk result (occurrences_view all.new.items ≡ occurring_in_some (occurrences_view all.old.items)
        (option_map (λ e. view e.now) expression.entry)) }
{
    match expression {
        Some(expression) => add(all, expression),
        None => Ok(()),
    }
}

// Adds what occurs in an assertion.
#[cycle(add)]
fn add_assert<'src, 'a>(
    all: &mut Vec<Occurrence<'src, 'a>>,
    condition: &'a Expression<'src>,
    message: Option<&'a Expression<'src>>,
) -> Result<(), OutOfMemory>
    ensures { OnOk result (occurrences_view all.new.items
        ≡ occurring_in_some (occurring (occurrences_view all.old.items) (view condition.now))
        (option_map (λ e. view e.now) message.entry)) }
{
    add(all, condition)?;
    add_some(all, message)
}

// Adds what occurs in a conditional.
#[cycle(add)]
fn add_conditional<'src, 'a>(
    all: &mut Vec<Occurrence<'src, 'a>>,
    condition: &'a Expression<'src>,
    consequence: &'a Expression<'src>,
    otherwise: Option<&'a Expression<'src>>,
) -> Result<(), OutOfMemory>
    ensures { OnOk result (occurrences_view all.new.items
        ≡ occurring_in_some (occurring
        (occurring (occurrences_view all.old.items) (view condition.now)) (view consequence.now))
        (option_map (λ e. view e.now) otherwise.entry)) }
{
    add_both(all, condition, consequence)?;
    add_some(all, otherwise)
}

// Adds what occurs in a join, whose left side is optional.
#[cycle(add)]
fn add_join<'src, 'a>(
    all: &mut Vec<Occurrence<'src, 'a>>,
    lhs: Option<&'a Expression<'src>>,
    rhs: &'a Expression<'src>,
) -> Result<(), OutOfMemory>
    ensures { OnOk result (occurrences_view all.new.items
        ≡ occurring
        (occurring_in_some (occurrences_view all.old.items) (option_map (λ e. view e.now) lhs.entry))
        (view rhs.now)) }
{
    add_some(all, lhs)?;
    add(all, rhs)
}

// Adds a call, and what occurs in its arguments.
#[cycle(add)]
fn add_call<'src, 'a>(
    all: &mut Vec<Occurrence<'src, 'a>>,
    name: &Name<'src>,
    arguments: &'a [Expression<'src>],
) -> Result<(), OutOfMemory>
    ensures { OnOk result (occurrences_view all.new.items ≡ occurring_in_call (occurrences_view all.old.items)
        (name_view name.now) (views arguments.now)) }
{
    add_one_call(all, name, arguments.len())?;
    add_row(all, arguments)
}

// Adds what occurs in some expressions.
#[cycle(add)]
fn add_row<'src, 'a>(
    all: &mut Vec<Occurrence<'src, 'a>>,
    expressions: &'a [Expression<'src>],
) -> Result<(), OutOfMemory>
    ensures { OnOk result (occurrences_view all.new.items ≡ occurring_in_row (occurrences_view all.old.items)
        (views expressions.now)) }
{
    for expression in expressions {
        add(all, expression)?;
    }
    Ok(())
}

// Adds what occurs in interpolations.
#[cycle(add)]
fn add_pieces<'src, 'a>(
    all: &mut Vec<Occurrence<'src, 'a>>,
    expressions: &'a [(Expression<'src>, StringLiteral<'src>)],
) -> Result<(), OutOfMemory>
    ensures { OnOk result (occurrences_view all.new.items ≡ occurring_in_pieces (occurrences_view all.old.items)
        (piece_views expressions.now)) }
{
    for (expression, _) in expressions {
        add(all, expression)?;
    }
    Ok(())
}

// Adds a call, without its arguments. Functions that add an occurrence are out of line, to keep them out of the
// recursion's frames.
#[inline(never)]
fn add_one_call<'src>(
    all: &mut Vec<Occurrence<'src, '_>>,
    name: &Name<'src>,
    arguments: usize,
) -> Result<(), OutOfMemory>
    ensures { OnOk result (occurrences_view all.new.items
        ≡ occurrences_view all.old.items ++ CallAt (name_view name.now) arguments ∷ []) }
{
    push(
        all,
        Occurrence::Call {
            name: *name,
            arguments,
        },
    )
}

// Adds a command.
#[inline(never)]
fn add_command<'src, 'a>(
    all: &mut Vec<Occurrence<'src, 'a>>,
    contents: &'a str,
    token: &Token<'src>,
) -> Result<(), OutOfMemory>
    ensures { OnOk result (occurrences_view all.new.items
        ≡ occurrences_view all.old.items ++ CommandAt (token_view token.now) contents.now ∷ []) }
{
    push(
        all,
        Occurrence::Command {
            contents,
            token: *token,
        },
    )
}

// Adds a variable.
#[inline(never)]
fn add_variable<'src>(
    all: &mut Vec<Occurrence<'src, '_>>,
    name: &Name<'src>,
    number: Option<Number>,
) -> Result<(), OutOfMemory>
    ensures { OnOk result (occurrences_view all.new.items
        ≡ occurrences_view all.old.items ++ VariableAt (name_view name.now) number ∷ []) }
{
    push(
        all,
        Occurrence::Variable {
            name: *name,
            number,
        },
    )
}
