// How expressions are printed.
#![tactic(auto, using(crate::proofs::Styled::styled_steps))]

ghost use Rattle.std.specs.Prelude.{[], codes, option_map, ◌++◌};
ghost use Rattle.std.specs.Fmt.{WritesStyledOnOk};
ghost use Rattle.just_syntax.specs.Prelude.{between, name_view, piece_views, printed, printed_assertion, printed_call};
ghost use Rattle.just_syntax.specs.Prelude.{printed_conditional, printed_join, printed_pieces, printed_row, view};
ghost use Rattle.just_syntax.specs.Prelude.{views};

use crate::expression::Expression;
use crate::name::Name;
use crate::string_literal::StringLiteral;
use std::fmt;

// Prints an expression.
#[cycle(print)]
pub(crate) fn print<W: fmt::Write>(
    expression: &Expression,
    f: &mut fmt::Formatter<W>,
) -> fmt::Result
    ensures { WritesStyledOnOk W.write_str_gives f.old result (printed (view expression.now)) f.new }
{
    match expression {
        Expression::And { lhs, rhs } => print_between(lhs, "&&", rhs, f),
        Expression::Assert {
            condition,
            message,
            name: _,
        } => print_assert(condition, message.as_deref(), f),
        Expression::Backtick { contents: _, token } => f.write_str(token.lexeme),
        Expression::Call { arguments, name } => print_call(name, arguments, f),
        Expression::Comparison {
            lhs,
            operator,
            rhs,
            token: _,
        } => print_between(lhs, operator.text(), rhs, f),
        Expression::Concatenation {
            lhs,
            operator: _,
            rhs,
        } => print_between(lhs, "+", rhs, f),
        Expression::Conditional {
            condition,
            consequence,
            otherwise,
        } => print_conditional(condition, consequence, otherwise.as_deref(), f),
        Expression::FormatString { start, expressions } => {
            print_format_string(start, expressions, f)
        }
        Expression::Group { contents } => print_group(contents, f),
        Expression::Join {
            lhs,
            operator: _,
            rhs,
        } => print_join(lhs.as_deref(), rhs, f),
        Expression::List { elements, token: _ } => print_list(elements, f),
        Expression::ListConcatenation {
            lhs,
            operator: _,
            rhs,
        } => print_between(lhs, "++", rhs, f),
        Expression::Not { operand } => {
            f.write_str("!")?;
            print(operand, f)
        }
        Expression::Or { lhs, rhs } => print_between(lhs, "||", rhs, f),
        Expression::StringLiteral { string_literal } => f.write_str(string_literal.lexeme),
        Expression::Variable { name, number: _ } => f.write_str(name.lexeme()),
    }
}

// Prints two expressions with an operator between them.
#[cycle(print)]
fn print_between<W: fmt::Write>(
    lhs: &Expression,
    operator: &str,
    rhs: &Expression,
    f: &mut fmt::Formatter<W>,
) -> fmt::Result
    ensures { WritesStyledOnOk W.write_str_gives f.old result
        (between (printed (view lhs.now)) operator.now (printed (view rhs.now))) f.new }
{
    print(lhs, f)?;
    f.write_str(" ")?;
    f.write_str(operator)?;
    f.write_str(" ")?;
    print(rhs, f)
}

// Prints an expression after a text.
#[cycle(print)]
fn print_after<W: fmt::Write>(
    text: &str,
    expression: &Expression,
    f: &mut fmt::Formatter<W>,
) -> fmt::Result
    ensures { WritesStyledOnOk W.write_str_gives f.old result (text.now ++ printed (view expression.now)) f.new }
{
    f.write_str(text)?;
    print(expression, f)
}

// Prints an assertion.
#[cycle(print)]
fn print_assert<W: fmt::Write>(
    condition: &Expression,
    message: Option<&Expression>,
    f: &mut fmt::Formatter<W>,
) -> fmt::Result
    ensures { WritesStyledOnOk W.write_str_gives f.old result
        (printed_assertion (printed (view condition.now)) (option_map (λ e. printed (view e.now)) message.entry))
        f.new }
{
    f.write_str("assert(")?;
    print(condition, f)?;
    if let Some(message) = message {
        f.write_str(", ")?;
        print(message, f)?;
    }
    f.write_str(")")
}

// Prints a conditional.
#[cycle(print)]
fn print_conditional<W: fmt::Write>(
    condition: &Expression,
    consequence: &Expression,
    otherwise: Option<&Expression>,
    f: &mut fmt::Formatter<W>,
) -> fmt::Result
    ensures { WritesStyledOnOk W.write_str_gives f.old result
        (printed_conditional (printed (view condition.now)) (printed (view consequence.now))
        (option_map (λ e. printed (view e.now)) otherwise.entry)) f.new }
{
    print_after("if ", condition, f)?;
    print_after(" { ", consequence, f)?;
    match otherwise {
        Some(otherwise) => {
            print_after(" } else { ", otherwise, f)?;
            f.write_str(" }")
        }
        None => f.write_str(" }"),
    }
}

// Prints a group.
#[cycle(print)]
fn print_group<W: fmt::Write>(contents: &Expression, f: &mut fmt::Formatter<W>) -> fmt::Result
    ensures { WritesStyledOnOk W.write_str_gives f.old result ((codes "(" ++ printed (view contents.now)) ++ codes ")")
        f.new }
{
    print_after("(", contents, f)?;
    f.write_str(")")
}

// Prints a join, whose left side may be left out.
#[cycle(print)]
fn print_join<W: fmt::Write>(
    lhs: Option<&Expression>,
    rhs: &Expression,
    f: &mut fmt::Formatter<W>,
) -> fmt::Result
    ensures { WritesStyledOnOk W.write_str_gives f.old result
        (printed_join (option_map (λ e. printed (view e.now)) lhs.entry) (printed (view rhs.now))) f.new }
{
    match lhs {
        Some(lhs) => print_between(lhs, "/", rhs, f),
        None => {
            f.write_str("/ ")?;
            print(rhs, f)
        }
    }
}

// Prints a list.
#[cycle(print)]
fn print_list<W: fmt::Write>(elements: &[Expression], f: &mut fmt::Formatter<W>) -> fmt::Result
    ensures { WritesStyledOnOk W.write_str_gives f.old result ((codes "[" ++ printed_row [] (views elements.now))
        ++ codes "]") f.new }
{
    f.write_str("[")?;
    print_row(elements, f)?;
    f.write_str("]")
}

// Prints a call.
#[cycle(print)]
fn print_call<W: fmt::Write>(
    name: &Name,
    arguments: &[Expression],
    f: &mut fmt::Formatter<W>,
) -> fmt::Result
    ensures { WritesStyledOnOk W.write_str_gives f.old result
        (printed_call (name_view name.now).lexeme (printed_row [] (views arguments.now))) f.new }
{
    f.write_str(name.lexeme())?;
    f.write_str("(")?;
    print_row(arguments, f)?;
    f.write_str(")")
}

// Prints expressions separated by a comma and a space.
#[cycle(print)]
fn print_row<W: fmt::Write>(expressions: &[Expression], f: &mut fmt::Formatter<W>) -> fmt::Result
    ensures { WritesStyledOnOk W.write_str_gives f.old result (printed_row [] (views expressions.now)) f.new }
{
    let mut separator = "";
    for expression in expressions {
        f.write_str(separator)?;
        print(expression, f)?;
        separator = ", ";
    }
    Ok(())
}

// Prints a format string.
#[cycle(print)]
fn print_format_string<W: fmt::Write>(
    start: &StringLiteral,
    expressions: &[(Expression, StringLiteral)],
    f: &mut fmt::Formatter<W>,
) -> fmt::Result
    ensures { WritesStyledOnOk W.write_str_gives f.old result
        (start.now.lexeme.now ++ printed_pieces (piece_views expressions.now)) f.new }
{
    f.write_str(start.lexeme)?;
    for (expression, literal) in expressions {
        print(expression, f)?;
        f.write_str(literal.lexeme)?;
    }
    Ok(())
}
