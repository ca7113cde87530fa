// Messages of the refusals that runs and constant evaluation share.
#![tactic(auto, using(just_syntax::proofs::Styled::styled_steps))]

ghost use Rattle.std.specs.Prelude.{codes, ◌++◌};
ghost use Rattle.std.specs.Fmt.{WritesStyledOnOk};
ghost use Rattle.just_value.specs.Prelude.{list_text, lists_text, operation_text, operator_text, string_context_view};

use crate::value::Value;
use just_syntax::list_operator::ListOperator;
use just_syntax::string_context::StringContext;
use just_syntax::unstyled::write_unstyled;
use std::fmt;

// The message of a failed assertion.
pub(crate) fn write_assertion<W: fmt::Write>(
    f: &mut fmt::Formatter<W>,
    message: &str,
) -> fmt::Result
    ensures { WritesStyledOnOk W.write_str_gives f.old result (codes "assert failed: " ++ message.now) f.new }
{
    write_unstyled(f, format_args!("assert failed: {message}"))
}

// The message for a module that is not resolved.
pub(crate) fn write_internal<W: fmt::Write>(f: &mut fmt::Formatter<W>, message: &str) -> fmt::Result
    ensures { WritesStyledOnOk W.write_str_gives f.old result (codes "internal error: " ++ message.now) f.new }
{
    write_unstyled(f, format_args!("internal error: {message}"))
}

// The message for an evaluated `=~` or `!~`.
pub(crate) fn write_left_out_regex<W: fmt::Write>(f: &mut fmt::Formatter<W>) -> fmt::Result
    ensures { WritesStyledOnOk W.write_str_gives f.old result (codes "regular expression operators are left out")
        f.new }
{
    f.write_str("regular expression operators are left out")
}

// The message for a value that is not one text, in a place that requires one.
pub(crate) fn write_list<W: fmt::Write>(
    f: &mut fmt::Formatter<W>,
    context: &StringContext,
    value: &Value,
) -> fmt::Result
    ensures { WritesStyledOnOk W.write_str_gives f.old result (list_text (string_context_view context.now) value.now)
        f.new }
{
    write_unstyled(f, format_args!("list value {value} {context}"))?;
    match context {
        StringContext::EnvKey(_) => Ok(()),
        StringContext::Function(_) => f.write_str(
            "\nthe behavior of lists with many built-in functions is undecided\n\
            see https://github.com/casey/just#lists",
        ),
        StringContext::Setting(_) => Ok(()),
    }
}

// The message for an operator that cannot be applied.
pub(crate) fn write_operation<W: fmt::Write>(
    f: &mut fmt::Formatter<W>,
    lhs: &Value,
    operator: &ListOperator,
    rhs: &Value,
) -> fmt::Result
    ensures { WritesStyledOnOk W.write_str_gives f.old result (operation_text lhs.now operator.now rhs.now) f.new }
{
    write_unstyled(f, format_args!("operator `{operator}`"))?;
    write_lists(f, lhs, operator, rhs)
}

// Why an operator cannot be applied.
fn write_lists<W: fmt::Write>(
    f: &mut fmt::Formatter<W>,
    lhs: &Value,
    operator: &ListOperator,
    rhs: &Value,
) -> fmt::Result
    ensures { WritesStyledOnOk W.write_str_gives f.old result (lists_text lhs.now (operator_text operator.now) rhs.now)
        f.new }
{
    if lhs.is_empty() || rhs.is_empty() {
        f.write_str(" cannot be applied to empty lists")
    } else {
        write_unstyled(
            f,
            format_args!(
                " cannot be applied to lists of different lengths: {lhs} {operator} {rhs}"
            ),
        )
    }
}
