// The messages of errors.

use crate::error::{CommandFault, Error};
use crate::said::{
    write_assertion, write_internal, write_left_out_regex, write_list, write_operation,
};
use just_syntax::out_of_memory::OutOfMemory;
use just_syntax::unstyled::write_unstyled;
use std::fmt;

/// Writes `process exited with status code n`, the fault's own text, or `out of memory`.
impl fmt::Display for CommandFault {
    ghost use Rattle.std.specs.Prelude.{Some};
    ghost use Rattle.just_value.specs.Said.{command_fault_text};
    ghost use Rattle.just_value.specs.View.{fault_view};

    ghost output = { λ fault. Some (command_fault_text (fault_view fault)) };

    ghost styled_output = { λ fault _. Some (command_fault_text (fault_view fault)) };

    fn fmt<W: fmt::Write>(&self, f: &mut fmt::Formatter<W>) -> fmt::Result {
        match self {
            CommandFault::Code(code) => {
                write_unstyled(f, format_args!("process exited with status code {code}"))
            }
            CommandFault::Fault(text) => f.write_str(text),
            CommandFault::OutOfMemory => write_unstyled(f, OutOfMemory),
        }
    }
}

/// Writes the message of a refusal, or `out of memory`. It is one line, apart from line breaks in the texts that it
/// contains, and from the two lines on lists that follow the refusal of an argument of a function.
impl fmt::Display for Error<'_> {
    ghost use Rattle.std.specs.Prelude.{Some};
    ghost use Rattle.just_value.specs.Said.{error_text};
    ghost use Rattle.just_value.specs.View.{refusal};

    ghost output = { λ error. Some (error_text (refusal error)) };

    ghost styled_output = { λ error _. Some (error_text (refusal error)) };

    fn fmt<W: fmt::Write>(&self, f: &mut fmt::Formatter<W>) -> fmt::Result {
        match self {
            Error::Assert { message, .. } => write_assertion(f, message),
            Error::Backtick { output_error, .. } => {
                write_unstyled(f, format_args!("backtick failed: {output_error}"))
            }
            Error::Check { parameter, message } => write_unstyled(
                f,
                format_args!("argument of parameter `{parameter}` was refused: {message}"),
            ),
            Error::Const(error) => write_unstyled(f, error),
            Error::EmptyListArgument { parameter, recipe } => write_unstyled(
                f,
                format_args!(
                    "parameter `{parameter}` of recipe `{recipe}` requires at least one element"
                ),
            ),
            Error::FunctionCall { function, message } => write_unstyled(
                f,
                format_args!("call to function `{function}` failed: {message}"),
            ),
            Error::Internal { message, .. } => write_internal(f, message),
            Error::LeftOut { function } => {
                write_unstyled(f, format_args!("function `{function}` is left out"))
            }
            Error::LeftOutRegex { .. } => write_left_out_regex(f),
            Error::ListInStringContext { context, value } => write_list(f, context, value),
            Error::ListOperation {
                lhs,
                operator,
                rhs,
                ..
            } => write_operation(f, lhs, operator, rhs),
            Error::OutOfMemory => write_unstyled(f, OutOfMemory),
            Error::RecursionLimit { last } => write_unstyled(
                f,
                format_args!("call to function `{last}` reached the recursion limit"),
            ),
        }
    }
}
