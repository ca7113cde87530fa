// Errors of evaluation.

ghost use Rattle.std.specs.Prelude.{option_map, ◌≡◌};
ghost use Rattle.std.specs.Option.{ForSome};
ghost use Rattle.just_value.specs.Prelude.{IsConstEval, compile_refusal, compile_token, const_eval_token, error_token};
ghost use Rattle.just_value.specs.Prelude.{refusal, token_view};
ghost use Rattle.just_value.specs.declared.error.Error.TheVariants.{OutOfMemory as Wanted};

mod command_fault;
mod display;

use crate::compile_error::CompileError;
use crate::const_error::ConstError;
use crate::const_eval_error::ConstEvalError;
use crate::value::Value;
use just_syntax::list_operator::ListOperator;
use just_syntax::name::Name;
use just_syntax::out_of_memory::OutOfMemory;
use just_syntax::string_context::StringContext;
use just_syntax::token::Token;
use std::alloc::{AllocError, AllocFailed};

/// Why a command produced no text.
#[derive(Debug, Drop)]
pub enum CommandFault {
    /// It ended with this status.
    Code(i32),
    /// It could not be run, or its output is not text.
    Fault(String),
    /// There was no memory for it.
    OutOfMemory,
}

/// Why a run yielded no value.
#[derive(Debug, Drop)]
pub enum Error<'src> {
    /// An assertion failed.
    Assert {
        message: String,
        name: Name<'src>,
    },
    /// A command's fault, which is never `OutOfMemory`.
    Backtick {
        token: Token<'src>,
        output_error: CommandFault,
    },
    /// The value check refused an argument of this parameter.
    Check {
        parameter: &'src str,
        message: String,
    },
    /// What constant evaluation does not allow, in an evaluation without a context.
    Const(ConstError<'src>),
    /// An empty argument for a parameter that needs an element.
    EmptyListArgument {
        parameter: &'src str,
        recipe: &'src str,
    },
    /// A built-in function's own fault.
    FunctionCall {
        function: Name<'src>,
        message: String,
    },
    /// The module is not resolved, or an argument count is wrong.
    Internal {
        message: String,
        token: Token<'src>,
    },
    /// A call of a built-in function that is left out.
    LeftOut {
        function: Name<'src>,
    },
    /// `=~` or `!~` was evaluated.
    LeftOutRegex {
        token: Token<'src>,
    },
    /// A value without exactly one element in a place that requires one text.
    ListInStringContext {
        context: StringContext<'src>,
        value: Value,
    },
    /// Lists whose lengths do not match.
    ListOperation {
        lhs: Value,
        operator: ListOperator,
        rhs: Value,
        token: Token<'src>,
    },
    /// An allocation failed.
    OutOfMemory,
    /// A call of the function `last` would have reached the limit on depth.
    RecursionLimit {
        last: Name<'src>,
    },
}

impl<'src> Error<'src> {
    /// The token of the refusal. `OutOfMemory` has none, nor has the refusal of an argument, which comes from the
    /// caller.
    pub fn token(&self) -> Option<Token<'src>>
        ensures { option_map token_view result ≡ error_token (refusal self.now) }
    {
        match self {
            Error::Const(error) => Some(error.token()),
            Error::ListInStringContext { context, .. } => Some(context.token()),
            Error::Assert { name, .. }
            | Error::FunctionCall { function: name, .. }
            | Error::LeftOut { function: name }
            | Error::RecursionLimit { last: name } => Some(name.token),
            Error::Backtick { token, .. }
            | Error::Internal { token, .. }
            | Error::LeftOutRegex { token }
            | Error::ListOperation { token, .. } => Some(*token),
            Error::Check { .. } | Error::EmptyListArgument { .. } | Error::OutOfMemory => None,
        }
    }

    /// The same refusal as one of constant evaluation, or `OutOfMemory`. It must not be called for a refusal that
    /// constant evaluation does not have. It allocates nothing. Upstream's `Error::unwrap_const`, followed by
    /// `ConstEvalError::into_compile_error`.
    pub fn unwrap_const(self) -> CompileError<'src>
        requires constant { ForSome (refusal self) IsConstEval }
        ensures refusal { compile_refusal result ≡ refusal self.entry }
        ensures token { compile_token result ≡ option_map const_eval_token (refusal self.entry) }
    {
        let error = match self {
            Error::Assert { message, name } => ConstEvalError::Assert { message, name },
            Error::Const(error) => ConstEvalError::Const(error),
            Error::Internal { message, token } => ConstEvalError::Internal { message, token },
            Error::LeftOutRegex { token } => ConstEvalError::LeftOutRegex { token },
            Error::ListInStringContext { context, value } => {
                ConstEvalError::ListInStringContext { context, value }
            }
            Error::ListOperation {
                lhs,
                operator,
                rhs,
                token,
            } => ConstEvalError::ListOperation {
                lhs,
                operator,
                rhs,
                token,
            },
            Error::OutOfMemory => return CompileError::OutOfMemory,
            Error::Backtick { .. }
            | Error::Check { .. }
            | Error::EmptyListArgument { .. }
            | Error::FunctionCall { .. }
            | Error::LeftOut { .. }
            | Error::RecursionLimit { .. } => unreachable!(),
        };
        error.into_compile_error()
    }
}

impl std::error::Error for CommandFault {}

impl std::error::Error for Error<'_> {}

impl From<AllocError> for Error<'_> {
    ghost from_gives = { λ _ e. e ≡ Wanted };

    fn from(_error: AllocError) -> Self {
        Error::OutOfMemory
    }
}

impl<T: Drop> From<AllocFailed<T>> for Error<'_> {
    ghost from_gives = { λ _ e. e ≡ Wanted };

    fn from(_error: AllocFailed<T>) -> Self {
        Error::OutOfMemory
    }
}

impl From<OutOfMemory> for Error<'_> {
    ghost from_gives = { λ _ e. e ≡ Wanted };

    fn from(_error: OutOfMemory) -> Self {
        Error::OutOfMemory
    }
}
