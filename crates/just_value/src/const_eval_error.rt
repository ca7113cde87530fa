// Refusals of constant evaluation.

ghost use Rattle.std.specs.Prelude.{Some, ◌≡◌};
ghost use Rattle.just_value.specs.Prelude.{compile_refusal, compile_token, const_eval_refusal, const_eval_token};
ghost use Rattle.just_value.specs.Prelude.{token_view};

use crate::compile_error::CompileError;
use crate::const_error::ConstError;
use crate::said::{
    write_assertion, write_internal, write_left_out_regex, write_list, write_operation,
};
use crate::value::Value;
use just_syntax::list_operator::ListOperator;
use just_syntax::name::Name;
use just_syntax::string_context::StringContext;
use just_syntax::token::Token;
use just_syntax::unstyled::write_unstyled;
use std::error::Error;
use std::fmt;

/// Why constant evaluation yielded no value.
#[derive(Debug, Drop, PartialEq)]
pub enum ConstEvalError<'src> {
    /// An assertion failed.
    Assert {
        message: String,
        name: Name<'src>,
    },
    /// What constant evaluation does not allow.
    Const(ConstError<'src>),
    /// A setting that needs a command evaluated to the empty list.
    EmptyInterpreter {
        setting: Name<'src>,
    },
    /// The module is not resolved.
    Internal {
        message: String,
        token: Token<'src>,
    },
    /// `=~` or `!~` was evaluated.
    LeftOutRegex {
        token: Token<'src>,
    },
    /// A value without exactly one element in a place that requires one text.
    ListInStringContext {
        context: StringContext<'src>,
        value: Value,
    },
    /// Lists whose lengths do not match.
    ListOperation {
        lhs: Value,
        operator: ListOperator,
        rhs: Value,
        token: Token<'src>,
    },
}

impl<'src> ConstEvalError<'src> {
    /// The token of the refusal. Upstream's `ConstEvalError::context`.
    pub fn token(&self) -> Token<'src>
        ensures { token_view result ≡ const_eval_token (const_eval_refusal self.now) }
    {
        match self {
            ConstEvalError::Assert { message: _, name } => name.token,
            ConstEvalError::Const(error) => error.token(),
            ConstEvalError::EmptyInterpreter { setting } => setting.token,
            ConstEvalError::ListInStringContext { context, value: _ } => context.token(),
            ConstEvalError::Internal { token, .. }
            | ConstEvalError::LeftOutRegex { token }
            | ConstEvalError::ListOperation { token, .. } => *token,
        }
    }

    /// The same refusal, with its token. It allocates nothing. Upstream's `ConstEvalError::into_compile_error`.
    pub fn into_compile_error(self) -> CompileError<'src>
        ensures refusal { compile_refusal result ≡ Some (const_eval_refusal self.entry) }
        ensures token { compile_token result ≡ Some (const_eval_token (const_eval_refusal self.entry)) }
    {
        CompileError::ConstEval {
            token: self.token(),
            error: self,
        }
    }
}

impl fmt::Display for ConstEvalError<'_> {
    ghost use Rattle.std.specs.Prelude.{Some};
    ghost use Rattle.just_value.specs.ConstEval.{const_eval_text};
    ghost use Rattle.just_value.specs.View.{const_eval_refusal};

    ghost output = { λ error. Some (const_eval_text (const_eval_refusal error)) };

    ghost styled_output = { λ error _. Some (const_eval_text (const_eval_refusal error)) };

    #[tactic(auto, using(just_syntax::proofs::Styled::styled_steps))]
    fn fmt<W: fmt::Write>(&self, f: &mut fmt::Formatter<W>) -> fmt::Result {
        match self {
            ConstEvalError::Assert { message, name: _ } => write_assertion(f, message),
            ConstEvalError::Const(error) => write_unstyled(f, error),
            ConstEvalError::EmptyInterpreter { setting } => write_unstyled(
                f,
                format_args!(
                    "`{setting}` setting requires at least one element but evaluated to empty list"
                ),
            ),
            ConstEvalError::Internal { message, token: _ } => write_internal(f, message),
            ConstEvalError::LeftOutRegex { token: _ } => write_left_out_regex(f),
            ConstEvalError::ListInStringContext { context, value } => {
                write_list(f, context, value)
            }
            ConstEvalError::ListOperation {
                lhs,
                operator,
                rhs,
                token: _,
            } => write_operation(f, lhs, operator, rhs),
        }
    }
}

impl Error for ConstEvalError<'_> {}
