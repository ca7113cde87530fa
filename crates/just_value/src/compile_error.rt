// Errors of a module before any run.

ghost use Rattle.std.specs.Prelude.{option_map, ◌≡◌};
ghost use Rattle.just_value.specs.Prelude.{compile_token, token_view};
ghost use Rattle.just_value.specs.declared.compile_error.CompileError.TheVariants.{OutOfMemory as Wanted};

use crate::const_eval_error::ConstEvalError;
use just_syntax::out_of_memory::OutOfMemory;
use just_syntax::token::Token;
use just_syntax::unstyled::write_unstyled;
use std::alloc::{AllocError, AllocFailed};
use std::error::Error;
use std::fmt;

/// Why a module is refused before any run.
#[derive(Debug, Drop, PartialEq)]
pub enum CompileError<'src> {
    /// A refusal of constant evaluation, and its token.
    ConstEval {
        token: Token<'src>,
        error: ConstEvalError<'src>,
    },
    /// An allocation failed.
    OutOfMemory,
}

impl<'src> CompileError<'src> {
    /// The token of the refusal. `OutOfMemory` has none.
    pub fn token(&self) -> Option<Token<'src>>
        ensures { option_map token_view result ≡ compile_token self.now }
    {
        match self {
            CompileError::ConstEval { token, error: _ } => Some(*token),
            CompileError::OutOfMemory => None,
        }
    }
}

/// Writes the message of the refusal, or `out of memory`.
impl fmt::Display for CompileError<'_> {
    ghost use Rattle.std.specs.Prelude.{Some};
    ghost use Rattle.just_value.specs.Said.{error_text};
    ghost use Rattle.just_value.specs.View.{compile_refusal};

    ghost output = { λ error. Some (error_text (compile_refusal error)) };

    ghost styled_output = { λ error _. Some (error_text (compile_refusal error)) };

    fn fmt<W: fmt::Write>(&self, f: &mut fmt::Formatter<W>) -> fmt::Result {
        match self {
            CompileError::ConstEval { token: _, error } => write_unstyled(f, error),
            CompileError::OutOfMemory => write_unstyled(f, OutOfMemory),
        }
    }
}

impl Error for CompileError<'_> {}

impl From<AllocError> for CompileError<'_> {
    ghost from_gives = { λ _ e. e ≡ Wanted };

    fn from(_error: AllocError) -> Self {
        CompileError::OutOfMemory
    }
}

impl<T: Drop> From<AllocFailed<T>> for CompileError<'_> {
    ghost from_gives = { λ _ e. e ≡ Wanted };

    fn from(_error: AllocFailed<T>) -> Self {
        CompileError::OutOfMemory
    }
}

impl From<OutOfMemory> for CompileError<'_> {
    ghost from_gives = { λ _ e. e ≡ Wanted };

    fn from(_error: OutOfMemory) -> Self {
        CompileError::OutOfMemory
    }
}
