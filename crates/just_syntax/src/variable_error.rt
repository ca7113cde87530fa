// Errors of looking variables up by name.

ghost use Rattle.std.specs.Prelude.{◌≡◌};
ghost use Rattle.just_syntax.specs.Prelude.{Wanted};

use crate::out_of_memory::OutOfMemory;
use crate::unstyled::write_unstyled;
use std::alloc::{AllocError, AllocFailed};
use std::error::Error;
use std::fmt;

/// Why names do not resolve to variables.
#[derive(Clone, Copy, Debug, PartialEq, Eq)]
pub enum VariableError<'name> {
    /// No assignment has this name.
    Unknown(&'name str),
    /// An allocation failed.
    OutOfMemory,
}

impl fmt::Display for VariableError<'_> {
    ghost use Rattle.std.specs.Prelude.{Some};
    ghost use Rattle.just_syntax.specs.Variables.{variable_error_text};
    ghost use Rattle.just_syntax.specs.View.{unknown_name};

    ghost output = { λ error. Some (variable_error_text (unknown_name error)) };

    ghost styled_output = { λ error _. Some (variable_error_text (unknown_name error)) };

    fn fmt<W: fmt::Write>(&self, f: &mut fmt::Formatter<W>) -> fmt::Result {
        match self {
            VariableError::Unknown(name) => {
                write_unstyled(f, format_args!("variable `{name}` is not assigned"))
            }
            VariableError::OutOfMemory => write_unstyled(f, OutOfMemory),
        }
    }
}

impl Error for VariableError<'_> {}

impl From<AllocError> for VariableError<'_> {
    ghost from_gives = { λ _ e. e ≡ Wanted };

    fn from(_error: AllocError) -> Self {
        VariableError::OutOfMemory
    }
}

impl<T: Drop> From<AllocFailed<T>> for VariableError<'_> {
    ghost from_gives = { λ _ e. e ≡ Wanted };

    fn from(_error: AllocFailed<T>) -> Self {
        VariableError::OutOfMemory
    }
}

impl From<OutOfMemory> for VariableError<'_> {
    ghost from_gives = { λ _ e. e ≡ Wanted };

    fn from(_error: OutOfMemory) -> Self {
        VariableError::OutOfMemory
    }
}
