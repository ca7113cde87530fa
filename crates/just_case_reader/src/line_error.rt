// Why a line failed.

ghost use Rattle.std.specs.Prelude.{◌≡◌};
ghost use Rattle.just_case_reader.specs.Prelude.{Wanted};

use just_syntax::out_of_memory::OutOfMemory;
use just_syntax::unstyled::write_unstyled;
use std::alloc::{AllocError, AllocFailed};
use std::error::Error;
use std::fmt;

/// Why a line failed.
#[derive(Debug, Drop)]
pub enum LineError {
    /// It does not fit the lines before it.
    Bad,
    /// An allocation failed, or an expression nests too deeply for the stack.
    OutOfMemory,
}

/// Writes `bad line`, or `out of memory`.
impl fmt::Display for LineError {
    ghost use Rattle.std.specs.Prelude.{Some};
    ghost use Rattle.just_case_reader.specs.Said.{line_error_text};

    ghost output = { λ error. Some (line_error_text error) };

    ghost styled_output = { λ error _. Some (line_error_text error) };

    fn fmt<W: fmt::Write>(&self, f: &mut fmt::Formatter<W>) -> fmt::Result {
        match self {
            LineError::Bad => f.write_str("bad line"),
            LineError::OutOfMemory => write_unstyled(f, OutOfMemory),
        }
    }
}

impl Error for LineError {}

impl From<OutOfMemory> for LineError {
    ghost from_gives = { λ _ e. e ≡ Wanted };

    fn from(_error: OutOfMemory) -> Self {
        LineError::OutOfMemory
    }
}

impl From<AllocError> for LineError {
    ghost from_gives = { λ _ e. e ≡ Wanted };

    fn from(_error: AllocError) -> Self {
        LineError::OutOfMemory
    }
}

impl<T: Drop> From<AllocFailed<T>> for LineError {
    ghost from_gives = { λ _ e. e ≡ Wanted };

    fn from(_error: AllocFailed<T>) -> Self {
        LineError::OutOfMemory
    }
}
