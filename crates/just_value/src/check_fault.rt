// Why a value check failed.

ghost use Rattle.std.specs.Prelude.{◌≡◌};
ghost use Rattle.just_value.specs.declared.check_fault.CheckFault.TheVariants.{OutOfMemory as Wanted};

use just_syntax::out_of_memory::OutOfMemory;
use just_syntax::unstyled::write_unstyled;
use std::alloc::{AllocError, AllocFailed};
use std::error::Error;
use std::fmt;

/// Why a value check did not accept a value.
#[derive(Debug, Drop)]
pub enum CheckFault {
    /// It refused the value, with this message.
    Refused(String),
    /// There was no memory for it.
    OutOfMemory,
}

/// Writes the message, or `out of memory`.
impl fmt::Display for CheckFault {
    ghost use Rattle.std.specs.Prelude.{Some};
    ghost use Rattle.just_value.specs.Said.{check_text};
    ghost use Rattle.just_value.specs.View.{check_refusal};

    ghost output = { λ fault. Some (check_text (check_refusal fault)) };

    ghost styled_output = { λ fault _. Some (check_text (check_refusal fault)) };

    fn fmt<W: fmt::Write>(&self, f: &mut fmt::Formatter<W>) -> fmt::Result {
        match self {
            CheckFault::Refused(message) => f.write_str(message),
            CheckFault::OutOfMemory => write_unstyled(f, OutOfMemory),
        }
    }
}

impl Error for CheckFault {}

impl From<AllocError> for CheckFault {
    ghost from_gives = { λ _ e. e ≡ Wanted };

    fn from(_error: AllocError) -> Self {
        CheckFault::OutOfMemory
    }
}

impl<T: Drop> From<AllocFailed<T>> for CheckFault {
    ghost from_gives = { λ _ e. e ≡ Wanted };

    fn from(_error: AllocFailed<T>) -> Self {
        CheckFault::OutOfMemory
    }
}

impl From<OutOfMemory> for CheckFault {
    ghost from_gives = { λ _ e. e ≡ Wanted };

    fn from(_error: OutOfMemory) -> Self {
        CheckFault::OutOfMemory
    }
}
