// Why a call of a built-in function returned no value.

ghost use Rattle.std.specs.Prelude.{◌≡◌};
ghost use Rattle.just_builtins.specs.Prelude.{Wanted};

use just_syntax::out_of_memory::OutOfMemory;
use just_syntax::unstyled::write_unstyled;
use std::alloc::{AllocError, AllocFailed};
use std::error::Error;
use std::fmt;

/// Why a call of a built-in function returned no value.
#[derive(Debug, Drop)]
pub enum CallFault {
    /// The tag does not belong to the shape. This never happens for a function from `get`.
    Internal,
    /// The function's own message.
    Message(String),
    /// An allocation failed, or a host reported that one did.
    OutOfMemory,
}

/// Writes the message, `out of memory`, or `function has no such shape`.
impl fmt::Display for CallFault {
    ghost use Rattle.std.specs.Prelude.{Some};
    ghost use Rattle.just_builtins.specs.Said.{call_fault_text};

    ghost output = { λ fault. Some (call_fault_text fault) };

    ghost styled_output = { λ fault _. Some (call_fault_text fault) };

    fn fmt<W: fmt::Write>(&self, f: &mut fmt::Formatter<W>) -> fmt::Result {
        match self {
            CallFault::Internal => f.write_str("function has no such shape"),
            CallFault::Message(message) => f.write_str(message),
            CallFault::OutOfMemory => write_unstyled(f, OutOfMemory),
        }
    }
}

impl Error for CallFault {}

impl From<AllocError> for CallFault {
    ghost from_gives = { λ _ e. e ≡ Wanted };

    fn from(_error: AllocError) -> Self {
        CallFault::OutOfMemory
    }
}

impl<T: Drop> From<AllocFailed<T>> for CallFault {
    ghost from_gives = { λ _ e. e ≡ Wanted };

    fn from(_error: AllocFailed<T>) -> Self {
        CallFault::OutOfMemory
    }
}

impl From<OutOfMemory> for CallFault {
    ghost from_gives = { λ _ e. e ≡ Wanted };

    fn from(_error: OutOfMemory) -> Self {
        CallFault::OutOfMemory
    }
}
