// Conversions of allocation errors into `CommandFault`, so that a host can use `?`.

ghost use Rattle.std.specs.Prelude.{◌≡◌};
ghost use Rattle.just_value.specs.declared.error.CommandFault.TheVariants.{OutOfMemory as Wanted};

use crate::error::CommandFault;
use just_syntax::out_of_memory::OutOfMemory;
use std::alloc::{AllocError, AllocFailed};

impl From<AllocError> for CommandFault {
    ghost from_gives = { λ _ e. e ≡ Wanted };

    fn from(_error: AllocError) -> Self {
        CommandFault::OutOfMemory
    }
}

impl<T: Drop> From<AllocFailed<T>> for CommandFault {
    ghost from_gives = { λ _ e. e ≡ Wanted };

    fn from(_error: AllocFailed<T>) -> Self {
        CommandFault::OutOfMemory
    }
}

impl From<OutOfMemory> for CommandFault {
    ghost from_gives = { λ _ e. e ≡ Wanted };

    fn from(_error: OutOfMemory) -> Self {
        CommandFault::OutOfMemory
    }
}
