// What becomes of a failed allocation.

ghost use Rattle.std.specs.Prelude.{IfErr, IsOk, OnOk, ◌≡◌};

use crate::analysis_error::AnalysisError;
use just_syntax::out_of_memory::OutOfMemory;

/// What was done, or `OutOfMemory`.
pub(crate) fn allocated<'src>(done: Result<(), OutOfMemory>) -> Result<(), AnalysisError<'src>>
    ensures ok { OnOk result (IsOk done) }
    ensures err { IfErr result (λ error. error ≡ AnalysisError.OutOfMemory) }
{
    match done {
        Ok(()) => Ok(()),
        Err(_) => Err(AnalysisError::OutOfMemory),
    }
}
