// What becomes of parts when a step fails. The functions are generic, so that no caller drops syntax after a failure.

ghost use Rattle.std.specs.Prelude.{Err, IfErr, IfOk, IsOk, OnOk, [], ◌++◌, ◌∷◌, ◌≡◌};

use crate::out_of_memory::OutOfMemory;

/// Adds a part at the end of a list.
///
/// # Errors
///
/// `OutOfMemory`, if an allocation fails: the list is unchanged, and the part is dropped.
pub fn push<T: Drop>(parts: &mut Vec<T>, part: T) -> Result<(), OutOfMemory>
    ensures ok { OnOk result (parts.new.items ≡ parts.old.items ++ part ∷ []) }
    ensures err { IfErr result (λ _. parts.new.items ≡ parts.old.items) }
{
    match parts.push(part) {
        Ok(()) => Ok(()),
        Err(_) => Err(OutOfMemory),
    }
}

/// A part, if what follows it succeeded. It is `end.and(Ok(part))`, with a clause for each of the two outcomes.
///
/// # Errors
///
/// The error of what follows the part, which is dropped.
pub fn followed<T: Drop, E: Drop>(part: T, end: Result<(), E>) -> Result<T, E>
    ensures ok { IfOk result (λ kept. (kept ≡ part) × IsOk end) }
    ensures err { IfErr result (λ error. end ≡ Err error) }
{
    match end {
        Ok(()) => Ok(part),
        Err(error) => Err(error),
    }
}
