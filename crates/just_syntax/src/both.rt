// Copies of two values.

ghost use Rattle.std.specs.Prelude.{IfOk};

use std::alloc::AllocError;

// Copies of two values. The function is generic, so that a failure needs no code that drops an expression.
pub(crate) fn both<T: Clone + Drop>(first: &T, second: &T) -> Result<(T, T), AllocError>
    ensures first { IfOk result (λ copies. T.is_clone first.now copies.0) }
    ensures second { IfOk result (λ copies. T.is_clone second.now copies.1) }
{
    let first = first.clone()?;
    let second = second.clone()?;
    Ok((first, second))
}
