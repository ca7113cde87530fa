// What becomes of parts. The functions are generic, so that a failing part needs no code that drops an item.

ghost use Rattle.std.specs.Prelude.{Err, IfErr, IfNone, IfOk, IfSome, IsOk, OnOk, None, Ok, Some, [], ◌++◌, ◌∷◌, ◌≡◌};
ghost use Rattle.std.specs.Option.{option_to_list};

use crate::parse_error::ParseError;
use just_syntax::out_of_memory::OutOfMemory;

/// A part, if there is one.
pub(crate) fn found<'src, T: Drop>(
    part: Option<T>,
    otherwise: ParseError<'src>,
) -> Result<T, ParseError<'src>>
    ensures ok { IfOk result (λ some. part ≡ Some some) }
    ensures refused { IfErr result (λ refusal. (refusal ≡ otherwise.entry) × (part ≡ None)) }
{
    match part {
        Some(part) => Ok(part),
        None => Err(otherwise),
    }
}

/// Two parts, if the second one is in order.
pub(crate) fn paired<'src, T: Drop, U: Drop>(
    first: T,
    second: Result<U, ParseError<'src>>,
) -> Result<(T, U), ParseError<'src>>
    ensures ok { IfOk result (λ both. (both.0 ≡ first) × (second.entry ≡ Ok both.1)) }
    ensures refused { IfErr result (λ refusal. second.entry ≡ Err refusal) }
{
    match second {
        Ok(second) => Ok((first, second)),
        Err(refusal) => Err(refusal),
    }
}

/// Adds an item at the end.
pub(crate) fn pushed<'src, T: Drop>(items: &mut Vec<T>, item: T) -> Result<(), ParseError<'src>>
    ensures ok { OnOk result (items.new.items ≡ items.old.items ++ item ∷ []) }
    ensures refused { IfErr result (λ refusal. refusal ≡ ParseError.OutOfMemory) }
{
    match items.push(item) {
        Ok(()) => Ok(()),
        Err(_) => Err(ParseError::OutOfMemory),
    }
}

/// Adds an item at the end, if there is one.
pub(crate) fn pushed_some<'src, T: Drop>(
    items: &mut Vec<T>,
    item: Option<T>,
) -> Result<(), ParseError<'src>>
    ensures ok { OnOk result (items.new.items ≡ items.old.items ++ option_to_list item) }
    ensures refused { IfErr result (λ refusal. refusal ≡ ParseError.OutOfMemory) }
{
    match item {
        Some(item) => pushed(items, item),
        None => Ok(()),
    }
}

/// What was done, or `OutOfMemory`.
pub(crate) fn allocated<'src>(done: Result<(), OutOfMemory>) -> Result<(), ParseError<'src>>
    ensures ok { OnOk result (IsOk done) }
    ensures refused { IfErr result (λ refusal. refusal ≡ ParseError.OutOfMemory) }
{
    match done {
        Ok(()) => Ok(()),
        Err(_) => Err(ParseError::OutOfMemory),
    }
}
