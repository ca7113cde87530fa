// What becomes of parts. The functions are generic, so that a failing part needs no code that drops an expression.

ghost use Rattle.std.specs.Prelude.{Err, IfErr, IfOk, IsOkAnd, IsSomeAnd, Ok, OnOk, [], ◌++◌, ◌∷◌, ◌≡◌, ◌⊎◌};

use crate::parse_error::ParseError;
use just_syntax::out_of_memory::OutOfMemory;
use just_syntax::results::followed;
use just_syntax::stack;

/// A part, or `OutOfMemory`.
pub(crate) fn allocated<'src, T: Drop>(part: Result<T, OutOfMemory>) -> Result<T, ParseError<'src>>
    ensures ok { IfOk result (λ made. part ≡ Ok made) }
    ensures refused { IfErr result (λ refusal. refusal ≡ ParseError.OutOfMemory) }
{
    match part {
        Ok(part) => Ok(part),
        Err(_) => Err(ParseError::OutOfMemory),
    }
}

/// How many forms and operators may wait. Two of them are at most five levels of an expression: a form in the left
/// operands of an operator of each level. So it has no more levels than the reader of cases makes, which can be
/// dropped.
const MOST_WAITING: usize = stack::MOST_LEVELS / 3;

/// Adds an item at the end of those that wait.
pub(crate) fn pushed<'src, T: Drop>(items: &mut Vec<T>, item: T) -> Result<(), ParseError<'src>>
    ensures ok { OnOk result (items.new.items ≡ items.old.items ++ item ∷ []) }
    ensures refused { IfErr result (λ refusal. refusal ≡ ParseError.OutOfMemory) }
{
    if items.len() >= MOST_WAITING {
        return Err(ParseError::OutOfMemory);
    }
    match items.push(item) {
        Ok(()) => Ok(()),
        Err(_) => Err(ParseError::OutOfMemory),
    }
}

/// Adds two items at the end of those that wait.
pub(crate) fn pushed_twice<'src, T: Drop>(
    items: &mut Vec<T>,
    first: T,
    second: T,
) -> Result<(), ParseError<'src>>
    ensures ok { OnOk result (items.new.items ≡ (items.old.items ++ first ∷ []) ++ second ∷ []) }
    ensures refused { IfErr result (λ refusal. refusal ≡ ParseError.OutOfMemory) }
{
    match followed(second, pushed(items, first)) {
        Ok(second) => pushed(items, second),
        Err(refusal) => Err(refusal),
    }
}

/// The items with one more.
pub(crate) fn with_item<'src, T: Drop>(
    mut items: Vec<T>,
    item: T,
) -> Result<Vec<T>, ParseError<'src>>
    ensures ok { IfOk result (λ more. more.items ≡ items.items ++ item ∷ []) }
    ensures refused { IfErr result (λ refusal. refusal ≡ ParseError.OutOfMemory) }
{
    match items.push(item) {
        Ok(()) => Ok(items),
        Err(_) => Err(ParseError::OutOfMemory),
    }
}

/// The start of a format string, and its pieces with one more, if that has its text.
pub(crate) fn with_piece<'src, S: Drop, A: Drop, B: Drop>(
    start: S,
    pieces: Vec<(A, B)>,
    value: A,
    text: Result<B, ParseError<'src>>,
) -> Result<(S, Vec<(A, B)>), ParseError<'src>>
    ensures ok { IfOk result (λ made. (made.0 ≡ start)
        × IsOkAnd text.entry (λ t. made.1.items ≡ pieces.items ++ (value, t) ∷ [])) }
    ensures refused { IfErr result (λ refusal. (refusal ≡ ParseError.OutOfMemory) ⊎ (text.entry ≡ Err refusal)) }
{
    match text {
        Ok(text) => match with_item(pieces, (value, text)) {
            Ok(pieces) => Ok((start, pieces)),
            Err(refusal) => Err(refusal),
        },
        Err(refusal) => Err(refusal),
    }
}
