// Values with an affix added to each element.

ghost use Rattle.std.specs.Prelude.{IfOk, [], ◌++◌, ◌∷◌, ◌≡◌};
ghost use Rattle.just_builtins.specs.Prelude.{each, joined, words};

use just_syntax::out_of_memory::OutOfMemory;
use just_syntax::text::Text;
use just_text::{affix, join_list, split};
use just_value::value::Value;
use std::alloc::Global;

/// The value with a text appended to each element; without lists, to each word of the joined elements, which are joined
/// by spaces again.
pub fn append(alloc: Global, lists: bool, suffix: &str, value: &Value) -> Result<Value, OutOfMemory>
    ensures { IfOk result (λ v. v ≡ each lists (λ text. text ++ suffix.now) value.now) }
{
    if lists {
        let texts = affix::append(alloc, suffix, value.elements())?;
        return Ok(Value::from_elements(texts));
    }
    let words = words_of(alloc, value)?;
    let texts = affix::append(alloc, suffix, &words)?;
    spaced(alloc, &texts)
}

/// The value with a text prepended to each element; without lists, to each word of the joined elements, which are
/// joined by spaces again.
pub fn prepend(
    alloc: Global,
    lists: bool,
    prefix: &str,
    value: &Value,
) -> Result<Value, OutOfMemory>
    ensures { IfOk result (λ v. v ≡ each lists (λ text. prefix.now ++ text) value.now) }
{
    if lists {
        let texts = affix::prepend(alloc, prefix, value.elements())?;
        return Ok(Value::from_elements(texts));
    }
    let words = words_of(alloc, value)?;
    let texts = affix::prepend(alloc, prefix, &words)?;
    spaced(alloc, &texts)
}

// The words of the joined elements.
fn words_of(alloc: Global, value: &Value) -> Result<Vec<Text>, OutOfMemory>
    ensures { IfOk result (λ v. v.items ≡ words (joined value.now)) }
{
    let text = value.join(alloc)?;
    split::split_whitespace(alloc, &text)
}

// One element: the texts, joined by spaces.
fn spaced(alloc: Global, texts: &[Text]) -> Result<Value, OutOfMemory>
    ensures { IfOk result (λ v. v ≡ joined texts.now ∷ []) }
{
    let text = join_list::join_list(alloc, texts, " ")?;
    Value::from_string(alloc, text)
}
