// Texts with a suffix or a prefix added to each.

ghost use Rattle.std.specs.Prelude.{IfOk, map, ◌++◌, ◌≡◌};

use just_syntax::out_of_memory::OutOfMemory;
use just_syntax::text::Text;
use std::alloc::Global;

/// Each text followed by the suffix, in order. Upstream's `append`, of the texts that it goes over.
///
/// # Errors
///
/// `OutOfMemory`, if an allocation fails: nothing is created.
pub fn append(alloc: Global, suffix: &str, texts: &[Text]) -> Result<Vec<Text>, OutOfMemory>
    ensures { IfOk result (λ v. v.items ≡ map (λ text. text ++ suffix.now) texts.now) }
{
    let mut all = Vec::with_capacity(alloc, texts.len())?;
    for text in texts {
        all.push(concatenated(alloc, text, suffix)?)?;
    }
    Ok(all)
}

/// Each text preceded by the prefix, in order. Upstream's `prepend`, of the texts that it goes over.
///
/// # Errors
///
/// `OutOfMemory`, if an allocation fails: nothing is created.
pub fn prepend(alloc: Global, prefix: &str, texts: &[Text]) -> Result<Vec<Text>, OutOfMemory>
    ensures { IfOk result (λ v. v.items ≡ map (λ text. prefix.now ++ text) texts.now) }
{
    let mut all = Vec::with_capacity(alloc, texts.len())?;
    for text in texts {
        all.push(concatenated(alloc, prefix, text)?)?;
    }
    Ok(all)
}

// The second text appended to the first.
fn concatenated(alloc: Global, front: &str, back: &str) -> Result<Text, OutOfMemory>
    ensures { IfOk result (λ text. text ≡ front.now ++ back.now) }
{
    let mut text = Text::with_capacity(alloc, front.len().saturating_add(back.len()))?;
    text.push_str(alloc, front)?;
    text.push_str(alloc, back)?;
    Ok(text)
}
