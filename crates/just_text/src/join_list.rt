// Joined texts.

ghost use Rattle.std.specs.Prelude.{IfOk, string_bytes, ◌≡◌};
ghost use Rattle.std.specs.List.{join_by};

use crate::replace::push_short;
use just_syntax::out_of_memory::OutOfMemory;
use just_syntax::text::Text;
use std::alloc::Global;

/// The texts joined by the separator, in order. Upstream's `join_list`.
///
/// # Errors
///
/// `OutOfMemory`, if an allocation fails: nothing is created.
pub fn join_list(alloc: Global, texts: &[Text], separator: &str) -> Result<String, OutOfMemory>
    ensures { IfOk result (λ text. string_bytes text ≡ join_by (λ t. t) separator.now texts.now) }
{
    let mut joined = String::with_capacity(alloc, joined_len(texts, separator))?;
    let mut between = "";
    for text in texts {
        push_short(&mut joined, between)?;
        joined.push_str(text)?;
        between = separator;
    }
    Ok(joined)
}

// At least the length of the joined texts in bytes, or `usize::MAX`.
fn joined_len(texts: &[Text], separator: &str) -> usize {
    let mut len = separator.len().saturating_mul(texts.len());
    for text in texts {
        len = len.saturating_add(text.len());
    }
    len
}
