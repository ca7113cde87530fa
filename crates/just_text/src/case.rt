// ASCII letters in another case.

ghost use Rattle.std.specs.Prelude.{IfOk, option_map, string_bytes, ◌≡◌};
ghost use Rattle.just_text.specs.Case as spec;

use just_syntax::out_of_memory::OutOfMemory;
use std::alloc::Global;

/// The text with its first character in upper case and all others in lower case. `None` if it contains a byte beyond
/// ASCII. Upstream's `capitalize`, which handles all letters.
///
/// # Errors
///
/// `OutOfMemory`, if an allocation fails: nothing is created.
pub fn capitalize(alloc: Global, text: &str) -> Result<Option<String>, OutOfMemory>
    ensures { IfOk result (λ answer. option_map string_bytes answer ≡ spec.capitalize text.now) }
{
    if !text.is_ascii() {
        return Ok(None);
    }
    if text.is_empty() {
        return Ok(Some(String::new(alloc)));
    }
    let mut capitalized = text[..1].to_ascii_uppercase(alloc)?;
    let rest = text[1..].to_ascii_lowercase(alloc)?;
    capitalized.push_str(&rest)?;
    Ok(Some(capitalized))
}

/// The text in lower case. `None` if it contains a byte beyond ASCII. Upstream's `lowercase`, which handles all
/// letters.
///
/// # Errors
///
/// `OutOfMemory`, if an allocation fails: nothing is created.
pub fn lowercase(alloc: Global, text: &str) -> Result<Option<String>, OutOfMemory>
    ensures { IfOk result (λ answer. option_map string_bytes answer ≡ spec.lowercase text.now) }
{
    if !text.is_ascii() {
        return Ok(None);
    }
    Ok(Some(text.to_ascii_lowercase(alloc)?))
}

/// The text in upper case. `None` if it contains a byte beyond ASCII. Upstream's `uppercase`, which handles all
/// letters.
///
/// # Errors
///
/// `OutOfMemory`, if an allocation fails: nothing is created.
pub fn uppercase(alloc: Global, text: &str) -> Result<Option<String>, OutOfMemory>
    ensures { IfOk result (λ answer. option_map string_bytes answer ≡ spec.uppercase text.now) }
{
    if !text.is_ascii() {
        return Ok(None);
    }
    Ok(Some(text.to_ascii_uppercase(alloc)?))
}
