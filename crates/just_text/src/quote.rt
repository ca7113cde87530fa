// Texts quoted for a shell.

ghost use Rattle.std.specs.Prelude.{IfOk, string_bytes, ◌≡◌};
ghost use Rattle.just_text.specs.Prelude.{single_quoted};

use crate::replace::push_substituted;
use just_syntax::out_of_memory::OutOfMemory;
use std::alloc::Global;

/// The text between single quotes, with each `'` in it written `'\''`. Upstream's `quote`.
///
/// # Errors
///
/// `OutOfMemory`, if an allocation fails: nothing is created.
pub fn quote(alloc: Global, text: &str) -> Result<String, OutOfMemory>
    ensures { IfOk result (λ quoted. string_bytes quoted ≡ single_quoted text.now) }
{
    let mut quoted = String::with_capacity(alloc, text.len().saturating_add(2))?;
    quoted.push('\'')?;
    push_substituted(&mut quoted, text, b'\'', "'\\''")?;
    quoted.push('\'')?;
    Ok(quoted)
}
