// Braces of format strings.

ghost use Rattle.std.specs.Prelude.{IfOk, string_bytes, ◌≡◌};
ghost use Rattle.just_expression_parser.specs.Literal as spec;

use just_syntax::out_of_memory::OutOfMemory;
use std::alloc::Global;

/// The text with `{{` for each `{{{{`, leftmost first.
///
/// # Errors
///
/// `OutOfMemory`, if an allocation fails: nothing is created.
pub(crate) fn braces(alloc: Global, text: &str) -> Result<String, OutOfMemory>
    ensures { IfOk result (λ t. string_bytes t ≡ spec.braces 0 text.now) }
{
    let mut all = String::with_capacity(alloc, text.len())?;
    let mut rest = text;
    while let Some((before, after)) = rest.split_once("{{{{") {
        all.push_str(before)?;
        all.push_str("{{")?;
        rest = after;
    }
    all.push_str(rest)?;
    Ok(all)
}
