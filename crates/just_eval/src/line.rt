// Text in lines of recipes.

ghost use Rattle.std.specs.Prelude.{IfOk, string_bytes, ◌≡◌};
ghost use Rattle.just_eval.specs.Prelude.{fragment_text};

use just_syntax::out_of_memory::OutOfMemory;
use just_text::replace::replace;
use std::alloc::Global;

/// Text of a line, with `{{{{` for `{{`. If it continues the line before, its leading white space is dropped.
pub(crate) fn fragment_text(
    alloc: Global,
    lexeme: &str,
    continues: bool,
) -> Result<String, OutOfMemory>
    ensures { IfOk result (λ text. string_bytes text ≡ fragment_text continues lexeme.now) }
{
    let text = replace(alloc, lexeme, "{{{{", "{{")?;
    if continues {
        Ok(String::from_str(alloc, text.trim_start())?)
    } else {
        Ok(text)
    }
}
