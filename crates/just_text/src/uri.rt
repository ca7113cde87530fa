// Texts escaped for URIs.

ghost use Rattle.std.specs.Prelude.{IfOk, string_bytes, ◌≡◌};
ghost use Rattle.just_text.specs.Prelude.{EscapesReserved, encoded};

use just_syntax::out_of_memory::OutOfMemory;
use percent_encoding::{AsciiSet, NON_ALPHANUMERIC, utf8_percent_encode};
use std::alloc::Global;

/// The text with each byte of its UTF-8 as `%` and two upper-case hexadecimal digits, except ASCII letters, digits and
/// `-` `_` `.` `!` `~` `*` `'` `(` `)`. Upstream's `encode_uri_component`.
///
/// # Errors
///
/// `OutOfMemory`, if an allocation fails: nothing is created.
pub fn encode_uri_component(alloc: Global, text: &str) -> Result<String, OutOfMemory>
    ensures { IfOk result (λ t. string_bytes t ≡ encoded text.now) }
{
    let mut encoded = String::new(alloc);
    utf8_percent_encode(text, reserved()).append_to(&mut encoded)?;
    Ok(encoded)
}

// The ASCII bytes that are escaped.
fn reserved() -> AsciiSet
    ensures { EscapesReserved result }
{
    NON_ALPHANUMERIC
        .remove(b'-')
        .remove(b'_')
        .remove(b'.')
        .remove(b'!')
        .remove(b'~')
        .remove(b'*')
        .remove(b'\'')
        .remove(b'(')
        .remove(b')')
}
