// The marks under a token.

ghost use Rattle.std.specs.Prelude.{OnOk, chars, string_bytes, ◌++◌, ◌≡◌};
ghost use Rattle.just_report.specs.Report.{pointer};

use crate::columns::{columns, push_repeated};
use just_syntax::out_of_memory::OutOfMemory;

// Adds a space for each column of the characters that begin in the first `start` bytes of a line, and a `^` for each
// column of those that begin in the next `length` bytes.
pub(crate) fn push_pointer(
    text: &mut String,
    line: &str,
    start: usize,
    length: usize,
) -> Result<(), OutOfMemory>
    ensures { OnOk result (string_bytes text.new ≡ string_bytes text.old ++ pointer start length (chars line.now)) }
{
    let mut before = start;
    let mut left = length;
    for character in line.chars() {
        if before > 0 {
            push_repeated(text, ' ', columns(character))?;
            before = before.saturating_sub(character.len_utf8());
        } else if left > 0 {
            push_repeated(text, '^', columns(character))?;
            left = left.saturating_sub(character.len_utf8());
        }
    }
    Ok(())
}
