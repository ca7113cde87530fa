// A line of source as it is shown.

ghost use Rattle.std.specs.Prelude.{OnOk, chars, string_bytes, ◌++◌, ◌≡◌};
ghost use Rattle.just_report.specs.Report.{shown_character, shown_line};

use just_syntax::out_of_memory::OutOfMemory;
use unicode_width::UnicodeWidthChar;

// Adds a line, with four spaces in place of each tab, and without other control characters.
pub(crate) fn push_shown(text: &mut String, line: &str) -> Result<(), OutOfMemory>
    ensures { OnOk result (string_bytes text.new ≡ string_bytes text.old ++ shown_line (chars line.now)) }
{
    for character in line.chars() {
        push_character(text, character)?;
    }
    Ok(())
}

// Adds a character as it is shown.
fn push_character(text: &mut String, character: char) -> Result<(), OutOfMemory>
    ensures { OnOk result (string_bytes text.new ≡ string_bytes text.old ++ shown_character character) }
{
    if character == '\t' {
        text.push_str("    ")?;
    } else if character.width().is_some() {
        text.push(character)?;
    }
    Ok(())
}
