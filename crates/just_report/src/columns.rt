// The columns that a text takes.

ghost use Rattle.std.specs.Prelude.{OnOk, [], string_bytes, ◌++◌, ◌<◌, ◌∷◌, ◌≡◌};
ghost use Rattle.std.specs.List.{repeat};
ghost use Rattle.just_report.specs.Report.{columns};

use just_syntax::out_of_memory::OutOfMemory;
use unicode_width::UnicodeWidthChar;

// How many columns a character takes: four for a tab, none for another control character.
pub(crate) fn columns(character: char) -> usize
    ensures { result ≡ columns character }
{
    if character == '\t' {
        return 4;
    }
    character.width().unwrap_or(0)
}

// Adds an ASCII character so many times.
pub(crate) fn push_repeated(text: &mut String, mark: char, count: usize) -> Result<(), OutOfMemory>
    requires { mark < 128 }
    ensures { OnOk result (string_bytes text.new ≡ string_bytes text.old ++ repeat count (mark ∷ [])) }
{
    for done in 0..count {
        text.push(mark)?;
    }
    Ok(())
}
