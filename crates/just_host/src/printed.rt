// Printing of questions.

ghost use Rattle.std.specs.Prelude.{map, option_map, string_bytes, ◌++◌};
ghost use Rattle.std.specs.Fmt.{WritesStyledOnOk};
ghost use Rattle.just_host.specs.Prelude.{command_printed, spaced, spaced_given, text_printed};
ghost use Rattle.just_value.specs.Prelude.{quoted};

use crate::recorded::TextKind;
use just_syntax::unstyled::write_unstyled;
use just_value::element::Element;
use std::fmt;
use std::fmt::Display;

// A command and its arguments, if it takes any.
#[tactic(auto, using(just_syntax::proofs::Styled::styled_steps))]
pub(crate) fn write_command<W: fmt::Write>(
    f: &mut fmt::Formatter<W>,
    command: &str,
    arguments: Option<&[String]>,
) -> fmt::Result
    ensures { WritesStyledOnOk W.write_str_gives f.old result
        (command_printed command.now (option_map (λ words. map string_bytes words.now) arguments.entry)) f.new }
{
    write_about(f, "command ", command)?;
    write_given(f, arguments)
}

// Words, and then a text in quotes.
#[tactic(auto, using(just_syntax::proofs::Styled::styled_steps))]
fn write_about<W: fmt::Write>(f: &mut fmt::Formatter<W>, words: &str, text: &str) -> fmt::Result
    ensures { WritesStyledOnOk W.write_str_gives f.old result (words.now ++ quoted text.now) f.new }
{
    f.write_str(words)?;
    Element(text).fmt(f)
}

// An optional list of texts in quotes, each after a space.
fn write_given<W: fmt::Write>(f: &mut fmt::Formatter<W>, texts: Option<&[String]>) -> fmt::Result
    ensures { WritesStyledOnOk W.write_str_gives f.old result
        (spaced_given (option_map (λ words. map string_bytes words.now) texts.entry)) f.new }
{
    match texts {
        Some(texts) => write_spaced(f, texts),
        None => Ok(()),
    }
}

// Texts in quotes, each after a space.
pub(crate) fn write_spaced<W: fmt::Write>(
    f: &mut fmt::Formatter<W>,
    texts: &[String],
) -> fmt::Result
    ensures { WritesStyledOnOk W.write_str_gives f.old result (spaced (map string_bytes texts.now)) f.new }
{
    for text in texts {
        write_about(f, " ", text)?;
    }
    Ok(())
}

// A question for a text, by its kind and its subject.
pub(crate) fn write_text_question<W: fmt::Write>(
    f: &mut fmt::Formatter<W>,
    kind: TextKind,
    about: &str,
) -> fmt::Result
    ensures { WritesStyledOnOk W.write_str_gives f.old result (text_printed kind about.now) f.new }
{
    match kind {
        TextKind::Variable => write_about(f, "variable ", about),
        TextKind::Directory(directory) => {
            write_unstyled(f, format_args!("directory {directory}"))
        }
        TextKind::Canonicalize => write_about(f, "canonicalize ", about),
        TextKind::Read => write_about(f, "read ", about),
        TextKind::Which => write_about(f, "which ", about),
        TextKind::Executable => f.write_str("executable"),
        TextKind::Arch => f.write_str("arch"),
        TextKind::Os => f.write_str("os"),
        TextKind::OsFamily => f.write_str("os_family"),
    }
}
