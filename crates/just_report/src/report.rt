// Reports of errors.

ghost use Rattle.std.specs.Prelude.{IfOk, IfSome, OnOk, string_bytes, ◌++◌, ◌≡◌};
ghost use Rattle.just_report.specs.Report.{line_at, mark_line, marks, numbered_source_line, place_line, report};
ghost use Rattle.just_report.specs.Report.{report_in_line, source_lines};
ghost use Rattle.just_syntax.specs.View.{token_view};

use crate::columns::push_repeated;
use crate::pointer::push_pointer;
use crate::shown::push_shown;
use just_syntax::out_of_memory::OutOfMemory;
use just_syntax::token::Token;
use std::alloc::Global;
use std::fmt;

/// The report of an error: what it displays; the path, line and column of a token, both counted from 1; and the line of
/// the source with marks under the token. For example:
///
/// ```text
/// error: function `blake3` is left out
///  ——▶ justfile:1:9
///   │
/// 1 │ hash := blake3("x")
///   │         ^^^^^^
/// ```
///
/// The column counts bytes, as a token does. A tab is shown as four spaces, and no other control character is shown. A
/// wide character has two marks. A token without a text has the marks of the character at its place, and one past the
/// end of its line has one mark. A line past the end of the source is shown as an empty one. The report ends with a
/// newline. The layout follows upstream's reports, without colours.
///
/// It looks for the line from the start of the source. [`report_in_line`] is for a caller that has the line.
///
/// # Errors
///
/// `OutOfMemory`, if an allocation fails: nothing is created.
pub fn report<E: fmt::Display>(
    alloc: Global,
    error: &E,
    token: &Token,
    source: &str,
) -> Result<String, OutOfMemory>
    ensures { IfOk result (λ text. IfSome (E.output error.now)
        (λ message. string_bytes text ≡ report message (token_view token.now) source.now)) }
{
    report_in_line(alloc, error, token, line_at(source, token.line))
}

/// The report of an error as [`report`] writes it, from the line of the source that has the token. It takes as long as
/// the line is, so reports of many errors take linear time.
///
/// # Errors
///
/// `OutOfMemory`, if an allocation fails: nothing is created.
pub fn report_in_line<E: fmt::Display>(
    alloc: Global,
    error: &E,
    token: &Token,
    line: &str,
) -> Result<String, OutOfMemory>
    ensures { IfOk result (λ text. IfSome (E.output error.now)
        (λ message. string_bytes text ≡ report_in_line message (token_view token.now) line.now)) }
{
    let row = token.line.saturating_add(1);
    let number = format!(in alloc; "{row}")?;
    let mut text = format!(in alloc; "error: {error}\n")?;
    push_place(&mut text, &number, token)?;
    push_source(&mut text, &number, line)?;
    push_mark_line(&mut text, &number, token, line)?;
    Ok(text)
}

// A line of a source by its number, counted from 0; no text after the last line.
fn line_at(source: &str, number: usize) -> &str
    ensures { result.now ≡ line_at number source.now }
{
    source.lines().nth(number).unwrap_or("")
}

// Adds the line that has the place of a token.
fn push_place(text: &mut String, number: &str, token: &Token) -> Result<(), OutOfMemory>
    ensures { OnOk result (string_bytes text.new ≡ string_bytes text.old ++ place_line number.now
        (token_view token.now)) }
{
    let path = token.path;
    let column = token.column.saturating_add(1);
    push_repeated(text, ' ', number.len())?;
    Ok(write!(text, "——▶ {path}:{number}:{column}\n")?)
}

// Adds an empty line, and the line of the source.
fn push_source(text: &mut String, number: &str, line: &str) -> Result<(), OutOfMemory>
    ensures { OnOk result (string_bytes text.new ≡ string_bytes text.old ++ source_lines number.now line.now) }
{
    push_repeated(text, ' ', number.len())?;
    text.push_str(" │\n")?;
    push_numbered(text, number, line)
}

// Adds a line of the source after its number.
fn push_numbered(text: &mut String, number: &str, line: &str) -> Result<(), OutOfMemory>
    ensures { OnOk result (string_bytes text.new ≡ string_bytes text.old ++ numbered_source_line number.now line.now) }
{
    write!(text, "{number} │ ")?;
    push_shown(text, line)?;
    Ok(text.push('\n')?)
}

// Adds the line that has the marks under a token.
fn push_mark_line(
    text: &mut String,
    number: &str,
    token: &Token,
    line: &str,
) -> Result<(), OutOfMemory>
    ensures { OnOk result (string_bytes text.new ≡ string_bytes text.old ++ mark_line number.now (token_view token.now)
        line.now) }
{
    push_repeated(text, ' ', number.len())?;
    text.push_str(" │ ")?;
    push_marks(text, line, token)?;
    Ok(text.push('\n')?)
}

// Adds the marks under a token.
fn push_marks(text: &mut String, line: &str, token: &Token) -> Result<(), OutOfMemory>
    ensures { OnOk result (string_bytes text.new ≡ string_bytes text.old ++ marks (token_view token.now) line.now) }
{
    push_pointer(text, line, token.column, token.lexeme.len().max(1))?;
    if line.len() <= token.column {
        text.push('^')?;
    }
    Ok(())
}
