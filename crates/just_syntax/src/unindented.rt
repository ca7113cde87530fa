// Texts without the indentation that their lines share.

ghost use Rattle.std.specs.Prelude.{IfNone, IfOk, IfSome, None, [], false, length, option_copied, string_bytes, ◌<◌};
ghost use Rattle.std.specs.Prelude.{◌==◌, ◌||◌, ◌∷◌, ◌≡◌, ◌≤◌};
ghost use Rattle.just_syntax.specs.Unindented as spec;

use crate::out_of_memory::OutOfMemory;
use std::alloc::Global;

/// The text without the leading spaces and tabs that all its lines share. Lines of only spaces, tabs and returns do not
/// count: such a line becomes empty if it is the first or the last, otherwise a single newline. Upstream's `unindent`.
///
/// # Errors
///
/// `OutOfMemory`, if an allocation fails: nothing is created.
pub fn unindent(alloc: Global, text: &str) -> Result<String, OutOfMemory>
    ensures { IfOk result (λ t. string_bytes t ≡ spec.unindented text.now) }
{
    let width = common_width(text);
    let mut all = String::new(alloc);
    let mut rest = text;
    let mut is_first = true;
    while let Some((line, after)) = split_first_line(rest) {
        all.push_str(unindented_line(line, width, is_first, after.is_empty()))?;
        is_first = false;
        rest = after;
    }
    Ok(all)
}

// The first line with its newline, and the text after it.
fn split_first_line(text: &str) -> Option<(&str, &str)>
    ensures none { IfNone result (text.now ≡ []) }
    ensures cut { IfSome result (λ x. spec.lines text.now ≡ x.0.now ∷ spec.lines x.1.now) }
    ensures shorter { IfSome result (λ x. length x.1.now < length text.now) }
{
    if text.is_empty() {
        return None;
    }
    match text.find('\n') {
        Some(end) => Some(text.split_at(end + 1)),
        None => Some((text, "")),
    }
}

// The length in bytes of the indentation that all lines share, not counting blank ones.
fn common_width(text: &str) -> usize
    ensures { result ≡ spec.width (spec.common_indentation None (spec.lines text.now)) }
{
    let mut common = None;
    let mut rest = text;
    while let Some((line, after)) = split_first_line(rest) {
        common = common_with(common, line.as_bytes());
        rest = after;
    }
    match common {
        Some(indentation) => indentation.len(),
        None => 0,
    }
}

// The common indentation of the lines so far and one more.
fn common_with<'a>(common: Option<&'a [u8]>, line: &'a [u8]) -> Option<&'a [u8]>
    ensures { option_copied result ≡ spec.with_line (option_copied common.entry) line.now }
{
    if is_blank(line) {
        return common;
    }
    match common {
        Some(so_far) => Some(common_start(so_far, indentation(line))),
        None => Some(indentation(line)),
    }
}

// A line without the common indentation; a blank one becomes a newline, or nothing if it is the first or the last.
fn unindented_line(line: &str, width: usize, is_first: bool, is_last: bool) -> &str
    requires { spec.is_blank line.now ≡ false → width ≤ length (spec.indentation line.now) }
    ensures { result.now ≡ spec.unindented_line width is_first is_last line.now }
{
    if !is_blank(line.as_bytes()) {
        &line[width..]
    } else if is_first || is_last {
        ""
    } else {
        "\n"
    }
}

// Whether a line holds only spaces, tabs, returns and newlines.
fn is_blank(line: &[u8]) -> bool
    ensures { result ≡ spec.is_blank line.now }
{
    line.iter()
        .all(|byte| is_gap(*byte) || *byte == b'\r' || *byte == b'\n')
}

// Whether a byte is a space or a tab.
fn is_gap(byte: u8) -> bool
    ensures { result ≡ spec.is_gap byte }
{
    byte == b' ' || byte == b'\t'
}

// The leading spaces and tabs of a line.
fn indentation(line: &[u8]) -> &[u8]
    ensures { result.now ≡ spec.indentation line.now }
{
    for i in 0..line.len() {
        if !is_gap(line[i]) {
            return &line[..i];
        }
    }
    line
}

// The longest common prefix of two texts.
fn common_start<'a>(left: &'a [u8], right: &[u8]) -> &'a [u8]
    ensures { result.now ≡ spec.common_start left.now right.now }
{
    let end = left.len().min(right.len());
    for i in 0..end {
        if left[i] != right[i] {
            return &left[..i];
        }
    }
    &left[..end]
}
