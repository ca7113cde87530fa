// The text after the word of a line.

ghost use Rattle.std.specs.Prelude.{IfOk, None, Some, [], map, option_map, position, ◌==◌, ◌≡◌};
ghost use Rattle.std.specs.List.{list_all};
ghost use Rattle.just_syntax.specs.NameBytes.{is_name_part, is_name_start};
ghost use Rattle.just_case_reader.specs.Prelude.{if_names, is_name, names, number, spaced_pieces};
ghost use Rattle.just_case_reader.specs.Prelude.{rest_of, word_of};

use just_syntax::out_of_memory::OutOfMemory;
use std::alloc::Global;

/// The greatest number that a case may contain.
pub(crate) const LARGEST: u16 = 1000;

// The greatest number of digits that a number may have.
const MOST_DIGITS: usize = 4;

/// Whether a text is a name: an ASCII letter or `_`, and then letters, digits, `_` and `-`.
pub(crate) fn is_name(text: &str) -> bool
    ensures { result ≡ is_name text.now }
{
    match text.as_bytes().split_first() {
        Some((first, rest)) => is_name_start(*first) && are_name_parts(rest),
        None => false,
    }
}

// Whether each byte may occur after the first byte of a name.
fn are_name_parts(bytes: &[u8]) -> bool
    ensures { result ≡ list_all is_name_part bytes.now }
{
    bytes.iter().all(|byte| is_name_part(*byte))
}

// Whether a byte may be the first byte of a name.
fn is_name_start(byte: u8) -> bool
    ensures { result ≡ is_name_start byte }
{
    byte == b'_' || byte.is_ascii_alphabetic()
}

// Whether a byte may occur after the first byte of a name.
fn is_name_part(byte: u8) -> bool
    ensures { result ≡ is_name_part byte }
{
    byte == b'-' || byte.is_ascii_digit() || is_name_start(byte)
}

/// The number given by one to four digits, if it is at most 1000.
pub(crate) fn parse_number(text: &str) -> Option<u16>
    ensures { result ≡ number text.now }
{
    let digits = text.as_bytes();
    if digits.is_empty() || digits.len() > MOST_DIGITS {
        return None;
    }
    let mut number = 0u16;
    for digit in digits {
        if !digit.is_ascii_digit() {
            return None;
        }
        number = 10 * number + u16::from(*digit - b'0');
    }
    if number <= LARGEST {
        Some(number)
    } else {
        None
    }
}

/// The texts before and after the first space. Without a space the second is empty.
pub(crate) fn split_word(text: &str) -> (&str, &str)
    ensures word { result.0.now ≡ word_of text.now }
    ensures rest { result.1.now ≡ rest_of text.now }
{
    match space_place(text.as_bytes()) {
        Some(end) => (&text[..end], &text[end + 1..]),
        None => (text, ""),
    }
}

// The index of the first space. Each line is split once or twice, and searching bytes is faster than searching
// characters.
fn space_place(bytes: &[u8]) -> Option<usize>
    ensures { result ≡ position (λ byte. byte == 32) bytes.now }
{
    bytes.iter().position(|byte| *byte == b' ')
}

/// The names in a text, separated by single spaces, if it contains nothing else. The empty text has none.
///
/// # Errors
///
/// `OutOfMemory`, if an allocation fails.
pub fn parse_names<'case>(
    alloc: Global,
    text: &'case str,
) -> Result<Option<Vec<&'case str>>, OutOfMemory>
    ensures { IfOk result (λ found. option_map (λ list. map (λ name. name.now) list.items) found ≡ names text.now) }
{
    if text.is_empty() {
        return Ok(Some(Vec::new(alloc)));
    }
    parse_pieces(alloc, text)
}

// The pieces between spaces, if each is a name.
fn parse_pieces<'case>(
    alloc: Global,
    text: &'case str,
) -> Result<Option<Vec<&'case str>>, OutOfMemory>
    ensures { IfOk result (λ found. option_map (λ list. map (λ name. name.now) list.items) found
        ≡ if_names (spaced_pieces text.now)) }
{
    let mut names = Vec::new(alloc);
    let mut rest = text;
    while let Some((name, after)) = rest.split_once(' ') {
        if !is_name(name) {
            return Ok(None);
        }
        names.push(name)?;
        rest = after;
    }
    if !is_name(rest) {
        return Ok(None);
    }
    names.push(rest)?;
    Ok(Some(names))
}
