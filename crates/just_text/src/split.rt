// Texts split into pieces.

ghost use Rattle.std.specs.Prelude.{IfOk, IsAscii, length, not, slice_index, ℕ, ◌<◌, ◌==◌};
ghost use Rattle.std.specs.Prelude.{◌≡◌, ◌≤◌};
ghost use Rattle.std.specs.Char.{is_whitespace};
ghost use Rattle.std.specs.List.{slice_split};
ghost use Rattle.just_text.specs.Split as spec;

use crate::replace::{only_byte, place_of};
use just_syntax::out_of_memory::OutOfMemory;
use just_syntax::text::Text;
use std::alloc::Global;

/// The pieces between characters of the property White_Space that are not empty, in order. Upstream's `split` without a
/// separator.
///
/// # Errors
///
/// `OutOfMemory`, if an allocation fails: nothing is created.
pub fn split_whitespace(alloc: Global, text: &str) -> Result<Vec<Text>, OutOfMemory>
    ensures { IfOk result (λ v. v.items ≡ spec.words text.now) }
{
    if text.is_ascii() {
        return ascii_words(alloc, text);
    }
    let mut words = Vec::new(alloc);
    for word in text.split_whitespace() {
        words.push(Text::from_str(alloc, word)?)?;
    }
    Ok(words)
}

// The words of an ASCII text, found byte by byte.
fn ascii_words(alloc: Global, text: &str) -> Result<Vec<Text>, OutOfMemory>
    requires { IsAscii text.now }
    ensures { IfOk result (λ v. v.items ≡ spec.words text.now) }
{
    let bytes = text.as_bytes();
    let mut words = Vec::new(alloc);
    let mut start = white_or_not(bytes, false, 0);
    while start < bytes.len() {
        let end = white_or_not(bytes, true, start);
        words.push(Text::from_str(alloc, &text[start..end])?)?;
        start = white_or_not(bytes, false, end);
    }
    Ok(words)
}

// The first index from `from` on at which an ASCII character is white space, or is not; the length if there is none.
#[inline(always)]
fn white_or_not(bytes: &[u8], white: bool, from: usize) -> usize
    requires start { from ≤ length bytes.now }
    requires ascii { IsAscii bytes.now }
    ensures low { from ≤ result }
    ensures high { result ≤ length bytes.now }
    ensures lacks { (k : ℕ) → from ≤ k → k < result → is_whitespace (slice_index bytes.now k) ≡ not white }
    ensures found { result < length bytes.now → is_whitespace (slice_index bytes.now result) ≡ white }
{
    for at in from..bytes.len() {
        if is_white(bytes[at]) == white {
            return at;
        }
    }
    bytes.len()
}

// Whether an ASCII character is white space.
fn is_white(byte: u8) -> bool
    requires { byte < 128 }
    ensures { result ≡ is_whitespace byte }
{
    match byte {
        33.. => false,
        _ => matches!(byte, 9..=13 | 32),
    }
}

/// The pieces between the occurrences of the separator, leftmost first and without overlaps, in order: one more than
/// there are occurrences. An empty separator gives the characters, each as a text. Upstream's `split` with a separator.
///
/// # Errors
///
/// `OutOfMemory`, if an allocation fails: nothing is created.
pub fn split(alloc: Global, text: &str, separator: &str) -> Result<Vec<Text>, OutOfMemory>
    ensures { IfOk result (λ v. v.items ≡ spec.split text.now separator.now) }
{
    if separator.is_empty() {
        characters(alloc, text)
    } else {
        pieces(alloc, text, separator)
    }
}

// The characters.
fn characters(alloc: Global, text: &str) -> Result<Vec<Text>, OutOfMemory>
    ensures { IfOk result (λ v. v.items ≡ spec.characters text.now) }
{
    let mut all = Vec::new(alloc);
    for c in text.chars() {
        let mut bytes = [0; 4];
        all.push(Text::from_str(alloc, c.encode_utf8(&mut bytes))?)?;
    }
    Ok(all)
}

// The pieces between the occurrences of a separator that is not empty.
fn pieces(alloc: Global, text: &str, separator: &str) -> Result<Vec<Text>, OutOfMemory>
    requires { 0 < length separator.now }
    ensures { IfOk result (λ v. v.items ≡ spec.pieces separator.now text.now) }
{
    if let Some(byte) = only_byte(separator) {
        return pieces_at_byte(alloc, text, byte);
    }
    let mut all = Vec::new(alloc);
    for piece in text.split(separator) {
        all.push(Text::from_str(alloc, piece)?)?;
    }
    Ok(all)
}

// The pieces between the occurrences of an ASCII byte, found byte by byte.
fn pieces_at_byte(alloc: Global, text: &str, separator: u8) -> Result<Vec<Text>, OutOfMemory>
    requires { separator < 128 }
    ensures { IfOk result (λ v. v.items ≡ slice_split (λ b. b == separator) text.now) }
{
    let bytes = text.as_bytes();
    let mut all = Vec::new(alloc);
    let mut start = 0;
    let mut at = place_of(text, separator, 0);
    while at < bytes.len() {
        all.push(Text::from_str(alloc, &text[start..at])?)?;
        start = at + 1;
        at = place_of(text, separator, start);
    }
    all.push(Text::from_str(alloc, &text[start..])?)?;
    Ok(all)
}
