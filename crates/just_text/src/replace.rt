// Texts with the occurrences of a text replaced.

ghost use Rattle.std.specs.Prelude.{IfOk, IsAscii, MatchOption, OnOk, [], false, length, map, slice_index};
ghost use Rattle.std.specs.Prelude.{string_bytes, true, ℕ, ⊤, ◌++◌, ◌<◌, ◌==◌, ◌∷◌, ◌≡◌, ◌≤◌};
ghost use Rattle.std.specs.List.{flat_map, join_by};
ghost use Rattle.just_text.specs.Prelude.{exchanged, pieces, replaced, substituted};

use just_syntax::out_of_memory::OutOfMemory;
use std::alloc::Global;

/// The text with `to` instead of each occurrence of `from`, leftmost first and without overlaps. An empty `from` occurs
/// before each character and at the end. Upstream's `replace`.
///
/// # Errors
///
/// `OutOfMemory`, if an allocation fails: nothing is created.
pub fn replace(alloc: Global, text: &str, from: &str, to: &str) -> Result<String, OutOfMemory>
    ensures { IfOk result (λ t. string_bytes t ≡ replaced text.now from.now to.now) }
{
    if from.is_empty() {
        return Ok(text.replace(alloc, from, to)?);
    }
    let Some(byte) = only_byte(from) else {
        return with_text_substituted(alloc, text, from, to);
    };
    match only_byte(to) {
        Some(to) if text.is_ascii() => with_byte_replaced(alloc, text, byte, to),
        _ => with_byte_substituted(alloc, text, byte, to),
    }
}

// The text with one ASCII byte instead of another.
fn with_byte_replaced(alloc: Global, text: &str, from: u8, to: u8) -> Result<String, OutOfMemory>
    requires ascii { IsAscii text.now }
    requires substitute { to < 128 }
    ensures { IfOk result (λ t. string_bytes t ≡ map (exchanged from to) text.now) }
{
    let bytes = Vec::from_slice(alloc, text.as_bytes())?;
    match String::from_utf8(all_exchanged(bytes, from, to)) {
        Ok(text) => Ok(text),
        Err(_) => unreachable!(),
    }
}

// The bytes with one of them instead of another, in place.
fn all_exchanged(mut bytes: Vec<u8>, from: u8, to: u8) -> Vec<u8>
    ensures { result.items ≡ map (exchanged from to) bytes.items }
{
    for byte in bytes.iter_mut() {
        *byte = exchanged(from, to, *byte);
    }
    bytes
}

// A byte, or another instead of it.
fn exchanged(from: u8, to: u8, byte: u8) -> u8
    ensures { result ≡ exchanged from to byte }
{
    if byte == from { to } else { byte }
}

// The text with `to` instead of each occurrence of an ASCII byte.
fn with_byte_substituted(
    alloc: Global,
    text: &str,
    from: u8,
    to: &str,
) -> Result<String, OutOfMemory>
    requires { from < 128 }
    ensures { IfOk result (λ t. string_bytes t ≡ flat_map (substituted from to.now) text.now) }
{
    let mut replaced = String::with_capacity(alloc, text.len())?;
    push_substituted(&mut replaced, text, from, to)?;
    Ok(replaced)
}

// The text with `to` instead of each occurrence of a text that is not empty.
fn with_text_substituted(
    alloc: Global,
    text: &str,
    from: &str,
    to: &str,
) -> Result<String, OutOfMemory>
    requires { 0 < length from.now }
    ensures { IfOk result (λ t. string_bytes t ≡ join_by (λ piece. piece) to.now (pieces from.now text.now)) }
{
    let mut replaced = String::with_capacity(alloc, text.len())?;
    let mut between = "";
    for piece in text.split(from) {
        push_short(&mut replaced, between)?;
        replaced.push_str(piece)?;
        between = to;
    }
    Ok(replaced)
}

// The byte of a text of one ASCII character.
pub(crate) fn only_byte(text: &str) -> Option<u8>
    ensures { MatchOption result ⊤ (λ byte. (byte < 128) × (text.now ≡ byte ∷ [])) }
{
    let bytes = text.as_bytes();
    if bytes.len() == 1 && bytes[0] < 128 {
        return Some(bytes[0]);
    }
    None
}

// Appends a text that is likely to be one ASCII character: as a byte if it is.
pub(crate) fn push_short(out: &mut String, text: &str) -> Result<(), OutOfMemory>
    ensures { OnOk result (string_bytes out.new ≡ string_bytes out.old ++ text.now) }
{
    match only_byte(text) {
        Some(byte) => out.push(byte as char)?,
        None => out.push_str(text)?,
    }
    Ok(())
}

// Appends the text with `to` instead of each occurrence of an ASCII byte. Each run of bytes between two occurrences is
// appended in one piece.
pub(crate) fn push_substituted(
    out: &mut String,
    text: &str,
    byte: u8,
    to: &str,
) -> Result<(), OutOfMemory>
    requires { byte < 128 }
    ensures { OnOk result (string_bytes out.new ≡ string_bytes out.old
        ++ flat_map (substituted byte to.now) text.now) }
{
    let bytes = text.as_bytes();
    let mut start = 0;
    let mut at = place_of(text, byte, 0);
    while at < bytes.len() {
        out.push_str(&text[start..at])?;
        push_short(out, to)?;
        start = at + 1;
        at = place_of(text, byte, start);
    }
    out.push_str(&text[start..])?;
    Ok(())
}

// The first index from `from` on at which a byte is; the length if there is none.
pub(crate) fn place_of(text: &str, byte: u8, from: usize) -> usize
    requires { from ≤ length text.now }
    ensures low { from ≤ result }
    ensures high { result ≤ length text.now }
    ensures lacks { (k : ℕ) → from ≤ k → k < result → (slice_index text.now k == byte) ≡ false }
    ensures found { result < length text.now → (slice_index text.now result == byte) ≡ true }
{
    match memchr::memchr(byte, &text.as_bytes()[from..]) {
        Some(at) => from + at,
        None => text.len(),
    }
}
