// Escapes of strings, and braces of format strings.

ghost use Rattle.std.specs.Prelude.{IfNone, IfOk, IfSome, OnOk, None, Some, length, option_map, string_bytes};
ghost use Rattle.std.specs.Prelude.{ℕ, ◌++◌, ◌<◌, ◌∷◌, ◌≡◌, ◌≤◌};
ghost use Rattle.just_syntax.specs.Plain.{Text};
ghost use Rattle.just_expression_parser.specs.Literal as spec;

use just_syntax::out_of_memory::OutOfMemory;
use std::alloc::Global;

/// The text in which each escape is what it means; `None`, if one means nothing.
///
/// # Errors
///
/// `OutOfMemory`, if an allocation fails: nothing is created.
pub(crate) fn unescaped(alloc: Global, text: &str) -> Result<Option<String>, OutOfMemory>
    ensures { IfOk result (λ t. option_map string_bytes t ≡ spec.unescaped spec.NoEscape text.now) }
{
    let mut all = String::with_capacity(alloc, text.len())?;
    let mut rest = text;
    while let Some((before, after)) = rest.split_once('\\') {
        all.push_str(before)?;
        let Some((meant, next)) = escape(after) else {
            return Ok(None);
        };
        push(&mut all, meant)?;
        rest = next;
    }
    all.push_str(rest)?;
    Ok(Some(all))
}

// Appends a character, if there is one.
fn push(all: &mut String, meant: Option<char>) -> Result<(), OutOfMemory>
    ensures { OnOk result (string_bytes all.new ≡ string_bytes all.old ++ spec.meant meant) }
{
    if let Some(c) = meant {
        all.push(c)?;
    }
    Ok(())
}

// What the escape after a backslash means, and the text after it; `None`, if it means nothing.
fn escape(text: &str) -> Option<(Option<char>, &str)>
    ensures none { IfNone result (spec.unescaped spec.Backslash text.now ≡ None) }
    ensures some { IfSome result (λ x. spec.unescaped spec.Backslash text.now
        ≡ spec.after_front (spec.meant x.0) (spec.unescaped spec.NoEscape x.1.now)) }
    ensures shorter { IfSome result (λ x. length x.1.now < length text.now) }
{
    let (byte, rest) = split_byte(text)?;
    if byte == b'u' {
        let (c, rest) = unicode(rest)?;
        return Some((Some(c), rest));
    }
    let meant = meaning(byte)?;
    Some((meant, rest))
}

// The first byte, if it is a character, and the text after it.
fn split_byte(text: &str) -> Option<(u8, &str)>
    ensures none { IfNone result ((b : ℕ) (rest : Text) → text.now ≡ b ∷ rest → 128 ≤ b) }
    ensures some { IfSome result (λ x. text.now ≡ x.0 ∷ x.1.now) }
{
    let (first, rest) = text.split_at_checked(1)?;
    Some((first.as_bytes()[0], rest))
}

// The character that a byte after a backslash means; a newline means none.
fn meaning(byte: u8) -> Option<Option<char>>
    ensures { result ≡ spec.escape_meaning byte }
{
    match byte {
        b'\n' => Some(None),
        b'n' => Some(Some('\n')),
        b'r' => Some(Some('\r')),
        b't' => Some(Some('\t')),
        b'\\' => Some(Some('\\')),
        b'"' => Some(Some('"')),
        _ => None,
    }
}

// The character of the escape after `\u`, and the text after it; `None`, if it means nothing.
fn unicode(text: &str) -> Option<(char, &str)>
    ensures none { IfNone result (spec.unescaped spec.Unicode text.now ≡ None) }
    ensures some { IfSome result (λ x. spec.unescaped spec.Unicode text.now
        ≡ spec.after_front (spec.meant (Some x.0)) (spec.unescaped spec.NoEscape x.1.now)) }
    ensures shorter { IfSome result (λ x. length x.1.now < length text.now) }
{
    let inner = text.strip_prefix('{')?;
    let (digits, rest) = inner.split_once('}')?;
    let c = character(digits.as_bytes())?;
    Some((c, rest))
}

// The character of one to six hexadecimal digits.
#[tactic(auto, unfolding(crate::specs::Literal::character))]
fn character(digits: &[u8]) -> Option<char>
    ensures { result ≡ spec.character digits.now }
{
    if digits.is_empty() || digits.len() > 6 {
        return None;
    }
    scalar(number(digits)?)
}

// The character of a number, if it has one.
fn scalar(n: u32) -> Option<char>
    ensures { result ≡ spec.scalar n }
{
    char::from_u32(n)
}

// The number that at most six hexadecimal digits are, if all are digits.
fn number(digits: &[u8]) -> Option<u32>
    requires { length digits.now < 7 }
    ensures { result ≡ spec.hexadecimal_after 0 digits.now }
{
    let mut value = 0;
    for byte in digits {
        let digit = hex_digit(*byte)?;
        value = value * 16 + digit;
    }
    Some(value)
}

// The value of a hexadecimal digit.
fn hex_digit(byte: u8) -> Option<u32>
    ensures value { result ≡ spec.hex_digit byte }
    ensures small { IfSome result (λ digit. digit < 16) }
{
    match byte {
        b'0'..=b'9' => Some(u32::from(byte - 48)),
        b'a'..=b'f' => Some(u32::from(byte - 87)),
        b'A'..=b'F' => Some(u32::from(byte - 55)),
        _ => None,
    }
}
