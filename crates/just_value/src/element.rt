// How a text is displayed.

ghost use Rattle.std.specs.Prelude.{MatchOption, [], false, length, slice_index, ℕ, ◌<◌, ◌∷◌, ◌≡◌, ◌≤◌};
ghost use Rattle.std.specs.Fmt.{WritesStyledOnOk};
ghost use Rattle.just_value.specs.Prelude.{IsPlain, escaped, quoted_after};

use std::fmt;

/// A text that is displayed in quotes: tab, return, newline, quote and backslash are written `\t`, `\r`, `\n`, `\"` and
/// `\\`, all else verbatim.
#[derive(Clone, Copy, Debug, PartialEq, Eq)]
pub struct Element<'text>(pub &'text str);

impl fmt::Display for Element<'_> {
    ghost use Rattle.std.specs.Prelude.{Some};
    ghost use Rattle.just_value.specs.Shown.{quoted};

    ghost output = { λ element. Some (quoted element.0.now) };

    ghost styled_output = { λ element _. Some (quoted element.0.now) };

    fn fmt<W: fmt::Write>(&self, f: &mut fmt::Formatter<W>) -> fmt::Result {
        write_quoted(f, "\"", self.0)
    }
}

// A text in quotes, the first of them given with what comes before it. Each run of bytes between two escapes is written
// in one piece, and so is a text without escapes.
pub(crate) fn write_quoted<W: fmt::Write>(
    f: &mut fmt::Formatter<W>,
    opening: &str,
    text: &str,
) -> fmt::Result
    ensures { WritesStyledOnOk W.write_str_gives f.old result (quoted_after opening.now text.now) f.new }
{
    f.write_str(opening)?;
    let bytes = text.as_bytes();
    let mut start = 0;
    for at in plain_start(bytes)..bytes.len() {
        if let Some(escape) = escape_of(bytes[at]) {
            f.write_str(&text[start..at])?;
            f.write_str(escape)?;
            start = at + 1;
        }
    }
    f.write_str(&text[start..])?;
    f.write_str("\"")
}

// From this number of bytes on, it pays to look for an escape before each byte is looked up.
const LONG: usize = 16;

// How many bytes to pass over: all of them if there are many and none has an escape.
fn plain_start(bytes: &[u8]) -> usize
    ensures bound { result ≤ length bytes.now }
    ensures plain { (k : ℕ) → k < result → IsPlain (slice_index bytes.now k) }
{
    if bytes.len() < LONG || has_escape(bytes) {
        0
    } else {
        bytes.len()
    }
}

// Whether any of the bytes has an escape. It has no branch per byte, so that it is compiled to instructions on many
// bytes at once.
fn has_escape(bytes: &[u8]) -> bool
    ensures { result ≡ false → (k : ℕ) → k < length bytes.now → IsPlain (slice_index bytes.now k) }
{
    let mut found = false;
    for byte in bytes {
        found |= is_escaped(*byte);
    }
    found
}

// Whether a byte has an escape.
fn is_escaped(byte: u8) -> bool
    ensures { result ≡ false → IsPlain byte }
{
    (byte == b'\t') | (byte == b'\r') | (byte == b'\n') | (byte == b'"') | (byte == b'\\')
}

// The escape of an ASCII character, if it has one. No other byte has one.
fn escape_of(byte: u8) -> Option<&'static str>
    ensures { MatchOption result (byte < 128 → escaped byte ≡ byte ∷ []) (λ t. (byte < 128) × (t.now ≡ escaped byte)) }
{
    match byte {
        b'\t' => Some("\\t"),
        b'\r' => Some("\\r"),
        b'\n' => Some("\\n"),
        b'"' => Some("\\\""),
        b'\\' => Some("\\\\"),
        _ => None,
    }
}
