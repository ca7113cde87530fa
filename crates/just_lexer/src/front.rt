// What a text begins with.

ghost use Rattle.std.specs.Prelude.{drop, ◌≡◌, ◌≤◌};
ghost use Rattle.just_syntax.specs.NameBytes.{is_name_part, is_name_start};
ghost use Rattle.just_syntax.specs.Unindented.{is_gap};
ghost use Rattle.just_lexer.specs.Front.{begins_with, is_continuation, leading_byte, line_end_length};

/// Whether a text begins with these bytes.
#[tactic(auto, unfolding(crate::specs::Front::begins_with))]
pub(crate) fn begins(text: &[u8], front: &[u8]) -> bool
    ensures { result ≡ begins_with text.now front.now }
{
    text.starts_with(front)
}

/// The length of the line end that a text begins with, or 0.
#[tactic(auto, unfolding(crate::specs::Front::line_end_length))]
pub(crate) fn line_end(text: &[u8]) -> usize
    ensures value { result ≡ line_end_length text.now }
    ensures small { result ≤ 2 }
{
    if begins(text, b"\n") {
        1
    } else if begins(text, b"\r\n") {
        2
    } else {
        0
    }
}

/// The first byte of a text, or 0.
pub(crate) fn first(text: &[u8]) -> u8
    ensures { result ≡ leading_byte text.now }
{
    match text.first() {
        Some(byte) => *byte,
        None => 0,
    }
}

/// Whether a byte is a space or a tab.
pub(crate) fn is_blank(byte: u8) -> bool
    ensures { result ≡ is_gap byte }
{
    byte == b' ' || byte == b'\t'
}

/// Whether a name may begin with a byte.
pub(crate) fn is_name_start(byte: u8) -> bool
    ensures { result ≡ is_name_start byte }
{
    byte == b'_' || byte.is_ascii_alphabetic()
}

/// Whether a byte may occur after the first byte of a name.
pub(crate) fn is_name_part(byte: u8) -> bool
    ensures { result ≡ is_name_part byte }
{
    byte == b'-' || byte.is_ascii_digit() || is_name_start(byte)
}

/// Whether a byte continues a character.
pub(crate) fn is_continuation(byte: u8) -> bool
    ensures { result ≡ is_continuation byte }
{
    128 <= byte && byte < 192
}

/// A text without this number of bytes at its front.
pub(crate) fn after(text: &[u8], count: usize) -> &[u8]
    ensures { result.now ≡ drop count text.now }
{
    if count <= text.len() {
        text.split_at(count).1
    } else {
        &[]
    }
}
