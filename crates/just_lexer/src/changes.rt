// How a token changes the state of lexing.

ghost use Rattle.std.specs.Prelude.{OnOk, drop, length, map, reverse, ◌+◌, ◌<◌, ◌^◌, ◌≡◌, ◌≤◌};
ghost use Rattle.just_syntax.specs.View.{place_view, token_view};
ghost use Rattle.just_lexer.specs.Lexes.{closes, has_colon_after, in_line_after, indentation_after, opened};
ghost use Rattle.just_lexer.specs.Lexes.{openings_after, place_after, with_opened};
ghost use Rattle.just_lexer.specs.View.{opening_view};

use crate::expression::mark_after_letter;
use crate::inside::{Delimiter, Inside};
use crate::kind::TokenKind;
use crate::lexer::Opening;
use just_syntax::out_of_memory::OutOfMemory;
use just_syntax::place::Place;
use just_syntax::token::Token;

/// The place after a text.
pub(crate) fn place_after<'src>(place: Place<'src>, text: &str) -> Place<'src>
    requires line { place.line ≤ place.offset }
    requires column { place.column ≤ place.offset }
    requires offset { place.offset + length text.now < 2 ^ 64 }
    ensures { place_view result ≡ place_after (place_view place.entry) text.now }
{
    let mut line = place.line;
    let mut column = place.column;
    let mut offset = place.offset;
    for byte in text.as_bytes() {
        if *byte == b'\n' {
            line += 1;
            column = 0;
        } else {
            column += 1;
        }
        offset += 1;
    }
    Place {
        column,
        line,
        offset,
        path: place.path,
    }
}

/// What a token opens.
pub(crate) fn opened(kind: TokenKind, token: Token<'_>) -> Option<Inside>
    ensures { result ≡ opened kind (token_view token.entry) }
{
    match kind {
        TokenKind::BraceL => Some(delimiter(Delimiter::Brace, token.line)),
        TokenKind::BracketL => Some(delimiter(Delimiter::Bracket, token.line)),
        TokenKind::ParenL => Some(delimiter(Delimiter::Paren, token.line)),
        TokenKind::InterpolationStart => Some(Inside::Interpolation),
        TokenKind::FormatStringStart => {
            Some(Inside::FormatString(mark_after_letter(token.lexeme.as_bytes())))
        }
        _ => None,
    }
}

// A delimiter that is opened in this line.
fn delimiter(delimiter: Delimiter, line: usize) -> Inside
    ensures { result ≡ Inside.Delimiter delimiter line }
{
    Inside::Delimiter { delimiter, line }
}

/// Whether a token closes the innermost of what is open.
pub(crate) fn closes(kind: TokenKind) -> bool
    ensures { result ≡ closes kind }
{
    matches!(
        kind,
        TokenKind::BraceR
            | TokenKind::BracketR
            | TokenKind::ParenR
            | TokenKind::InterpolationEnd
            | TokenKind::FormatStringEnd
    )
}

/// Whether a line has begun after a token.
pub(crate) fn in_line_after(kind: TokenKind, in_line: bool) -> bool
    ensures { result ≡ in_line_after kind in_line }
{
    match kind {
        TokenKind::Eol | TokenKind::Dedent => false,
        TokenKind::ByteOrderMark => in_line,
        _ => true,
    }
}

/// Whether a body may follow after a token.
pub(crate) fn has_colon_after(
    kind: TokenKind,
    is_outside: bool,
    in_line: bool,
    has_colon: bool,
) -> bool
    ensures { result ≡ has_colon_after kind is_outside in_line has_colon }
{
    match kind {
        TokenKind::Colon => is_outside || has_colon,
        TokenKind::Eol | TokenKind::Whitespace => has_colon,
        _ => in_line && has_colon,
    }
}

/// The indentation after a token.
pub(crate) fn indentation_after<'src>(
    kind: TokenKind,
    lexeme: &'src str,
    indentation: &'src str,
) -> &'src str
    ensures { result.now ≡ indentation_after kind lexeme.now indentation.now }
{
    match kind {
        TokenKind::Indent => lexeme,
        TokenKind::Dedent => "",
        _ => indentation,
    }
}

/// Changes what is open after a token.
///
/// # Errors
///
/// `OutOfMemory`, if an allocation fails.
pub(crate) fn change_openings<'src>(
    openings: &mut Vec<Opening<'src>>,
    kind: TokenKind,
    token: Token<'src>,
) -> Result<(), OutOfMemory>
    ensures { OnOk result (reverse (map opening_view openings.new.items)
        ≡ openings_after kind (token_view token.entry) (reverse (map opening_view openings.old.items))) }
{
    if closes(kind) {
        drop_last(openings);
        Ok(())
    } else {
        push_opened(openings, opened(kind, token), token)
    }
}

// Drops the innermost of what is open.
fn drop_last(openings: &mut Vec<Opening<'_>>)
    ensures { reverse (map opening_view openings.new.items) ≡ drop 1 (reverse (map opening_view openings.old.items)) }
{
    let _ = openings.pop();
}

// Adds what a token opens.
fn push_opened<'src>(
    openings: &mut Vec<Opening<'src>>,
    inside: Option<Inside>,
    token: Token<'src>,
) -> Result<(), OutOfMemory>
    ensures { OnOk result (reverse (map opening_view openings.new.items)
        ≡ with_opened inside (token_view token.entry) (reverse (map opening_view openings.old.items))) }
{
    match inside {
        None => Ok(()),
        Some(inside) => match openings.push(Opening { inside, token }) {
            Ok(()) => Ok(()),
            Err(_) => Err(OutOfMemory),
        },
    }
}
