// How far pieces of text reach.

ghost use Rattle.std.specs.Prelude.{length, ◌≡◌, ◌≤◌};
ghost use Rattle.just_lexer.specs.Span.{passed, passed_in_piece, passed_in_string, span};

use crate::front::{begins, first, is_blank, is_continuation, is_name_part, line_end};
use crate::quote::Quote;

/// What is passed.
#[derive(Clone, Copy, Debug)]
pub(crate) enum Rule {
    /// Spaces and tabs.
    Blanks,
    /// The bytes of a character after its first.
    Character,
    /// The text before an interpolation or the end of the line.
    Command,
    /// All up to the end of the line.
    Comment,
    /// What a name may contain.
    Name,
    /// The text of a format string before an interpolation or the closing mark.
    Piece(Quote),
    /// The text of a string before the closing mark.
    Quoted(Quote),
}

/// The number of bytes that a rule passes here; 0 if it stops.
#[tactic(auto, unfolding(crate::specs::Span::passed))]
pub(crate) fn passed(rule: Rule, text: &[u8]) -> usize
    ensures value { result ≡ passed rule text.now }
    ensures small { result ≤ 4 }
{
    match rule {
        Rule::Blanks => usize::from(is_blank(first(text))),
        Rule::Character => usize::from(is_continuation(first(text))),
        Rule::Command => {
            if begins(text, b"{{{{") {
                4
            } else if begins(text, b"{{") || line_end(text) > 0 {
                0
            } else {
                1
            }
        }
        Rule::Comment => usize::from(line_end(text) == 0),
        Rule::Name => usize::from(is_name_part(first(text))),
        Rule::Piece(quote) => passed_in_piece(quote, text),
        Rule::Quoted(quote) => passed_in_string(quote, text),
    }
}

// The number of bytes that are passed here in a format string.
#[tactic(auto, unfolding(crate::specs::Span::passed_in_piece))]
fn passed_in_piece(quote: Quote, text: &[u8]) -> usize
    ensures value { result ≡ passed_in_piece quote text.now }
    ensures small { result ≤ 4 }
{
    if begins(text, b"{{{{") {
        4
    } else if begins(text, b"{{") {
        0
    } else {
        passed_in_string(quote, text)
    }
}

// The number of bytes that are passed here in a string.
#[tactic(auto, unfolding(crate::specs::Span::passed_in_string))]
fn passed_in_string(quote: Quote, text: &[u8]) -> usize
    ensures value { result ≡ passed_in_string quote text.now }
    ensures small { result ≤ 4 }
{
    if begins(text, quote.delimiter()) {
        0
    } else if quote.is_cooked() && begins(text, b"\\") {
        2
    } else {
        1
    }
}

/// The length of the longest front of a text that a rule passes.
pub(crate) fn span(rule: Rule, text: &[u8]) -> usize
    ensures value { result ≡ span rule 0 text.now }
    ensures within { result ≤ length text.now }
{
    let mut count = 0usize;
    let mut rest = text;
    while !rest.is_empty() {
        let more = passed(rule, rest).min(rest.len());
        if more == 0 {
            break;
        }
        count += more;
        rest = rest.split_at(more).1;
    }
    count
}
