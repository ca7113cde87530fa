// What comes next at the start of a line, and in a recipe's body.

ghost use Rattle.std.specs.Prelude.{◌==◌, ◌≡◌};
ghost use Rattle.std.specs.List.{list_any};
ghost use Rattle.just_lexer.specs.Line.{blank_line, body_line, body_start, filled_line, lexed_inside, lexed_line};
ghost use Rattle.just_lexer.specs.Line.{indentation_fault};
ghost use Rattle.just_lexer.specs.Line.{is_blank_line, is_mixed, lexed_indentation, line_start, text_end, unclosed};

use crate::expression::expression;
use crate::fault::FaultKind;
use crate::front::{after, begins, line_end};
use crate::inside::Inside;
use crate::kind::TokenKind;
use crate::span::{Rule, span};
use crate::step::{Step, fault, token};

/// What comes next inside of this.
#[tactic(auto, unfolding(crate::specs::Line::lexed_inside))]
pub(crate) fn enclosed(inside: Inside, text: &[u8]) -> Step
    ensures { result ≡ lexed_inside inside text.now }
{
    if text.is_empty() {
        unclosed(inside)
    } else {
        expression(Some(inside), text)
    }
}

// The end of a text inside of this.
#[tactic(auto, unfolding(crate::specs::Line::unclosed))]
fn unclosed(inside: Inside) -> Step
    ensures { result ≡ unclosed inside }
{
    match inside {
        Inside::Delimiter { .. } => Step::OpenFault(FaultKind::UnclosedDelimiter),
        Inside::Interpolation | Inside::FormatString(_) => {
            Step::OpenFault(FaultKind::UnterminatedInterpolation)
        }
    }
}

/// The end of a text outside of all delimiters.
#[tactic(auto, unfolding(crate::specs::Line::text_end))]
pub(crate) fn text_end(indentation: &[u8]) -> Step
    ensures { result ≡ text_end indentation.now }
{
    if indentation.len() > 0 {
        token(TokenKind::Dedent, 0)
    } else {
        Step::End
    }
}

/// What comes next in a line outside of all delimiters.
#[tactic(auto, unfolding(crate::specs::Line::lexed_line))]
pub(crate) fn in_line(indentation: &[u8], text: &[u8]) -> Step
    ensures { result ≡ lexed_line indentation.now text.now }
{
    if indentation.len() > 0 {
        body_line(text)
    } else {
        expression(None, text)
    }
}

// Text, an interpolation or the line's end in a recipe's body.
#[tactic(auto, unfolding(crate::specs::Line::body_line))]
fn body_line(text: &[u8]) -> Step
    ensures { result ≡ body_line text.now }
{
    let length = span(Rule::Command, text);
    if length > 0 {
        token(TokenKind::Text, length)
    } else if begins(text, b"{{") {
        token(TokenKind::InterpolationStart, 2)
    } else {
        token(TokenKind::Eol, line_end(text))
    }
}

/// The start of a line outside of all delimiters.
#[tactic(auto, unfolding(crate::specs::Line::line_start))]
pub(crate) fn line_start(offset: usize, indentation: &[u8], has_colon: bool, text: &[u8]) -> Step
    ensures { result ≡ line_start offset indentation.now has_colon text.now }
{
    if offset == 0 && begins(text, b"\xef\xbb\xbf") {
        token(TokenKind::ByteOrderMark, 3)
    } else if is_blank_line(text) {
        blank_line(text)
    } else {
        filled_line(indentation, has_colon, text)
    }
}

// Whether there is only white space until the line's end.
#[tactic(auto, unfolding(crate::specs::Line::is_blank_line))]
fn is_blank_line(text: &[u8]) -> bool
    ensures { result ≡ is_blank_line text.now }
{
    let rest = after(text, span(Rule::Blanks, text));
    rest.is_empty() || line_end(rest) > 0
}

// The white space of a blank line, or its end.
#[tactic(auto, unfolding(crate::specs::Line::blank_line))]
fn blank_line(text: &[u8]) -> Step
    ensures { result ≡ blank_line text.now }
{
    let count = span(Rule::Blanks, text);
    if count > 0 {
        token(TokenKind::Whitespace, count)
    } else {
        token(TokenKind::Eol, line_end(text))
    }
}

// The start of a line that is not blank.
#[tactic(auto, unfolding(crate::specs::Line::filled_line))]
fn filled_line(indentation: &[u8], has_colon: bool, text: &[u8]) -> Step
    ensures { result ≡ filled_line indentation.now has_colon text.now }
{
    if indentation.len() > 0 {
        body_start(indentation, text)
    } else if span(Rule::Blanks, text) > 0 {
        indented(has_colon, text)
    } else {
        expression(None, text)
    }
}

// The start of a line after a body's first.
#[tactic(auto, unfolding(crate::specs::Line::body_start))]
fn body_start(indentation: &[u8], text: &[u8]) -> Step
    ensures { result ≡ body_start indentation.now text.now }
{
    let count = span(Rule::Blanks, text);
    let blanks = &text[..count];
    if begins(blanks, indentation) {
        token(TokenKind::Whitespace, indentation.len())
    } else if count == 0 {
        token(TokenKind::Dedent, 0)
    } else {
        fault(indentation_fault(blanks), count)
    }
}

// The start of an indented line outside of bodies.
#[tactic(auto, unfolding(crate::specs::Line::lexed_indentation))]
fn indented(has_colon: bool, text: &[u8]) -> Step
    ensures { result ≡ lexed_indentation has_colon text.now }
{
    let count = span(Rule::Blanks, text);
    if !has_colon {
        fault(FaultKind::UnexpectedIndentation, count)
    } else if is_mixed(&text[..count]) {
        fault(FaultKind::MixedIndentation, count)
    } else {
        token(TokenKind::Indent, count)
    }
}

// What is wrong with the white space before a line of a body.
#[tactic(auto, unfolding(crate::specs::Line::indentation_fault))]
fn indentation_fault(blanks: &[u8]) -> FaultKind
    ensures { result ≡ indentation_fault blanks.now }
{
    if is_mixed(blanks) {
        FaultKind::MixedIndentation
    } else {
        FaultKind::InconsistentIndentation
    }
}

// Whether there are both spaces and tabs.
#[tactic(auto, unfolding(crate::specs::Line::is_mixed))]
fn is_mixed(blanks: &[u8]) -> bool
    ensures { result ≡ is_mixed blanks.now }
{
    contains(blanks, b' ') && contains(blanks, b'\t')
}

// Whether a text contains a byte.
fn contains(text: &[u8], byte: u8) -> bool
    ensures { result ≡ list_any (λ other. other == byte) text.now }
{
    text.iter().any(|other| *other == byte)
}
