// What comes next in an expression.

ghost use Rattle.std.specs.Prelude.{◌≡◌, ◌≤◌, ◌<◌, length, ◌^◌};
ghost use Rattle.just_lexer.specs.Expression.{backslash, closing_braces, closing_token, end_of_line, lexed_expression};
ghost use Rattle.just_lexer.specs.Expression.{format_string, lexed_name, lexed_piece, lexed_string, mark_after_letter};
ghost use Rattle.just_lexer.specs.Expression.{operator, string_or_symbol, symbol};

use crate::fault::FaultKind;
use crate::front::{after, begins, first, is_blank, is_name_start, line_end};
use crate::inside::{Delimiter, Inside};
use crate::kind::TokenKind;
use crate::quote::Quote;
use crate::span::{Rule, span};
use crate::step::{Step, fault, token};

/// What comes next in an expression that is inside of this.
#[tactic(auto, unfolding(crate::specs::Expression::lexed_expression))]
pub(crate) fn expression(inside: Option<Inside>, text: &[u8]) -> Step
    ensures { result ≡ lexed_expression inside text.now }
{
    let byte = first(text);
    if is_blank(byte) {
        return token(TokenKind::Whitespace, span(Rule::Blanks, text));
    }
    if is_name_start(byte) {
        return named(text);
    }
    let end = line_end(text);
    if end > 0 {
        end_of_line(inside, end)
    } else if begins(text, b"\r") {
        fault(FaultKind::UnpairedCarriageReturn, 1)
    } else if begins(text, b"\\") {
        backslash(text)
    } else if begins(text, b"#") {
        token(TokenKind::Comment, span(Rule::Comment, text))
    } else {
        marked(Quote::at(text), inside, text)
    }
}

// A name, or a string with a letter before it.
#[tactic(auto, unfolding(crate::specs::Expression::lexed_name))]
fn named(text: &[u8]) -> Step
    ensures { result ≡ lexed_name text.now }
{
    if begins(text, b"x'") || begins(text, b"x\"") {
        fault(FaultKind::ShellExpandedString, 1)
    } else if begins(text, b"f'") || begins(text, b"f\"") {
        format_string(mark_after_letter(text), text)
    } else {
        token(TokenKind::Identifier, span(Rule::Name, text))
    }
}

// The mark after a letter.
#[tactic(auto, unfolding(crate::specs::Expression::mark_after_letter))]
pub(crate) fn mark_after_letter(text: &[u8]) -> Quote
    ensures { result ≡ mark_after_letter text.now }
{
    Quote::at(after(text, 1)).unwrap_or(Quote::Raw)
}

// A format string up to its first interpolation, or the whole of it.
#[tactic(auto, unfolding(crate::specs::Expression::format_string))]
fn format_string(quote: Quote, text: &[u8]) -> Step
    ensures { result ≡ format_string quote text.now }
{
    let opening = 1 + quote.delimiter().len();
    piece(
        quote,
        opening,
        TokenKind::FormatStringStart,
        TokenKind::StringToken,
        text,
    )
}

// A piece of a format string, whose text comes after its first bytes.
#[tactic(auto, unfolding(crate::specs::Expression::lexed_piece))]
fn piece(quote: Quote, opening: usize, opens: TokenKind, closes: TokenKind, text: &[u8]) -> Step
    requires { opening ≤ 4 }
    ensures { result ≡ lexed_piece quote opening opens closes text.now }
{
    let end = opening + span(Rule::Piece(quote), after(text, opening));
    if text.len() <= end {
        fault(FaultKind::UnterminatedFormatString, opening)
    } else if begins(after(text, end), b"{{") {
        token(opens, end + 2)
    } else {
        token(closes, end + quote.delimiter().len())
    }
}

// A string or a backtick.
#[tactic(auto, unfolding(crate::specs::Expression::lexed_string))]
fn string(quote: Quote, text: &[u8]) -> Step
    ensures { result ≡ lexed_string quote text.now }
{
    let mark = quote.delimiter().len();
    let end = mark + span(Rule::Quoted(quote), after(text, mark));
    if end < text.len() {
        token(quote.string_kind(), end + mark)
    } else {
        fault(quote.unterminated(), mark)
    }
}

// A line end.
#[tactic(auto, unfolding(crate::specs::Expression::end_of_line))]
fn end_of_line(inside: Option<Inside>, length: usize) -> Step
    ensures { result ≡ end_of_line inside length }
{
    match inside {
        None => token(TokenKind::Eol, length),
        Some(Inside::Delimiter { .. }) => token(TokenKind::Whitespace, length),
        Some(Inside::Interpolation | Inside::FormatString(_)) => {
            Step::OpenFault(FaultKind::UnterminatedInterpolation)
        }
    }
}

// A backslash, which continues a line.
#[tactic(auto, unfolding(crate::specs::Expression::backslash))]
fn backslash(text: &[u8]) -> Step
    ensures { result ≡ backslash text.now }
{
    let length = line_end(after(text, 1));
    if length > 0 {
        token(TokenKind::Whitespace, 1 + length)
    } else {
        fault(FaultKind::InvalidEscape, 1)
    }
}

// A string, a backtick or a symbol.
#[tactic(auto, unfolding(crate::specs::Expression::string_or_symbol))]
fn marked(quote: Option<Quote>, inside: Option<Inside>, text: &[u8]) -> Step
    ensures { result ≡ string_or_symbol quote inside text.now }
{
    match quote {
        Some(quote) => string(quote, text),
        None => symbol(inside, text),
    }
}

// A delimiter or an operator.
#[tactic(auto, unfolding(crate::specs::Expression::symbol))]
fn symbol(inside: Option<Inside>, text: &[u8]) -> Step
    ensures { result ≡ symbol inside text.now }
{
    if begins(text, b"}}") {
        closing_braces(inside, text)
    } else if begins(text, b"}") {
        closing(Delimiter::Brace, TokenKind::BraceR, inside)
    } else if begins(text, b")") {
        closing(Delimiter::Paren, TokenKind::ParenR, inside)
    } else if begins(text, b"]") {
        closing(Delimiter::Bracket, TokenKind::BracketR, inside)
    } else {
        operator(text)
    }
}

// A closing delimiter.
#[tactic(auto, unfolding(crate::specs::Expression::closing_token))]
fn closing(close: Delimiter, kind: TokenKind, inside: Option<Inside>) -> Step
    ensures { result ≡ closing_token close kind inside }
{
    match inside {
        Some(
            Inside::Delimiter {
                delimiter: open,
                line,
            },
        ) => {
            if open.is_same(close) {
                token(kind, 1)
            } else {
                fault(FaultKind::MismatchedClosingDelimiter { open, line }, 1)
            }
        }
        None | Some(Inside::Interpolation | Inside::FormatString(_)) => {
            fault(FaultKind::UnexpectedClosingDelimiter, 1)
        }
    }
}

// Two closing braces.
#[tactic(auto, unfolding(crate::specs::Expression::closing_braces))]
fn closing_braces(inside: Option<Inside>, text: &[u8]) -> Step
    ensures { result ≡ closing_braces inside text.now }
{
    match inside {
        Some(Inside::Interpolation) => token(TokenKind::InterpolationEnd, 2),
        Some(Inside::FormatString(quote)) => {
            piece(
                quote,
                2,
                TokenKind::FormatStringContinue,
                TokenKind::FormatStringEnd,
                text,
            )
        }
        None | Some(Inside::Delimiter { .. }) => closing(
            Delimiter::Brace,
            TokenKind::BraceR,
            inside,
        ),
    }
}

// An opening delimiter or an operator, the longest first.
#[tactic(auto, unfolding(crate::specs::Expression::operator))]
fn operator(text: &[u8]) -> Step
    ensures { result ≡ operator text.now }
{
    if begins(text, b":=") {
        token(TokenKind::ColonEquals, 2)
    } else if begins(text, b"::") {
        token(TokenKind::ColonColon, 2)
    } else if begins(text, b":") {
        token(TokenKind::Colon, 1)
    } else if begins(text, b"(") {
        token(TokenKind::ParenL, 1)
    } else if begins(text, b"[") {
        token(TokenKind::BracketL, 1)
    } else if begins(text, b"{") {
        token(TokenKind::BraceL, 1)
    } else if begins(text, b",") {
        token(TokenKind::Comma, 1)
    } else if begins(text, b"++") {
        token(TokenKind::PlusPlus, 2)
    } else if begins(text, b"+") {
        token(TokenKind::Plus, 1)
    } else if begins(text, b"/") {
        token(TokenKind::Slash, 1)
    } else if begins(text, b"==") {
        token(TokenKind::EqualsEquals, 2)
    } else if begins(text, b"=~") {
        token(TokenKind::EqualsTilde, 2)
    } else if begins(text, b"=") {
        token(TokenKind::Equals, 1)
    } else if begins(text, b"!=") {
        token(TokenKind::BangEquals, 2)
    } else if begins(text, b"!~") {
        token(TokenKind::BangTilde, 2)
    } else if begins(text, b"!") {
        token(TokenKind::Bang, 1)
    } else if begins(text, b"&&") {
        token(TokenKind::AmpersandAmpersand, 2)
    } else if begins(text, b"||") {
        token(TokenKind::BarBar, 2)
    } else if begins(text, b"@") {
        token(TokenKind::At, 1)
    } else if begins(text, b"$") {
        token(TokenKind::Dollar, 1)
    } else if begins(text, b"*") {
        token(TokenKind::Asterisk, 1)
    } else if begins(text, b"?") {
        token(TokenKind::QuestionMark, 1)
    } else {
        fault(
            FaultKind::UnknownStart,
            1 + span(Rule::Character, after(text, 1)),
        )
    }
}
