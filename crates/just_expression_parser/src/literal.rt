// The literals that tokens stand for.

ghost use Rattle.std.specs.Prelude.{IfErr, IfOk, Some, string_bytes, ◌≡◌};
ghost use Rattle.just_syntax.specs.Plain.{Backtick};
ghost use Rattle.just_syntax.specs.View.{literal_view, token_view, view};
ghost use Rattle.just_expression_parser.specs.Literal as spec;
ghost use Rattle.just_expression_parser.specs.Parsed.{IsNoLiteral, IsString, style_view};
ghost use Rattle.just_expression_parser.specs.declared.parse_error.ParseError.TheVariants.{OutOfMemory};

use crate::braces::braces;
use crate::escapes::unescaped;
use crate::marks::{begins, without_end, without_front};
use crate::parse_error::{Fault, ParseError};
use crate::style::Style;
use just_syntax::expression::Expression;
use just_syntax::string_literal::StringLiteral;
use just_syntax::text::Text;
use just_syntax::token::Token;
use just_syntax::{out_of_memory, unindent};
use std::alloc::Global;

/// The expression that the token of a string is: a literal, or a format string without interpolations.
///
/// # Errors
///
/// `Unexpected` with `InvalidEscape`, if an escape means nothing; `OutOfMemory`, if an allocation fails.
#[tactic(auto, unfolding(crate::specs::Literal::is_format))]
pub(crate) fn string<'src>(
    alloc: Global,
    token: Token<'src>,
) -> Result<Expression<'src>, ParseError<'src>>
    ensures ok { IfOk result (λ e. IsString token.entry.lexeme.now (view e)) }
    ensures refused { IfErr result (IsNoLiteral (spec.written token.entry.lexeme.now) (token_view token.entry)) }
{
    if begins(token.lexeme, "f") {
        match whole_format(alloc, token) {
            Ok(start) => Ok(Expression::format_string(start, Vec::new(alloc))),
            Err(refusal) => Err(refusal),
        }
    } else {
        match plain(alloc, token) {
            Ok(string_literal) => Ok(Expression::StringLiteral { string_literal }),
            Err(refusal) => Err(refusal),
        }
    }
}

/// The text of a format string before its first interpolation.
#[tactic(auto, unfolding(crate::specs::Literal::piece_literal))]
pub(crate) fn start_of_format<'src>(
    alloc: Global,
    token: Token<'src>,
) -> Result<StringLiteral<'src>, ParseError<'src>>
    ensures ok { IfOk result (λ l. spec.start_of_format token.entry.lexeme.now ≡ Some (literal_view l)) }
    ensures refused { IfErr result (IsNoLiteral (spec.start_of_format token.entry.lexeme.now)
        (token_view token.entry)) }
{
    let style = Style::of_format(token.lexeme);
    let text = without_front(token.lexeme, "f");
    piece(alloc, style, token, cut(text, style.mark, "{{"))
}

/// The text between two interpolations of a format string of this style.
#[tactic(auto, unfolding(crate::specs::Literal::piece_literal))]
pub(crate) fn middle_of_format<'src>(
    alloc: Global,
    style: Style,
    token: Token<'src>,
) -> Result<StringLiteral<'src>, ParseError<'src>>
    ensures ok { IfOk result
        (λ l. spec.middle_of_format (style_view style) token.entry.lexeme.now ≡ Some (literal_view l)) }
    ensures refused { IfErr result
        (IsNoLiteral (spec.middle_of_format (style_view style) token.entry.lexeme.now) (token_view token.entry)) }
{
    piece(alloc, style, token, cut(token.lexeme, "}}", "{{"))
}

/// The text after the last interpolation of a format string of this style.
#[tactic(auto, unfolding(crate::specs::Literal::piece_literal))]
pub(crate) fn end_of_format<'src>(
    alloc: Global,
    style: Style,
    token: Token<'src>,
) -> Result<StringLiteral<'src>, ParseError<'src>>
    ensures ok { IfOk result
        (λ l. spec.end_of_format (style_view style) token.entry.lexeme.now ≡ Some (literal_view l)) }
    ensures refused { IfErr result
        (IsNoLiteral (spec.end_of_format (style_view style) token.entry.lexeme.now) (token_view token.entry)) }
{
    piece(alloc, style, token, cut(token.lexeme, "}}", style.mark))
}

/// The command that the token of a backtick is.
///
/// # Errors
///
/// `OutOfMemory`, if an allocation fails.
pub(crate) fn backtick<'src>(
    alloc: Global,
    token: Token<'src>,
) -> Result<Expression<'src>, ParseError<'src>>
    ensures ok { IfOk result
        (λ e. view e ≡ Backtick (spec.backtick_command token.entry.lexeme.now) (token_view token.entry)) }
    ensures refused { IfErr result (λ refusal. refusal ≡ OutOfMemory) }
{
    match command(alloc, token.lexeme) {
        Ok(contents) => Ok(Expression::Backtick { contents, token }),
        Err(_) => Err(ParseError::OutOfMemory),
    }
}

// The command of a backtick.
#[tactic(auto, unfolding(crate::specs::Literal::backtick_command))]
fn command(alloc: Global, lexeme: &str) -> Result<String, out_of_memory::OutOfMemory>
    ensures { IfOk result (λ t. string_bytes t ≡ spec.backtick_command lexeme.now) }
{
    if begins(lexeme, "```") {
        unindent(alloc, cut(lexeme, "```", "```"))
    } else {
        Ok(String::from_str(alloc, cut(lexeme, "`", "`"))?)
    }
}

// The literal of a string that is no format string.
#[tactic(auto, unfolding(crate::specs::Literal::string_literal))]
fn plain<'src>(alloc: Global, token: Token<'src>) -> Result<StringLiteral<'src>, ParseError<'src>>
    ensures ok { IfOk result (λ l. spec.string_literal token.entry.lexeme.now ≡ Some (literal_view l)) }
    ensures refused { IfErr result (IsNoLiteral (spec.string_literal token.entry.lexeme.now) (token_view token.entry)) }
{
    let style = Style::of(token.lexeme);
    let text = cut(token.lexeme, style.mark, style.mark);
    if style.mark.len() > 1 {
        match unindent(alloc, text) {
            Ok(text) => literal(alloc, style, token, &text),
            Err(_) => Err(ParseError::OutOfMemory),
        }
    } else {
        literal(alloc, style, token, text)
    }
}

// The literal of a format string without interpolations.
#[tactic(auto, unfolding(crate::specs::Literal::piece_literal))]
fn whole_format<'src>(
    alloc: Global,
    token: Token<'src>,
) -> Result<StringLiteral<'src>, ParseError<'src>>
    ensures ok { IfOk result (λ l. spec.whole_format token.entry.lexeme.now ≡ Some (literal_view l)) }
    ensures refused { IfErr result (IsNoLiteral (spec.whole_format token.entry.lexeme.now) (token_view token.entry)) }
{
    let style = Style::of_format(token.lexeme);
    let text = without_front(token.lexeme, "f");
    piece(alloc, style, token, cut(text, style.mark, style.mark))
}

// The literal of a piece of a format string, whose text is this between its marks.
fn piece<'src>(
    alloc: Global,
    style: Style,
    token: Token<'src>,
    text: &str,
) -> Result<StringLiteral<'src>, ParseError<'src>>
    ensures ok { IfOk result
        (λ l. spec.literal_of (style_view style) token.entry.lexeme.now (spec.braces 0 text.now) ≡ Some
        (literal_view l)) }
    ensures refused { IfErr result
        (IsNoLiteral (spec.literal_of (style_view style) token.entry.lexeme.now (spec.braces 0 text.now))
        (token_view token.entry)) }
{
    match braces(alloc, text) {
        Ok(text) => literal(alloc, style, token, &text),
        Err(_) => Err(ParseError::OutOfMemory),
    }
}

// The literal of a token, whose text is this before its escapes are replaced.
fn literal<'src>(
    alloc: Global,
    style: Style,
    token: Token<'src>,
    text: &str,
) -> Result<StringLiteral<'src>, ParseError<'src>>
    ensures ok { IfOk result
        (λ l. spec.literal_of (style_view style) token.entry.lexeme.now text.now ≡ Some (literal_view l)) }
    ensures refused { IfErr result
        (IsNoLiteral (spec.literal_of (style_view style) token.entry.lexeme.now text.now) (token_view token.entry)) }
{
    match cooked(alloc, style, text) {
        Ok(Some(cooked)) => Ok(StringLiteral {
            cooked,
            lexeme: token.lexeme,
            indented: style.mark.len() > 1,
        }),
        Ok(None) => Err(ParseError::Unexpected {
            fault: Fault::InvalidEscape,
            token: Some(token),
        }),
        Err(_) => Err(ParseError::OutOfMemory),
    }
}

// The text without escapes, if the style has them; `None`, if one means nothing.
#[tactic(auto, unfolding(crate::specs::Literal::cooked))]
fn cooked(
    alloc: Global,
    style: Style,
    text: &str,
) -> Result<Option<Text>, out_of_memory::OutOfMemory>
    ensures { IfOk result (λ t. t ≡ spec.cooked (style_view style) text.now) }
{
    if style.escapes {
        match unescaped(alloc, text)? {
            Some(meant) => Ok(Some(Text::from_string(meant))),
            None => Ok(None),
        }
    } else {
        Ok(Some(Text::from_str(alloc, text)?))
    }
}

// A text without a mark at its front and a mark at its end.
fn cut<'a>(text: &'a str, front: &str, end: &str) -> &'a str
    ensures { result.now ≡ spec.without_end_mark end.now (spec.without_front front.now text.now) }
{
    without_end(without_front(text, front), end)
}
