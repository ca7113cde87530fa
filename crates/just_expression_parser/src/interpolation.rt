// The texts after interpolations.

ghost use Rattle.std.specs.Prelude.{IfErr, IfOk};
ghost use Rattle.just_syntax.specs.View.{literal_view};
ghost use Rattle.just_expression_parser.specs.Parsed.{IsLastText, IsNoLastText, style_view, tokens};

use crate::cursor::Cursor;
use crate::literal::end_of_format;
use crate::parse_error::{Fault, ParseError};
use crate::style::Style;
use just_lexer::kind::TokenKind;
use just_syntax::string_literal::StringLiteral;
use std::alloc::Global;

/// Takes the text after the last interpolation of a format string of this style.
pub(crate) fn last_text<'src>(
    alloc: Global,
    cursor: &mut Cursor<'_, 'src>,
    style: Style,
) -> Result<StringLiteral<'src>, ParseError<'src>>
    ensures ok { IfOk result (λ l. IsLastText (style_view style) (tokens cursor.old) (literal_view l)
        (tokens cursor.new)) }
    ensures refused { IfErr result (IsNoLastText (style_view style) (tokens cursor.old)) }
{
    match cursor.take(TokenKind::FormatStringEnd) {
        Some(token) => end_of_format(alloc, style, token),
        None => Err(cursor.unexpected(Fault::Expected(TokenKind::FormatStringEnd))),
    }
}
