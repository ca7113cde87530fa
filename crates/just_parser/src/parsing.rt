// The items of a text.

ghost use Rattle.std.specs.Prelude.{IfErr, IfOk, map, ◌≡◌};
ghost use Rattle.just_lexer.specs.View.{lexeme_view};
ghost use Rattle.just_expression_parser.specs.Tokens.{Tokens, significant};
ghost use Rattle.just_parser.specs.Items.{items};
ghost use Rattle.just_parser.specs.Parsed.{AreItems, IsNoJustfile, IsPhraseRefused};
ghost use Rattle.just_parser.specs.Phrase.{Read};
ghost use Rattle.just_parser.specs.View.{item_view};

use crate::item::Item;
use crate::parse_error::ParseError;
use crate::parser::Parser;
use just_expression_parser::cursor::Cursor;
use just_expression_parser::significant;
use just_lexer::lex;
use just_lexer::lex_error::LexError;
use just_lexer::lexeme::Lexeme;
use std::alloc::Global;

/// The items of the text of a file with this path, in order. Comments and empty lines are none. Nothing has a number
/// yet: each assignment and parameter has 0, and each variable in an expression none. `resolve` of `just_resolve` gives
/// variables theirs, and `free_numbers` the parameters of a recipe.
///
/// ```rust
/// for item in &parse(alloc, "justfile", "greeting := 'hello'\n")? {
///     ..
/// }
/// ```
///
/// # Errors
///
/// `Lex`, if the text has no tokens. `Unexpected` with the first token that no item goes on with, and what was expected
/// there; an unknown setting, an empty command and an item that does not fit are told by up to two tokens after it
/// ([`refuses_early`](crate::laws::refuses_early)). `OutOfMemory`, if an allocation fails, or if forms nest too deeply,
/// as in `parse_expression`.
pub fn parse<'src>(
    alloc: Global,
    path: &'src str,
    source: &'src str,
) -> Result<Vec<Item<'src>>, ParseError<'src>>
    // The items are those of the text's tokens,
    ensures exact { IfOk result (λ items. AreItems path.now source.now (map item_view items.items)) }

    // and a refusal is that of the tokens, or of the text.
    ensures refused { IfErr result (IsNoJustfile path.now source.now) }
{
    match lex(alloc, path, source) {
        Ok(lexemes) => parse_lexemes(alloc, &lexemes),
        Err(LexError::Fault { kind, token }) => Err(ParseError::Lex { kind, token }),
        Err(LexError::OutOfMemory) => Err(ParseError::OutOfMemory),
    }
}

// The items of tokens.
fn parse_lexemes<'src>(
    alloc: Global,
    lexemes: &[Lexeme<'src>],
) -> Result<Vec<Item<'src>>, ParseError<'src>>
    ensures exact { IfOk result (λ all. (rest : Tokens)
        × (items (significant (map lexeme_view lexemes.now)) ≡ Read (map item_view all.items) rest)) }
    ensures refused { IfErr result (IsPhraseRefused (items (significant (map lexeme_view lexemes.now)))) }
{
    match significant(alloc, lexemes) {
        Ok(tokens) => {
            let mut parser = Parser {
                alloc,
                cursor: Cursor::new(&tokens),
            };
            parser.items()
        }
        Err(_) => Err(ParseError::OutOfMemory),
    }
}
