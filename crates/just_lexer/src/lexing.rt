// All tokens of a text.

ghost use Rattle.std.specs.Prelude.{IfErr, IfOk, map, ◌≡◌};
ghost use Rattle.just_lexer.specs.Fault.{IsFaultPlaced, IsFirstLexicalFault};
ghost use Rattle.just_lexer.specs.Laws.{AreTokensPlaced, text_of_tokens};
ghost use Rattle.just_lexer.specs.Lexes.{IsLexed, Whole};
ghost use Rattle.just_lexer.specs.View.{lexeme_view};

use crate::kind::TokenKind;
use crate::lex_error::LexError;
use crate::lexeme::Lexeme;
use crate::lexer::Lexer;
use crate::step::Step;
use std::alloc::Global;

/// The tokens of the text of a file with this path, the last of which is `Eof`. White space and comments are tokens
/// too.
///
/// ```rust
/// for lexeme in &lex(alloc, "justfile", "greeting := 'hello'\n")? {
///     println!(rt; "{} {}", lexeme.kind, lexeme.token.lexeme)?;
/// }
/// ```
///
/// # Errors
///
/// `Fault`, if the text has one: the first, with its token. `OutOfMemory`, if an allocation fails. Either way no token
/// is returned.
pub fn lex<'src>(
    alloc: Global,
    path: &'src str,
    source: &'src str,
) -> Result<Vec<Lexeme<'src>>, LexError<'src>>
    // The tokens are those of the definition.
    ensures exact { IfOk result (λ lexemes. IsLexed path.now source.now (map lexeme_view lexemes.items) Whole) }

    // Their texts, one after another, are the text.
    ensures whole { IfOk result (λ lexemes. text_of_tokens (map lexeme_view lexemes.items) ≡ source.now) }

    // Each is at the place of its offset.
    ensures places { IfOk result (λ lexemes. AreTokensPlaced path.now source.now (map lexeme_view lexemes.items)) }

    // A fault comes after the tokens of the definition, and its token is at the place of its offset.
    ensures fault { IfErr result (λ error. IsFirstLexicalFault path.now source.now error) }
    ensures fault_place { IfErr result (λ error. IsFaultPlaced path.now source.now error) }
{
    all_tokens(alloc, path, source)
}

// The same; the places and the whole text follow.
fn all_tokens<'src>(
    alloc: Global,
    path: &'src str,
    source: &'src str,
) -> Result<Vec<Lexeme<'src>>, LexError<'src>>
    ensures exact { IfOk result (λ lexemes. IsLexed path.now source.now (map lexeme_view lexemes.items) Whole) }
    ensures fault { IfErr result (λ error. IsFirstLexicalFault path.now source.now error) }
{
    let mut lexer = Lexer::new(alloc, path, source);
    let mut lexemes = Vec::new(alloc);
    loop {
        match lexer.next() {
            Step::Token { kind, length } => match lexer.take(kind, length) {
                Ok(lexeme) => match lexemes.push(lexeme) {
                    Ok(()) => {}
                    Err(_) => return Err(LexError::OutOfMemory),
                },
                Err(_) => return Err(LexError::OutOfMemory),
            },
            Step::Fault { fault, length } => {
                let token = lexer.next_token(length);
                return Err(LexError::Fault { kind: fault, token });
            }
            Step::OpenFault(fault) => {
                let token = lexer.opening_token();
                return Err(LexError::Fault { kind: fault, token });
            }
            Step::End => {
                let token = lexer.end_token();
                match lexemes.push(Lexeme {
                    kind: TokenKind::Eof,
                    token,
                }) {
                    Ok(()) => return Ok(lexemes),
                    Err(_) => return Err(LexError::OutOfMemory),
                }
            }
        }
    }
}
