// Expressions of tokens.

ghost use Rattle.std.specs.Prelude.{IfErr, IfOk, [], map, ◌≡◌};
ghost use Rattle.just_syntax.specs.Plain.{Expr};
ghost use Rattle.just_syntax.specs.View.{view};
ghost use Rattle.just_lexer.specs.View.{lexeme_view};
ghost use Rattle.just_expression_parser.specs.Grammar.{reads};
ghost use Rattle.just_expression_parser.specs.Laws.{IsEnded};
ghost use Rattle.just_expression_parser.specs.Machine as machine;
ghost use Rattle.just_expression_parser.specs.Machine.{parse};
ghost use Rattle.just_expression_parser.specs.Parsed.{IsNoExpression, IsRefused};
ghost use Rattle.just_expression_parser.specs.Tokens.{Tokens, is_significant, significant};

use crate::cursor::Cursor;
use crate::machine::Machine;
use crate::operator::{OR, VALUE};
use crate::parse_error::ParseError;
use just_lexer::kind::TokenKind;
use just_lexer::lexeme::Lexeme;
use just_syntax::expression::Expression;
use just_syntax::out_of_memory::OutOfMemory;
use std::alloc::Global;

/// The tokens that matter to an expression: all but white space and comments.
///
/// # Errors
///
/// `OutOfMemory`, if an allocation fails.
pub fn significant<'src>(
    alloc: Global,
    lexemes: &[Lexeme<'src>],
) -> Result<Vec<Lexeme<'src>>, OutOfMemory>
    ensures { IfOk result (λ kept. map lexeme_view kept.items ≡ significant (map lexeme_view lexemes.now)) }
{
    let mut kept = Vec::with_capacity(alloc, lexemes.len())?;
    for lexeme in lexemes {
        if is_significant(lexeme.kind) {
            kept.push(*lexeme)?;
        }
    }
    Ok(kept)
}

// Whether tokens of a kind matter to an expression.
fn is_significant(kind: TokenKind) -> bool
    ensures { result ≡ is_significant kind }
{
    !matches!(kind, TokenKind::Whitespace | TokenKind::Comment)
}

/// The expression that the tokens begin with, as far as it goes, and the tokens after it. White space and comments must
/// be left out, as [`significant`] does.
///
/// ```rust
/// let lexemes = lex(alloc, "justfile", "'a' + b")?;
/// let tokens = significant(alloc, &lexemes)?;
/// let (expression, rest) = parse_expression(alloc, &tokens)?;
/// ```
///
/// # Errors
///
/// `Unexpected` with the first token that continues no expression, and what was expected there. `OutOfMemory`, if an
/// allocation fails, or if forms nest too deeply: 3,166 parentheses may, or as many operators in a row.
pub fn parse_expression<'tokens, 'src>(
    alloc: Global,
    tokens: &'tokens [Lexeme<'src>],
) -> Result<(Expression<'src>, &'tokens [Lexeme<'src>]), ParseError<'src>>
    // It is what the definition reads,
    ensures exact { IfOk result (λ p. parse (map lexeme_view tokens.now) (machine.Expression 0) []
        ≡ machine.Read (view p.0) (map lexeme_view p.1.now)) }

    // the grammar derives it from these tokens,
    ensures derived { IfOk result
        (λ p. reads (view p.0) 0 (map lexeme_view tokens.now) (map lexeme_view p.1.now)) }

    // and no other expression.
    ensures only { IfOk result (λ p. (e : Expr) (rest : Tokens) → reads e 0 (map lexeme_view tokens.now) rest
        → IsEnded rest → (view p.0 ≡ e) × (map lexeme_view p.1.now ≡ rest)) }

    // A refusal is that of the definition, and the tokens up to it are no expression, whatever comes after it.
    ensures refused { IfErr result (IsNoExpression (map lexeme_view tokens.now)) }
{
    read(alloc, tokens, OR)
}

/// The value that the tokens begin with, as a default of a parameter is one, and the tokens after it: a string, a
/// variable, a call, a list, a negation, a command, or any expression in parentheses. Else as [`parse_expression`].
///
/// # Errors
///
/// As [`parse_expression`].
pub fn parse_value<'tokens, 'src>(
    alloc: Global,
    tokens: &'tokens [Lexeme<'src>],
) -> Result<(Expression<'src>, &'tokens [Lexeme<'src>]), ParseError<'src>>
    // It is what the definition reads,
    ensures exact { IfOk result (λ p. parse (map lexeme_view tokens.now) (machine.Expression 4) []
        ≡ machine.Read (view p.0) (map lexeme_view p.1.now)) }

    // and the grammar derives it from these tokens.
    ensures derived { IfOk result
        (λ p. reads (view p.0) 4 (map lexeme_view tokens.now) (map lexeme_view p.1.now)) }

    // A refusal is that of the definition.
    ensures refused { IfErr result (IsRefused (parse (map lexeme_view tokens.now) (machine.Expression 4) [])) }
{
    read(alloc, tokens, VALUE)
}

// An expression of at least a level, and the tokens after it.
fn read<'tokens, 'src>(
    alloc: Global,
    tokens: &'tokens [Lexeme<'src>],
    level: usize,
) -> Result<(Expression<'src>, &'tokens [Lexeme<'src>]), ParseError<'src>>
    ensures exact { IfOk result (λ p. parse (map lexeme_view tokens.now) (machine.Expression level) []
        ≡ machine.Read (view p.0) (map lexeme_view p.1.now)) }
    ensures refused { IfErr result (IsRefused (parse (map lexeme_view tokens.now) (machine.Expression level) [])) }
{
    let mut machine = Machine {
        alloc,
        cursor: Cursor::new(tokens),
        frames: Vec::new(alloc),
    };
    match machine.expression(level) {
        Ok(expression) => Ok((expression, machine.cursor.rest())),
        Err(error) => Err(error),
    }
}
