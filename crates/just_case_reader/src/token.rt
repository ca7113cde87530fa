// The tokens of a case.

ghost use Rattle.std.specs.Prelude.{IfOk, map, ◌≡◌};
ghost use Rattle.just_case_reader.specs.Prelude.{name_view, parameter_view, token_of, token_view};

use just_syntax::name::Name;
use just_syntax::number::Number;
use just_syntax::out_of_memory::OutOfMemory;
use just_syntax::place::Place;
use just_syntax::token::Token;
use std::alloc::Global;

/// A token of a case; all tokens are at the start of the same file.
pub fn token(lexeme: &str) -> Token<'_>
    ensures { token_view result ≡ token_of lexeme.now }
{
    Token::new(lexeme, Some(Place::start_of("justfile")))
}

/// A name of a case.
pub fn name(lexeme: &str) -> Name<'_>
    ensures { name_view result ≡ token_of lexeme.now }
{
    Name::new(lexeme, Some(Place::start_of("justfile")))
}

/// Names of a case, in order.
///
/// # Errors
///
/// `OutOfMemory`, if an allocation fails.
pub fn names<'src>(alloc: Global, lexemes: &[&'src str]) -> Result<Vec<Name<'src>>, OutOfMemory>
    ensures { IfOk result (λ names. map name_view names.items ≡ map token_of (map (λ lexeme. lexeme.now) lexemes.now)) }
{
    let mut names = Vec::with_capacity(alloc, lexemes.len())?;
    for lexeme in lexemes {
        names.push(name(lexeme))?;
    }
    Ok(names)
}

/// A parameter of a case: a name with its number.
pub fn parameter(lexeme: &str, number: Number) -> (Name<'_>, Number)
    ensures { parameter_view result ≡ (token_of lexeme.now, number) }
{
    (name(lexeme), number)
}
