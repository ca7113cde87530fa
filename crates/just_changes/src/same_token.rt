// Whether two tokens, or two literals, are the same.

ghost use Rattle.std.specs.Prelude.{IsTrue, ◌↔◌, ◌≡◌};
ghost use Rattle.just_changes.specs.Prelude.{literal_view, token_view};

use just_syntax::string_literal::StringLiteral;
use just_syntax::token::Token;

pub(crate) fn is_same_literal(one: &StringLiteral, other: &StringLiteral) -> bool
    ensures { IsTrue result ↔ (literal_view one.now ≡ literal_view other.now) }
{
    one.cooked.as_str() == other.cooked.as_str()
        && one.lexeme == other.lexeme
        && one.indented == other.indented
}

pub(crate) fn is_same_token(one: Token, other: Token) -> bool
    ensures { IsTrue result ↔ (token_view one.entry ≡ token_view other.entry) }
{
    one.offset == other.offset
        && one.line == other.line
        && one.column == other.column
        && one.lexeme == other.lexeme
        && one.path == other.path
}
