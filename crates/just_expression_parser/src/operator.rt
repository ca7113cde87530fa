// Operators between two expressions, and how tightly they bind.

ghost use Rattle.std.specs.Prelude.{◌≡◌};
ghost use Rattle.just_expression_parser.specs.Operator.{level, operator_of};

use just_lexer::kind::TokenKind;
use just_syntax::conditional_operator::ConditionalOperator;

/// An operator between two expressions.
#[derive(Clone, Copy, Debug)]
pub(crate) enum Operator {
    And,
    Comparison(ConditionalOperator),
    Concatenation,
    Join,
    ListConcatenation,
    Or,
}

/// How tightly `||` binds: less than all others.
pub(crate) const OR: usize = 0;
/// How tightly `&&` binds.
pub(crate) const AND: usize = 1;
/// How tightly comparisons bind.
pub(crate) const COMPARISON: usize = 2;
/// How tightly `+`, `++` and `/` bind.
pub(crate) const SUM: usize = 3;
/// How tightly values bind: more than all operators.
pub(crate) const VALUE: usize = 4;

impl Operator {
    /// How tightly it binds.
    pub(crate) fn level(self) -> usize
        ensures { result ≡ level self }
    {
        match self {
            Operator::And => AND,
            Operator::Comparison(_) => COMPARISON,
            Operator::Concatenation | Operator::Join | Operator::ListConcatenation => SUM,
            Operator::Or => OR,
        }
    }
}

/// The operator that a token of this kind is.
pub(crate) fn operator_at(kind: TokenKind) -> Option<Operator>
    ensures { result ≡ operator_of kind }
{
    match kind {
        TokenKind::AmpersandAmpersand => Some(Operator::And),
        TokenKind::BangEquals => Some(Operator::Comparison(ConditionalOperator::Inequality)),
        TokenKind::BangTilde => Some(Operator::Comparison(ConditionalOperator::RegexMismatch)),
        TokenKind::BarBar => Some(Operator::Or),
        TokenKind::EqualsEquals => Some(Operator::Comparison(ConditionalOperator::Equality)),
        TokenKind::EqualsTilde => Some(Operator::Comparison(ConditionalOperator::RegexMatch)),
        TokenKind::Plus => Some(Operator::Concatenation),
        TokenKind::PlusPlus => Some(Operator::ListConcatenation),
        TokenKind::Slash => Some(Operator::Join),
        _ => None,
    }
}
