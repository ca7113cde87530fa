// What waits for an expression.

ghost use Rattle.std.specs.Prelude.{map, ◌≡◌};
ghost use Rattle.just_syntax.specs.View.{view};
ghost use Rattle.just_expression_parser.specs.Machine.{closing_kind, with_elements};
ghost use Rattle.just_expression_parser.specs.Parsed.{form_view};

use crate::operator::Operator;
use crate::style::Style;
use just_lexer::kind::TokenKind;
use just_syntax::expression::Expression;
use just_syntax::name::Name;
use just_syntax::string_literal::StringLiteral;
use just_syntax::token::Token;

/// A form that is read in part, and waits for an expression.
#[derive(Debug, Drop)]
pub(crate) enum Frame<'src> {
    /// `assert(` waits for its condition.
    Assertion {
        name: Name<'src>,
    },
    /// `[`, or `name(`, and elements wait for the next element.
    Elements {
        form: Elements<'src>,
        elements: Vec<Expression<'src>>,
    },
    /// `if` waits for its condition.
    Condition,
    /// `if condition {` waits for its branch.
    Consequence {
        condition: Expression<'src>,
    },
    /// `if condition { consequence } else if` waits for the other conditional.
    ElseIf {
        condition: Expression<'src>,
        consequence: Expression<'src>,
    },
    /// `(` waits for its contents.
    Group,
    /// A format string up to an interpolation waits for the interpolated expression.
    Interpolation {
        start: StringLiteral<'src>,
        pieces: Vec<(Expression<'src>, StringLiteral<'src>)>,
        style: Style,
    },
    /// `assert(condition,` waits for its message.
    Message {
        condition: Expression<'src>,
        name: Name<'src>,
    },
    /// `!` waits for its operand.
    Not,
    /// An operand waits for the operators after it: those that bind at least as tightly as `least`, but less than
    /// `below`.
    Operators {
        least: usize,
        below: usize,
    },
    /// `if condition { consequence } else {` waits for the other branch.
    Otherwise {
        condition: Expression<'src>,
        consequence: Expression<'src>,
    },
    /// `/` waits for its right side.
    Root {
        operator: Token<'src>,
    },
    /// An operand and an operator wait for the right side.
    Side {
        lhs: Expression<'src>,
        operator: Operator,
        token: Token<'src>,
    },
}

/// What has elements.
#[derive(Clone, Copy, Debug)]
pub(crate) enum Elements<'src> {
    Call(Name<'src>),
    List(Token<'src>),
}

impl<'src> Elements<'src> {
    /// The kind of the token after the last element.
    pub(crate) fn close(self) -> TokenKind
        ensures { result ≡ closing_kind (form_view self.entry) }
    {
        match self {
            Elements::Call(_) => TokenKind::ParenR,
            Elements::List(_) => TokenKind::BracketR,
        }
    }

    /// The expression with these elements.
    pub(crate) fn with(self, elements: Vec<Expression<'src>>) -> Expression<'src>
        ensures { view result ≡ with_elements (form_view self.entry) (map view elements.entry.items) }
    {
        match self {
            Elements::Call(name) => Expression::call(name, elements),
            Elements::List(token) => Expression::list(elements, token),
        }
    }
}

/// What is read next.
#[derive(Debug, Drop)]
pub(crate) enum State<'src> {
    /// After `else`, the other branch: in braces, or another conditional.
    Branch {
        condition: Expression<'src>,
        consequence: Expression<'src>,
    },
    /// Nothing: the expression is read, and the innermost frame takes it.
    Done(Expression<'src>),
    /// An element, or the end of the elements.
    Elements {
        form: Elements<'src>,
        elements: Vec<Expression<'src>>,
    },
    /// An expression whose operators bind at least this tightly.
    Expression(usize),
    /// After a name, the parenthesis of its arguments, if it has some.
    Named(Name<'src>),
    /// After a branch, `else`, if there is another.
    Otherwise {
        condition: Expression<'src>,
        consequence: Expression<'src>,
    },
    /// A value.
    Value,
}
