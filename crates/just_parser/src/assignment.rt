// Variables.

ghost use Rattle.std.specs.Prelude.{IfErr, IfOk, ◌≡◌};
ghost use Rattle.just_syntax.specs.View.{assignment_view, view};
ghost use Rattle.just_parser.specs.Items.{assignment, is_underscored};
ghost use Rattle.just_parser.specs.Parsed.{IsPhraseRefused, unread};
ghost use Rattle.just_parser.specs.Phrase.{Read, expression, in_line};

use crate::parse_error::ParseError;
use crate::parser::Parser;
use just_lexer::kind::TokenKind;
use just_syntax::assignment::Assignment;
use just_syntax::expression::Expression;
use just_syntax::number::Number;
use just_syntax::results::followed;

impl<'src> Parser<'_, 'src> {
    /// `NAME := expression`, after its keywords. The variable has the number 0.
    #[tactic(auto, unfolding(crate::specs::Items::assignment))]
    pub(crate) fn assignment(
        &mut self,
        private: bool,
        eager: bool,
        export: bool,
    ) -> Result<Assignment<'src>, ParseError<'src>>
        ensures ok { IfOk result
            (λ a. assignment private eager export (unread self.old) ≡ Read (assignment_view a) (unread self.new)) }
        ensures refused { IfErr result (IsPhraseRefused (assignment private eager export (unread self.old))) }
    {
        let name = self.name()?;
        let private = private || is_underscored(name.lexeme());
        self.one(TokenKind::ColonEquals)?;
        match self.expression_in_line() {
            Ok(value) => Ok(Assignment {
                eager,
                export,
                name,
                number: Number::new(0),
                private,
                value,
            }),
            Err(refusal) => Err(refusal),
        }
    }

    /// An expression, and the end of its line.
    pub(crate) fn expression_in_line(&mut self) -> Result<Expression<'src>, ParseError<'src>>
        ensures ok { IfOk result (λ e. in_line expression (unread self.old) ≡ Read (view e) (unread self.new)) }
        ensures refused { IfErr result (IsPhraseRefused (in_line expression (unread self.old))) }
    {
        match self.expression() {
            Ok(expression) => followed(expression, self.line_end()),
            Err(refusal) => Err(refusal),
        }
    }
}

// Whether a name begins with `_`.
fn is_underscored(name: &str) -> bool
    ensures { result ≡ is_underscored name.now }
{
    name.as_bytes().starts_with(b"_")
}
