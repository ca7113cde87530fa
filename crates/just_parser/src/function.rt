// Functions.

ghost use Rattle.std.specs.Prelude.{IfErr, IfOk, OnOk, map, ◌≡◌};
ghost use Rattle.just_syntax.specs.View.{function_view, parameter_view};
ghost use Rattle.just_expression_parser.specs.Tokens.{is_at};
ghost use Rattle.just_lexer.specs.declared.kind.TokenKind.TheVariants as kinds;
ghost use Rattle.just_parser.specs.Items.{function, function_parameter};
ghost use Rattle.just_parser.specs.Parsed.{IsPhraseRefused, unread};
ghost use Rattle.just_parser.specs.Phrase.{Read, many, prepended};

use crate::outcome::pushed;
use crate::parse_error::ParseError;
use crate::parser::Parser;
use just_lexer::kind::TokenKind;
use just_syntax::function_definition::FunctionDefinition;
use just_syntax::name::Name;
use just_syntax::number::Number;

impl<'src> Parser<'_, 'src> {
    /// `NAME(PARAMETER, ..) := expression`. The parameters have the number 0.
    #[tactic(auto, unfolding(crate::specs::Items::function))]
    pub(crate) fn function(&mut self) -> Result<FunctionDefinition<'src>, ParseError<'src>>
        ensures ok { IfOk result (λ f. function (unread self.old) ≡ Read (function_view f) (unread self.new)) }
        ensures refused { IfErr result (IsPhraseRefused (function (unread self.old))) }
    {
        let name = self.name()?;
        self.one(TokenKind::ParenL)?;
        let mut parameters = Vec::new(self.alloc);
        self.parameters(&mut parameters)?;
        self.one(TokenKind::ParenR)?;
        self.one(TokenKind::ColonEquals)?;
        match self.expression_in_line() {
            Ok(body) => Ok(FunctionDefinition {
                body,
                name,
                parameters,
            }),
            Err(refusal) => Err(refusal),
        }
    }

    // The parameters, up to the parenthesis.
    fn parameters(&mut self, into: &mut Vec<(Name<'src>, Number)>) -> Result<(), ParseError<'src>>
        ensures ok { OnOk result (prepended (map parameter_view into.old.items)
            (many (is_at 0 kinds.ParenR) function_parameter (unread self.old))
            ≡ Read (map parameter_view into.new.items) (unread self.new)) }
        ensures refused { IfErr result
            (IsPhraseRefused (many (is_at 0 kinds.ParenR) function_parameter (unread self.old))) }
    {
        for _ in 0..self.cursor.rest().len() {
            if self.cursor.is_at(0, TokenKind::ParenR) {
                return Ok(());
            }
            self.parameter(into)?;
        }
        Ok(())
    }

    // A parameter, with the comma after it, if it is not the last one.
    #[tactic(auto, unfolding(crate::specs::Items::function_parameter))]
    fn parameter(&mut self, into: &mut Vec<(Name<'src>, Number)>) -> Result<(), ParseError<'src>>
        ensures ok { OnOk result (prepended (map parameter_view into.old.items) (function_parameter (unread self.old))
            ≡ Read (map parameter_view into.new.items) (unread self.new)) }
        ensures refused { IfErr result (IsPhraseRefused (function_parameter (unread self.old))) }
    {
        let name = self.name()?;
        self.comma_unless(TokenKind::ParenR)?;
        pushed(into, (name, Number::new(0)))
    }
}
