// Parameters of recipes.

ghost use Rattle.std.specs.Prelude.{IfErr, IfOk, OnOk, map, option_map, ◌≡◌};
ghost use Rattle.just_syntax.specs.View.{recipe_parameter_view, view};
ghost use Rattle.just_syntax.specs.declared.parameter_kind.ParameterKind.TheVariants as parameter_kinds;
ghost use Rattle.just_parser.specs.Parsed.{IsPhraseRefused, unread};
ghost use Rattle.just_parser.specs.Phrase.{Read, many, prepended};
ghost use Rattle.just_parser.specs.Recipes.{default, is_after_parameters, recipe_parameter, recipe_parameters};
ghost use Rattle.just_parser.specs.Recipes.{variadic};

use crate::outcome::pushed;
use crate::parse_error::ParseError;
use crate::parser::Parser;
use just_lexer::kind::TokenKind;
use just_syntax::expression::Expression;
use just_syntax::number::Number;
use just_syntax::parameter::Parameter;
use just_syntax::parameter_kind::ParameterKind;

impl<'src> Parser<'_, 'src> {
    /// The parameters, after others. They have the number 0.
    #[tactic(auto, unfolding(crate::specs::Recipes::recipe_parameters))]
    pub(crate) fn recipe_parameters(
        &mut self,
        into: &mut Vec<Parameter<'src>>,
    ) -> Result<(), ParseError<'src>>
        ensures ok { OnOk result (prepended (map recipe_parameter_view into.old.items)
            (recipe_parameters (unread self.old)) ≡ Read (map recipe_parameter_view into.new.items) (unread self.new)) }
        ensures refused { IfErr result (IsPhraseRefused (recipe_parameters (unread self.old))) }
    {
        self.singular_parameters(into)?;
        self.variadic_parameter(into)
    }

    // The parameters that take one argument.
    fn singular_parameters(
        &mut self,
        into: &mut Vec<Parameter<'src>>,
    ) -> Result<(), ParseError<'src>>
        ensures ok { OnOk result (prepended (map recipe_parameter_view into.old.items)
            (many is_after_parameters (recipe_parameter parameter_kinds.Singular) (unread self.old))
            ≡ Read (map recipe_parameter_view into.new.items) (unread self.new)) }
        ensures refused { IfErr result
            (IsPhraseRefused (many is_after_parameters (recipe_parameter parameter_kinds.Singular) (unread self.old))) }
    {
        for _ in 0..self.cursor.rest().len() {
            if self.is_after_parameters() {
                return Ok(());
            }
            self.recipe_parameter(ParameterKind::Singular, into)?;
        }
        Ok(())
    }

    // Whether no parameter begins, or one that takes more than one argument.
    fn is_after_parameters(&self) -> bool
        ensures { result ≡ is_after_parameters (unread self.now) }
    {
        !(self.cursor.is_at(0, TokenKind::Identifier) || self.cursor.is_at(0, TokenKind::Dollar))
    }

    // The last parameter, if it takes more than one argument.
    #[tactic(auto, unfolding(crate::specs::Recipes::variadic))]
    fn variadic_parameter(
        &mut self,
        into: &mut Vec<Parameter<'src>>,
    ) -> Result<(), ParseError<'src>>
        ensures ok { OnOk result (prepended (map recipe_parameter_view into.old.items) (variadic (unread self.old))
            ≡ Read (map recipe_parameter_view into.new.items) (unread self.new)) }
        ensures refused { IfErr result (IsPhraseRefused (variadic (unread self.old))) }
    {
        let (mark, kind) = if self.cursor.is_at(0, TokenKind::Plus) {
            (TokenKind::Plus, ParameterKind::Plus)
        } else if self.cursor.is_at(0, TokenKind::Asterisk) {
            (TokenKind::Asterisk, ParameterKind::Star)
        } else {
            return Ok(());
        };
        self.one(mark)?;
        self.recipe_parameter(kind, into)
    }

    // A parameter of a kind, after others; `$` exports it.
    #[tactic(auto, unfolding(crate::specs::Recipes::recipe_parameter))]
    fn recipe_parameter(
        &mut self,
        kind: ParameterKind,
        into: &mut Vec<Parameter<'src>>,
    ) -> Result<(), ParseError<'src>>
        ensures ok { OnOk result (prepended (map recipe_parameter_view into.old.items)
            (recipe_parameter kind (unread self.old))
            ≡ Read (map recipe_parameter_view into.new.items) (unread self.new)) }
        ensures refused { IfErr result (IsPhraseRefused (recipe_parameter kind (unread self.old))) }
    {
        let export = self.accepted(TokenKind::Dollar)?;
        let name = self.name()?;
        match self.default() {
            Ok(default) => {
                let parameter = Parameter {
                    default,
                    export,
                    flag: false,
                    kind,
                    multiple: false,
                    name,
                    number: Number::new(0),
                    value: None,
                };
                pushed(into, parameter)
            }
            Err(refusal) => Err(refusal),
        }
    }

    // `=` and a value, if it is there.
    #[tactic(auto, unfolding(crate::specs::Recipes::default))]
    fn default(&mut self) -> Result<Option<Expression<'src>>, ParseError<'src>>
        ensures ok { IfOk result (λ e. default (unread self.old) ≡ Read (option_map view e) (unread self.new)) }
        ensures refused { IfErr result (IsPhraseRefused (default (unread self.old))) }
    {
        if !self.cursor.is_at(0, TokenKind::Equals) {
            return Ok(None);
        }
        self.one(TokenKind::Equals)?;
        match self.value() {
            Ok(value) => Ok(Some(value)),
            Err(refusal) => Err(refusal),
        }
    }
}
