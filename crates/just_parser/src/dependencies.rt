// Dependencies of recipes.

ghost use Rattle.std.specs.Prelude.{IfErr, OnOk, map, ◌≡◌};
ghost use Rattle.just_syntax.specs.View.{view};
ghost use Rattle.just_expression_parser.specs.Tokens.{is_at};
ghost use Rattle.just_lexer.specs.declared.kind.TokenKind.TheVariants as kinds;
ghost use Rattle.just_parser.specs.Parsed.{IsPhraseRefused, unread};
ghost use Rattle.just_parser.specs.Phrase.{Read, many, prepended};
ghost use Rattle.just_parser.specs.Recipes.{call, dependencies, dependency, dependency_argument, dependency_arguments};
ghost use Rattle.just_parser.specs.Recipes.{is_after_dependencies, subsequents};
ghost use Rattle.just_parser.specs.View.{dependency_view};

use crate::dependency::Dependency;
use crate::outcome::pushed;
use crate::parse_error::ParseError;
use crate::parser::Parser;
use just_lexer::kind::TokenKind;
use just_syntax::expression::Expression;
use just_syntax::results::followed;

impl<'src> Parser<'_, 'src> {
    /// Dependencies, after others.
    pub(crate) fn dependencies(
        &mut self,
        into: &mut Vec<Dependency<'src>>,
    ) -> Result<(), ParseError<'src>>
        ensures ok { OnOk result (prepended (map dependency_view into.old.items) (dependencies (unread self.old))
            ≡ Read (map dependency_view into.new.items) (unread self.new)) }
        ensures refused { IfErr result (IsPhraseRefused (dependencies (unread self.old))) }
    {
        for _ in 0..self.cursor.rest().len() {
            if self.is_after_dependencies() {
                return Ok(());
            }
            self.dependency(into)?;
        }
        Ok(())
    }

    // Whether no dependency begins.
    fn is_after_dependencies(&self) -> bool
        ensures { result ≡ is_after_dependencies (unread self.now) }
    {
        !(self.cursor.is_at(0, TokenKind::Identifier) || self.cursor.is_at(0, TokenKind::ParenL))
    }

    /// `&&` and at least one dependency, if it is there.
    #[tactic(auto, unfolding(crate::specs::Recipes::subsequents))]
    pub(crate) fn subsequents(
        &mut self,
        into: &mut Vec<Dependency<'src>>,
    ) -> Result<(), ParseError<'src>>
        ensures ok { OnOk result (prepended (map dependency_view into.old.items) (subsequents (unread self.old))
            ≡ Read (map dependency_view into.new.items) (unread self.new)) }
        ensures refused { IfErr result (IsPhraseRefused (subsequents (unread self.old))) }
    {
        if !self.cursor.is_at(0, TokenKind::AmpersandAmpersand) {
            return Ok(());
        }
        self.one(TokenKind::AmpersandAmpersand)?;
        self.dependency(into)?;
        self.dependencies(into)
    }

    // A name without arguments, or a call.
    #[tactic(auto, unfolding(crate::specs::Recipes::dependency))]
    fn dependency(&mut self, into: &mut Vec<Dependency<'src>>) -> Result<(), ParseError<'src>>
        ensures ok { OnOk result (prepended (map dependency_view into.old.items) (dependency (unread self.old))
            ≡ Read (map dependency_view into.new.items) (unread self.new)) }
        ensures refused { IfErr result (IsPhraseRefused (dependency (unread self.old))) }
    {
        if self.cursor.is_at(0, TokenKind::ParenL) {
            return self.call(into);
        }
        let recipe = self.name()?;
        let arguments = Vec::new(self.alloc);
        pushed(into, Dependency { arguments, recipe })
    }

    // `(NAME argument ..)`.
    #[tactic(auto, unfolding(crate::specs::Recipes::call))]
    fn call(&mut self, into: &mut Vec<Dependency<'src>>) -> Result<(), ParseError<'src>>
        ensures ok { OnOk result (prepended (map dependency_view into.old.items) (call (unread self.old))
            ≡ Read (map dependency_view into.new.items) (unread self.new)) }
        ensures refused { IfErr result (IsPhraseRefused (call (unread self.old))) }
    {
        self.one(TokenKind::ParenL)?;
        let recipe = self.name()?;
        let mut arguments = Vec::new(self.alloc);
        let filled = self.arguments(&mut arguments);
        match followed(arguments, filled) {
            Ok(arguments) => pushed(into, Dependency { arguments, recipe }),
            Err(refusal) => Err(refusal),
        }
    }

    // Arguments, and a parenthesis.
    #[tactic(auto, unfolding(crate::specs::Recipes::dependency_arguments))]
    fn arguments(&mut self, into: &mut Vec<Expression<'src>>) -> Result<(), ParseError<'src>>
        ensures ok { OnOk result (prepended (map view into.old.items) (dependency_arguments (unread self.old))
            ≡ Read (map view into.new.items) (unread self.new)) }
        ensures refused { IfErr result (IsPhraseRefused (dependency_arguments (unread self.old))) }
    {
        self.each_argument(into)?;
        self.one(TokenKind::ParenR)?;
        Ok(())
    }

    // Arguments, up to a parenthesis.
    fn each_argument(&mut self, into: &mut Vec<Expression<'src>>) -> Result<(), ParseError<'src>>
        ensures ok { OnOk result (prepended (map view into.old.items)
            (many (is_at 0 kinds.ParenR) dependency_argument (unread self.old))
            ≡ Read (map view into.new.items) (unread self.new)) }
        ensures refused { IfErr result
            (IsPhraseRefused (many (is_at 0 kinds.ParenR) dependency_argument (unread self.old))) }
    {
        for _ in 0..self.cursor.rest().len() {
            if self.cursor.is_at(0, TokenKind::ParenR) {
                return Ok(());
            }
            self.argument(into)?;
        }
        Ok(())
    }

    // An argument.
    #[tactic(auto, unfolding(crate::specs::Recipes::dependency_argument))]
    fn argument(&mut self, into: &mut Vec<Expression<'src>>) -> Result<(), ParseError<'src>>
        ensures ok { OnOk result (prepended (map view into.old.items) (dependency_argument (unread self.old))
            ≡ Read (map view into.new.items) (unread self.new)) }
        ensures refused { IfErr result (IsPhraseRefused (dependency_argument (unread self.old))) }
    {
        match self.expression() {
            Ok(argument) => pushed(into, argument),
            Err(refusal) => Err(refusal),
        }
    }
}
