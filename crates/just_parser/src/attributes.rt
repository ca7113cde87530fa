// Attributes before items.

ghost use Rattle.std.specs.Prelude.{IfErr, IfOk, OnOk, map, ◌≡◌};
ghost use Rattle.just_syntax.specs.View.{attribute_view, name_view, view};
ghost use Rattle.just_expression_parser.specs.Tokens.{is_at};
ghost use Rattle.just_lexer.specs.declared.kind.TokenKind.TheVariants as kinds;
ghost use Rattle.just_parser.specs.Attributes.{attribute, attribute_line, attribute_of, attributes, env, env_value};
ghost use Rattle.just_parser.specs.Attributes.{is_after_attributes};
ghost use Rattle.just_parser.specs.Parsed.{IsPhraseRefused, unread};
ghost use Rattle.just_parser.specs.Phrase.{Read, many, prepended};
ghost use Rattle.just_parser.specs.View.{written_view};

use crate::outcome::{paired, pushed};
use crate::parse_error::ParseError;
use crate::parser::Parser;
use crate::written_attribute::WrittenAttribute;
use just_lexer::kind::TokenKind;
use just_syntax::attribute::Attribute;
use just_syntax::expression::Expression;
use just_syntax::name::Name;
use just_syntax::results::followed;

impl<'src> Parser<'_, 'src> {
    /// The attributes before an item, a line after another.
    pub(crate) fn attributes(
        &mut self,
        into: &mut Vec<WrittenAttribute<'src>>,
    ) -> Result<(), ParseError<'src>>
        ensures ok { OnOk result (prepended (map written_view into.old.items) (attributes (unread self.old))
            ≡ Read (map written_view into.new.items) (unread self.new)) }
        ensures refused { IfErr result (IsPhraseRefused (attributes (unread self.old))) }
    {
        for _ in 0..self.cursor.rest().len() {
            if self.is_after_attributes() {
                return Ok(());
            }
            self.attribute_line(into)?;
        }
        Ok(())
    }

    // Whether no attribute begins.
    fn is_after_attributes(&self) -> bool
        ensures { result ≡ is_after_attributes (unread self.now) }
    {
        !self.cursor.is_at(0, TokenKind::BracketL)
    }

    // `[ATTRIBUTE, ..]`, and the end of its line.
    #[tactic(auto, unfolding(crate::specs::Attributes::attribute_line))]
    fn attribute_line(
        &mut self,
        into: &mut Vec<WrittenAttribute<'src>>,
    ) -> Result<(), ParseError<'src>>
        ensures ok { OnOk result (prepended (map written_view into.old.items) (attribute_line (unread self.old))
            ≡ Read (map written_view into.new.items) (unread self.new)) }
        ensures refused { IfErr result (IsPhraseRefused (attribute_line (unread self.old))) }
    {
        self.one(TokenKind::BracketL)?;
        self.attribute(into)?;
        self.each_attribute(into)?;
        self.one(TokenKind::BracketR)?;
        self.line_end()
    }

    // Attributes, up to the bracket.
    fn each_attribute(
        &mut self,
        into: &mut Vec<WrittenAttribute<'src>>,
    ) -> Result<(), ParseError<'src>>
        ensures ok { OnOk result (prepended (map written_view into.old.items)
            (many (is_at 0 kinds.BracketR) attribute (unread self.old))
            ≡ Read (map written_view into.new.items) (unread self.new)) }
        ensures refused { IfErr result (IsPhraseRefused (many (is_at 0 kinds.BracketR) attribute (unread self.old))) }
    {
        for _ in 0..self.cursor.rest().len() {
            if self.cursor.is_at(0, TokenKind::BracketR) {
                return Ok(());
            }
            self.attribute(into)?;
        }
        Ok(())
    }

    // An attribute, with the comma after it, if it is not the last one.
    #[tactic(auto, unfolding(crate::specs::Attributes::attribute))]
    fn attribute(&mut self, into: &mut Vec<WrittenAttribute<'src>>) -> Result<(), ParseError<'src>>
        ensures ok { OnOk result (prepended (map written_view into.old.items) (attribute (unread self.old))
            ≡ Read (map written_view into.new.items) (unread self.new)) }
        ensures refused { IfErr result (IsPhraseRefused (attribute (unread self.old))) }
    {
        let name = self.name()?;
        match self.attribute_of(name) {
            Ok(attribute) => match followed(attribute, self.comma_unless(TokenKind::BracketR)) {
                Ok(attribute) => pushed(into, attribute),
                Err(refusal) => Err(refusal),
            },
            Err(refusal) => Err(refusal),
        }
    }

    // What comes after the name of an attribute.
    #[tactic(auto, unfolding(crate::specs::Attributes::attribute_of))]
    fn attribute_of(&mut self, name: Name<'src>) -> Result<WrittenAttribute<'src>, ParseError<'src>>
        ensures ok { IfOk result
            (λ w. attribute_of (name_view name.entry) (unread self.old) ≡ Read (written_view w) (unread self.new)) }
        ensures refused { IfErr result (IsPhraseRefused (attribute_of (name_view name.entry) (unread self.old))) }
    {
        match name.lexeme() {
            "arg" => match self.arg(name) {
                Ok(arg) => Ok(WrittenAttribute {
                    arg: Some(arg),
                    attribute: Attribute::Other,
                    name,
                }),
                Err(refusal) => Err(refusal),
            },
            "env" => match self.env() {
                Ok(attribute) => Ok(WrittenAttribute {
                    arg: None,
                    attribute,
                    name,
                }),
                Err(refusal) => Err(refusal),
            },
            _ => match self.ignored_arguments() {
                Ok(()) => Ok(WrittenAttribute {
                    arg: None,
                    attribute: Attribute::Other,
                    name,
                }),
                Err(refusal) => Err(refusal),
            },
        }
    }

    // `(KEY, VALUE)`, after `env`.
    #[tactic(auto, unfolding(crate::specs::Attributes::env))]
    fn env(&mut self) -> Result<Attribute<'src>, ParseError<'src>>
        ensures ok { IfOk result (λ a. env (unread self.old) ≡ Read (attribute_view a) (unread self.new)) }
        ensures refused { IfErr result (IsPhraseRefused (env (unread self.old))) }
    {
        self.one(TokenKind::ParenL)?;
        match self.expression() {
            Ok(key) => match paired(key, self.env_value()) {
                Ok((key, value)) => Ok(Attribute::Env(key, value)),
                Err(refusal) => Err(refusal),
            },
            Err(refusal) => Err(refusal),
        }
    }

    // `, VALUE)`.
    #[tactic(auto, unfolding(crate::specs::Attributes::env_value))]
    fn env_value(&mut self) -> Result<Expression<'src>, ParseError<'src>>
        ensures ok { IfOk result (λ e. env_value (unread self.old) ≡ Read (view e) (unread self.new)) }
        ensures refused { IfErr result (IsPhraseRefused (env_value (unread self.old))) }
    {
        self.one(TokenKind::Comma)?;
        match self.expression() {
            Ok(value) => followed(value, self.close()),
            Err(refusal) => Err(refusal),
        }
    }
}
