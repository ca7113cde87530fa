// The attribute `arg`.

ghost use Rattle.std.specs.Prelude.{IfErr, IfOk, OnOk, map, ◌≡◌};
ghost use Rattle.just_syntax.specs.View.{literal_view, name_view};
ghost use Rattle.just_expression_parser.specs.Tokens.{is_at};
ghost use Rattle.just_lexer.specs.declared.kind.TokenKind.TheVariants as kinds;
ghost use Rattle.just_parser.specs.Attributes.{arg, arg_option, arg_options, option_named, option_value, string_phrase};
ghost use Rattle.just_parser.specs.Parsed.{IsPhraseRefused, unread};
ghost use Rattle.just_parser.specs.Phrase.{Read, many, prepended};
ghost use Rattle.just_parser.specs.View.{arg_option_view, arg_view};

use crate::arg_attribute::{ArgAttribute, ArgOption};
use crate::outcome::{found, pushed};
use crate::parse_error::ParseError;
use crate::parser::Parser;
use crate::value::literal_of;
use just_lexer::kind::TokenKind;
use just_syntax::name::Name;
use just_syntax::results::followed;
use just_syntax::string_literal::StringLiteral;

impl<'src> Parser<'_, 'src> {
    /// After its name: `('PARAMETER', OPTION, ..)`.
    #[tactic(auto, unfolding(crate::specs::Attributes::arg))]
    pub(crate) fn arg(&mut self, name: Name<'src>) -> Result<ArgAttribute<'src>, ParseError<'src>>
        ensures ok { IfOk result
            (λ a. arg (name_view name.entry) (unread self.old) ≡ Read (arg_view a) (unread self.new)) }
        ensures refused { IfErr result (IsPhraseRefused (arg (name_view name.entry) (unread self.old))) }
    {
        self.one(TokenKind::ParenL)?;
        match self.string() {
            Ok(parameter) => {
                let mut options = Vec::new(self.alloc);
                let filled = self.arg_options(&mut options);
                match followed((options, parameter), filled) {
                    Ok((options, parameter)) => Ok(ArgAttribute {
                        name,
                        options,
                        parameter,
                    }),
                    Err(refusal) => Err(refusal),
                }
            }
            Err(refusal) => Err(refusal),
        }
    }

    /// A string.
    #[tactic(auto, unfolding(crate::specs::Phrase::value_as))]
    pub(crate) fn string(&mut self) -> Result<StringLiteral<'src>, ParseError<'src>>
        ensures ok { IfOk result (λ l. string_phrase (unread self.old) ≡ Read (literal_view l) (unread self.new)) }
        ensures refused { IfErr result (IsPhraseRefused (string_phrase (unread self.old))) }
    {
        let otherwise = self.expected(TokenKind::StringToken);
        match self.value() {
            Ok(value) => found(literal_of(value), otherwise),
            Err(refusal) => Err(refusal),
        }
    }

    // After the name of the parameter: `, OPTION, ..)`.
    #[tactic(auto, unfolding(crate::specs::Attributes::arg_options))]
    fn arg_options(&mut self, into: &mut Vec<ArgOption<'src>>) -> Result<(), ParseError<'src>>
        ensures ok { OnOk result (prepended (map arg_option_view into.old.items) (arg_options (unread self.old))
            ≡ Read (map arg_option_view into.new.items) (unread self.new)) }
        ensures refused { IfErr result (IsPhraseRefused (arg_options (unread self.old))) }
    {
        self.comma_unless(TokenKind::ParenR)?;
        self.each_option(into)?;
        self.one(TokenKind::ParenR)?;
        Ok(())
    }

    // Options, up to the parenthesis.
    fn each_option(&mut self, into: &mut Vec<ArgOption<'src>>) -> Result<(), ParseError<'src>>
        ensures ok { OnOk result (prepended (map arg_option_view into.old.items)
            (many (is_at 0 kinds.ParenR) arg_option (unread self.old))
            ≡ Read (map arg_option_view into.new.items) (unread self.new)) }
        ensures refused { IfErr result (IsPhraseRefused (many (is_at 0 kinds.ParenR) arg_option (unread self.old))) }
    {
        for _ in 0..self.cursor.rest().len() {
            if self.cursor.is_at(0, TokenKind::ParenR) {
                return Ok(());
            }
            self.arg_option(into)?;
        }
        Ok(())
    }

    // An option, with the comma after it, if it is not the last one.
    #[tactic(auto, unfolding(crate::specs::Attributes::arg_option))]
    fn arg_option(&mut self, into: &mut Vec<ArgOption<'src>>) -> Result<(), ParseError<'src>>
        ensures ok { OnOk result (prepended (map arg_option_view into.old.items) (arg_option (unread self.old))
            ≡ Read (map arg_option_view into.new.items) (unread self.new)) }
        ensures refused { IfErr result (IsPhraseRefused (arg_option (unread self.old))) }
    {
        let name = self.name()?;
        self.option_named(name.lexeme(), into)?;
        self.comma_unless(TokenKind::ParenR)
    }

    // What comes after the name of an option.
    #[tactic(auto, unfolding(crate::specs::Attributes::option_named))]
    fn option_named(
        &mut self,
        name: &str,
        into: &mut Vec<ArgOption<'src>>,
    ) -> Result<(), ParseError<'src>>
        ensures ok { OnOk result
            (prepended (map arg_option_view into.old.items) (option_named name.now (unread self.old))
            ≡ Read (map arg_option_view into.new.items) (unread self.new)) }
        ensures refused { IfErr result (IsPhraseRefused (option_named name.now (unread self.old))) }
    {
        match name {
            "flag" => pushed(into, ArgOption::Flag),
            "multiple" => pushed(into, ArgOption::Multiple),
            "value" => self.option_value(into),
            _ => self.ignored_value(),
        }
    }

    // `= e`, after `value`.
    #[tactic(auto, unfolding(crate::specs::Attributes::option_value))]
    fn option_value(&mut self, into: &mut Vec<ArgOption<'src>>) -> Result<(), ParseError<'src>>
        ensures ok { OnOk result (prepended (map arg_option_view into.old.items) (option_value (unread self.old))
            ≡ Read (map arg_option_view into.new.items) (unread self.new)) }
        ensures refused { IfErr result (IsPhraseRefused (option_value (unread self.old))) }
    {
        self.one(TokenKind::Equals)?;
        match self.expression() {
            Ok(value) => pushed(into, ArgOption::Value(value)),
            Err(refusal) => Err(refusal),
        }
    }
}
