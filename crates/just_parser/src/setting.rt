// The values of settings.

ghost use Rattle.std.specs.Prelude.{IfErr, IfOk, None, Some, ◌≡◌};
ghost use Rattle.just_syntax.specs.View.{expression_interpreter_view, literal_view, setting_view, view};
ghost use Rattle.just_parser.specs.Attributes.{string_phrase};
ghost use Rattle.just_parser.specs.Items.{boolean, colon_equals, flag, indentation_setting, setting};
ghost use Rattle.just_parser.specs.Parsed.{IsPhraseRefusalAt, IsPhraseRefused, unread};
ghost use Rattle.just_parser.specs.Phrase.{Read, expression, value_as};
ghost use Rattle.just_parser.specs.Settings.{interpreter_of};
ghost use Rattle.just_parser.specs.declared.parse_error.Fault.TheVariants.{ExpectedCommand, UnknownSetting};

use crate::outcome::found;
use crate::parse_error::{Fault, ParseError};
use crate::parser::Parser;
use crate::setting_form::SettingForm;
use crate::value::{indentation_of, interpreter_of};
use just_expression_parser::parse_error as syntax;
use just_lexer::kind::TokenKind;
use just_syntax::expression::Expression;
use just_syntax::interpreter::Interpreter;
use just_syntax::setting::Setting;
use just_syntax::string_literal::StringLiteral;

impl<'src> Parser<'_, 'src> {
    /// The value of the setting of this name, which takes a value of this form.
    #[tactic(auto, unfolding(crate::specs::Items::setting))]
    pub(crate) fn setting(
        &mut self,
        form: SettingForm,
        name: &str,
    ) -> Result<Setting<'src>, ParseError<'src>>
        ensures ok { IfOk result
            (λ s. setting form name.now (unread self.old) ≡ Read (setting_view s) (unread self.new)) }
        ensures refused { IfErr result (IsPhraseRefused (setting form name.now (unread self.old))) }
    {
        match form {
            SettingForm::Expression => match self.given_expression() {
                Ok(value) => self.known(Setting::of_expression(name, value)),
                Err(refusal) => Err(refusal),
            },
            SettingForm::Flag => match self.flag() {
                Ok(on) => self.known(Setting::flag(name, on)),
                Err(refusal) => Err(refusal),
            },
            SettingForm::Indentation => self.indentation(),
            SettingForm::Interpreter => match self.interpreter() {
                Ok(interpreter) => self.known(Setting::of_interpreter(name, interpreter)),
                Err(refusal) => Err(refusal),
            },
            SettingForm::Version => match self.version() {
                Ok(literal) => Ok(Setting::MinimumVersion(literal)),
                Err(refusal) => Err(refusal),
            },
        }
    }

    // A setting, if it is one.
    fn known(&self, setting: Option<Setting<'src>>) -> Result<Setting<'src>, ParseError<'src>>
        ensures ok { IfOk result (λ known. setting.entry ≡ Some known) }
        ensures refused { IfErr result
            (λ refusal. IsPhraseRefusalAt UnknownSetting (unread self.now) refusal × (setting.entry ≡ None)) }
    {
        found(setting, self.unexpected(Fault::UnknownSetting))
    }

    // `:=` and an expression.
    fn given_expression(&mut self) -> Result<Expression<'src>, ParseError<'src>>
        ensures ok { IfOk result (λ e. colon_equals expression (unread self.old) ≡ Read (view e) (unread self.new)) }
        ensures refused { IfErr result (IsPhraseRefused (colon_equals expression (unread self.old))) }
    {
        self.one(TokenKind::ColonEquals)?;
        self.expression()
    }

    // `:= true` or `:= false`; without a value, a setting is on.
    #[tactic(auto, unfolding(crate::specs::Items::flag))]
    fn flag(&mut self) -> Result<bool, ParseError<'src>>
        ensures ok { IfOk result (λ on. flag (unread self.old) ≡ Read on (unread self.new)) }
        ensures refused { IfErr result (IsPhraseRefused (flag (unread self.old))) }
    {
        if !self.cursor.is_at(0, TokenKind::ColonEquals) {
            return Ok(true);
        }
        self.one(TokenKind::ColonEquals)?;
        self.boolean()
    }

    // `true` or `false`.
    #[tactic(auto, unfolding(crate::specs::Items::boolean))]
    fn boolean(&mut self) -> Result<bool, ParseError<'src>>
        ensures ok { IfOk result (λ on. boolean (unread self.old) ≡ Read on (unread self.new)) }
        ensures refused { IfErr result (IsPhraseRefused (boolean (unread self.old))) }
    {
        let is_true = self.cursor.is_at_word("true");
        if !is_true && !self.cursor.is_at_word("false") {
            return Err(self.unexpected(Fault::ExpectedBoolean));
        }
        match self.one(TokenKind::Identifier) {
            Ok(_) => Ok(is_true),
            Err(refusal) => Err(refusal),
        }
    }

    // `:=` and a list of a command and its first arguments.
    #[tactic(auto, unfolding(crate::specs::Phrase::value_as))]
    fn interpreter(&mut self) -> Result<Interpreter<Expression<'src>>, ParseError<'src>>
        ensures ok { IfOk result (λ i. colon_equals (value_as ExpectedCommand interpreter_of) (unread self.old)
            ≡ Read (expression_interpreter_view i) (unread self.new)) }
        ensures refused { IfErr result
            (IsPhraseRefused (colon_equals (value_as ExpectedCommand interpreter_of) (unread self.old))) }
    {
        self.one(TokenKind::ColonEquals)?;
        let otherwise = self.unexpected(Fault::ExpectedCommand);
        match self.value() {
            Ok(value) => found(interpreter_of(value), otherwise),
            Err(refusal) => Err(refusal),
        }
    }

    // `:=` and a string.
    fn version(&mut self) -> Result<StringLiteral<'src>, ParseError<'src>>
        ensures ok { IfOk result
            (λ l. colon_equals string_phrase (unread self.old) ≡ Read (literal_view l) (unread self.new)) }
        ensures refused { IfErr result (IsPhraseRefused (colon_equals string_phrase (unread self.old))) }
    {
        self.one(TokenKind::ColonEquals)?;
        self.string()
    }

    // `:=` and the indentation of recipes, by the token of its string.
    #[tactic(auto, unfolding(crate::specs::Items::indentation_setting, crate::specs::Phrase::value_as))]
    fn indentation(&mut self) -> Result<Setting<'src>, ParseError<'src>>
        ensures ok { IfOk result
            (λ s. colon_equals indentation_setting (unread self.old) ≡ Read (setting_view s) (unread self.new)) }
        ensures refused { IfErr result (IsPhraseRefused (colon_equals indentation_setting (unread self.old))) }
    {
        self.one(TokenKind::ColonEquals)?;
        let token = match self.cursor.rest().first() {
            Some(lexeme) => lexeme.token,
            None => {
                let fault = Fault::Syntax(syntax::Fault::ExpectedExpression);
                return Err(self.unexpected(fault));
            }
        };
        let otherwise = self.unexpected(Fault::ExpectedIndentation);
        match self.value() {
            Ok(value) => {
                let indentation = found(indentation_of(&value), otherwise);
                drop(value);
                match indentation {
                    Ok(indentation) => Ok(Setting::Indentation(token, indentation)),
                    Err(refusal) => Err(refusal),
                }
            }
            Err(refusal) => Err(refusal),
        }
    }
}
