// `set` statements.

ghost use Rattle.std.specs.Prelude.{IfErr, IfOk, ◌≡◌};
ghost use Rattle.just_syntax.specs.View.{name_view, set_view, setting_view};
ghost use Rattle.just_parser.specs.Items.{set, setting, setting_with_form};
ghost use Rattle.just_parser.specs.Parsed.{IsPhraseRefused, unread};
ghost use Rattle.just_parser.specs.Phrase.{Read, in_line};

use crate::parse_error::{Fault, ParseError};
use crate::parser::Parser;
use crate::setting_form::{SettingForm, form_of};
use just_syntax::name::Name;
use just_syntax::results::followed;
use just_syntax::set::Set;
use just_syntax::setting::Setting;

impl<'src> Parser<'_, 'src> {
    /// `set NAME`, or `set NAME := value`.
    #[tactic(auto, unfolding(crate::specs::Items::set))]
    pub(crate) fn set(&mut self) -> Result<Set<'src>, ParseError<'src>>
        ensures ok { IfOk result (λ s. set (unread self.old) ≡ Read (set_view s) (unread self.new)) }
        ensures refused { IfErr result (IsPhraseRefused (set (unread self.old))) }
    {
        self.name()?;
        let (name, form) = self.setting_name()?;
        match self.setting_in_line(form, name) {
            Ok(value) => Ok(Set { name, value }),
            Err(refusal) => Err(refusal),
        }
    }

    // The name of a setting, with the form of value that it takes.
    #[tactic(auto, unfolding(crate::specs::Items::setting_with_form))]
    fn setting_name(&mut self) -> Result<(Name<'src>, SettingForm), ParseError<'src>>
        ensures ok { IfOk result
            (λ p. setting_with_form (unread self.old) ≡ Read (name_view p.0, p.1) (unread self.new)) }
        ensures refused { IfErr result (IsPhraseRefused (setting_with_form (unread self.old))) }
    {
        let otherwise = self.unexpected(Fault::UnknownSetting);
        let name = self.name()?;
        match form_of(name.lexeme()) {
            Some(form) => Ok((name, form)),
            None => Err(otherwise),
        }
    }

    // The value of the setting of a name, and the end of its line.
    fn setting_in_line(
        &mut self,
        form: SettingForm,
        name: Name<'src>,
    ) -> Result<Setting<'src>, ParseError<'src>>
        ensures ok { IfOk result (λ s. in_line (setting form name.entry.token.lexeme.now) (unread self.old)
            ≡ Read (setting_view s) (unread self.new)) }
        ensures refused { IfErr result
            (IsPhraseRefused (in_line (setting form name.entry.token.lexeme.now) (unread self.old))) }
    {
        match self.setting(form, name.lexeme()) {
            Ok(value) => followed(value, self.line_end()),
            Err(refusal) => Err(refusal),
        }
    }
}
