// The form of value that a setting takes.

ghost use Rattle.std.specs.Prelude.{◌≡◌};
ghost use Rattle.std.specs.Option.{is_some};
ghost use Rattle.just_parser.specs.Settings.{form_of};

use just_syntax::setting::Setting;

/// The form of value that a setting takes.
#[derive(Clone, Copy)]
pub(crate) enum SettingForm {
    /// An expression.
    Expression,
    /// `true` or `false`, or nothing.
    Flag,
    /// A string of a tab, or of some spaces.
    Indentation,
    /// A list of a command and its first arguments.
    Interpreter,
    /// A string.
    Version,
}

/// The form of value that the setting of a name takes; `None`, if no setting has this name.
#[tactic(auto, unfolding(crate::specs::Settings::form_of))]
pub(crate) fn form_of(name: &str) -> Option<SettingForm>
    ensures { result ≡ form_of name.now }
{
    match name {
        "script-interpreter" | "shell" | "windows-shell" => Some(SettingForm::Interpreter),
        "dotenv-command" | "dotenv-filename" | "dotenv-path" | "tempdir" | "working-directory" => {
            Some(SettingForm::Expression)
        }
        "indentation" => Some(SettingForm::Indentation),
        "minimum-version" => Some(SettingForm::Version),
        other => {
            if is_some(Setting::flag(other, true)) {
                Some(SettingForm::Flag)
            } else {
                None
            }
        }
    }
}

// Whether there is something, which is dropped.
fn is_some<T: Drop>(option: Option<T>) -> bool
    ensures { result ≡ is_some option }
{
    option.is_some()
}
