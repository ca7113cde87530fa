// What the settings of a module came to, by their names.

ghost use Rattle.std.specs.Prelude.{map, option_map, string_bytes, ◌++◌, ◌≡◌};
ghost use Rattle.std.specs.Fmt.{WritesStyledOnOk};
ghost use Rattle.std.specs.List.{flat_map};
ghost use Rattle.just_host.specs.Prelude.{entries, interpreter_shown, is_set, line_of, setting_entry_view};
ghost use Rattle.just_host.specs.Prelude.{setting_value_view, settings_view, value_named};
ghost use Rattle.just_syntax.specs.View.{interpreter_view};
ghost use Rattle.just_value.specs.Prelude.{quoted};

use crate::printed::write_spaced;
use crate::settings::Settings;
use just_syntax::indentation::Indentation;
use just_syntax::interpreter::Interpreter;
use just_syntax::unstyled::write_unstyled;
use just_value::element::Element;
use just_value::value::Value;
use std::fmt;
use std::fmt::Display;

/// The value of a setting.
#[derive(Clone, Copy, Debug)]
pub enum SettingValue<'a> {
    /// On or off.
    Flag(bool),
    /// One level of indentation, if it is set.
    Indentation(Option<Indentation>),
    /// A command and its first arguments, if they are set.
    Interpreter(Option<&'a Interpreter<String>>),
    /// A text, if it is set.
    Text(Option<&'a str>),
    /// Texts; none if they are not set.
    Texts(&'a Value),
}

impl SettingValue<'_> {
    /// Whether it is something else than in a module that sets nothing.
    pub fn is_set(&self) -> bool
        ensures { result ≡ is_set (setting_value_view self.now) }
    {
        match self {
            SettingValue::Flag(value) => *value,
            SettingValue::Indentation(value) => value.is_some(),
            SettingValue::Interpreter(value) => value.is_some(),
            SettingValue::Text(value) => value.is_some(),
            SettingValue::Texts(value) => !value.is_empty(),
        }
    }
}

impl fmt::Display for SettingValue<'_> {
    ghost use Rattle.std.specs.Prelude.{Some};
    ghost use Rattle.just_host.specs.SettingValue.{setting_value_view, value_shown};

    ghost output = { λ value. Some (value_shown (setting_value_view value)) };

    ghost styled_output = { λ value _. Some (value_shown (setting_value_view value)) };

    fn fmt<W: fmt::Write>(&self, f: &mut fmt::Formatter<W>) -> fmt::Result {
        match self {
            SettingValue::Flag(true) => f.write_str("true"),
            SettingValue::Flag(false) => f.write_str("false"),
            SettingValue::Indentation(Some(Indentation::Spaces(number))) => {
                write_unstyled(f, format_args!("{number} spaces"))
            }
            SettingValue::Indentation(Some(Indentation::Tabs)) => f.write_str("tabs"),
            SettingValue::Interpreter(Some(interpreter)) => write_interpreter(f, interpreter),
            SettingValue::Text(Some(text)) => write_unstyled(f, Element(text)),
            SettingValue::Texts(value) => write_unstyled(f, *value),
            SettingValue::Indentation(None)
            | SettingValue::Interpreter(None)
            | SettingValue::Text(None) => f.write_str("none"),
        }
    }
}

// A command and its first arguments in quotes, with spaces between them.
#[tactic(auto, using(just_syntax::proofs::Styled::styled_steps))]
fn write_interpreter<W: fmt::Write>(
    f: &mut fmt::Formatter<W>,
    interpreter: &Interpreter<String>,
) -> fmt::Result
    ensures { WritesStyledOnOk W.write_str_gives f.old result (interpreter_shown (interpreter_view interpreter.now))
        f.new }
{
    Element(&interpreter.command).fmt(f)?;
    write_spaced(f, &interpreter.arguments)
}

impl Settings {
    /// The value of each setting by its name in a justfile, in the byte order of the names, whether it is set or not.
    /// The minimum version is none of them: it concerns the reader of the file.
    pub fn entries(&self) -> [(&'static str, SettingValue<'_>); 28]
        ensures { map setting_entry_view result ≡ entries (settings_view self.now) }
    {
        [
            (
                "allow-duplicate-recipes",
                SettingValue::Flag(self.allow_duplicate_recipes),
            ),
            (
                "allow-duplicate-variables",
                SettingValue::Flag(self.allow_duplicate_variables),
            ),
            ("default-list", SettingValue::Flag(self.default_list)),
            ("default-script", SettingValue::Flag(self.default_script)),
            ("dotenv-command", SettingValue::Texts(&self.dotenv_command)),
            (
                "dotenv-filename",
                SettingValue::Texts(&self.dotenv_filename),
            ),
            ("dotenv-load", SettingValue::Flag(self.dotenv_load)),
            ("dotenv-override", SettingValue::Flag(self.dotenv_override)),
            ("dotenv-path", SettingValue::Texts(&self.dotenv_path)),
            ("dotenv-required", SettingValue::Flag(self.dotenv_required)),
            ("export", SettingValue::Flag(self.export)),
            ("fallback", SettingValue::Flag(self.fallback)),
            ("guards", SettingValue::Flag(self.guards)),
            ("ignore-comments", SettingValue::Flag(self.ignore_comments)),
            ("indentation", SettingValue::Indentation(self.indentation)),
            ("lazy", SettingValue::Flag(self.lazy)),
            ("lists", SettingValue::Flag(self.lists)),
            ("no-cd", SettingValue::Flag(self.no_cd)),
            ("no-exit-message", SettingValue::Flag(self.no_exit_message)),
            (
                "positional-arguments",
                SettingValue::Flag(self.positional_arguments),
            ),
            ("quiet", SettingValue::Flag(self.quiet)),
            (
                "script-interpreter",
                SettingValue::Interpreter(self.script_interpreter.as_ref()),
            ),
            ("shell", SettingValue::Interpreter(self.shell.as_ref())),
            ("tempdir", SettingValue::Text(self.tempdir.as_deref())),
            ("unstable", SettingValue::Flag(self.unstable)),
            (
                "windows-powershell",
                SettingValue::Flag(self.windows_powershell),
            ),
            (
                "windows-shell",
                SettingValue::Interpreter(self.windows_shell.as_ref()),
            ),
            (
                "working-directory",
                SettingValue::Text(self.working_directory.as_deref()),
            ),
        ]
    }

    /// The value of the setting with a name, such as `positional-arguments`, if there is such a setting.
    pub fn get(&self, name: &str) -> Option<SettingValue<'_>>
        ensures { option_map setting_value_view result ≡ value_named name.now (entries (settings_view self.now)) }
    {
        value_named(&self.entries(), name)
    }
}

// The value with a name among pairs of a name and a value.
fn value_named<'a>(entries: &[(&str, SettingValue<'a>)], name: &str) -> Option<SettingValue<'a>>
    ensures { option_map setting_value_view result ≡ value_named name.now (map setting_entry_view entries.now) }
{
    for (key, value) in entries {
        if *key == name {
            return Some(*value);
        }
    }
    None
}

// The settings that are set, a line each, as `positional-arguments = true`.
impl fmt::Display for Settings {
    ghost use Rattle.std.specs.Prelude.{Some};
    ghost use Rattle.just_host.specs.SettingValue.{settings_shown};
    ghost use Rattle.just_host.specs.View.{settings_view};

    ghost output = { λ settings. Some (settings_shown (settings_view settings)) };

    ghost styled_output = { λ settings _. Some (settings_shown (settings_view settings)) };

    fn fmt<W: fmt::Write>(&self, f: &mut fmt::Formatter<W>) -> fmt::Result {
        write_entries(f, &self.entries())
    }
}

// The lines of the settings that are set.
fn write_entries<W: fmt::Write>(
    f: &mut fmt::Formatter<W>,
    entries: &[(&str, SettingValue)],
) -> fmt::Result
    ensures { WritesStyledOnOk W.write_str_gives f.old result
        (flat_map line_of (map setting_entry_view entries.now)) f.new }
{
    for (name, value) in entries {
        write_entry(f, name, value)?;
    }
    Ok(())
}

// The line of a setting, if it is set.
fn write_entry<W: fmt::Write>(
    f: &mut fmt::Formatter<W>,
    name: &str,
    value: &SettingValue,
) -> fmt::Result
    ensures { WritesStyledOnOk W.write_str_gives f.old result (line_of (name.now, setting_value_view value.now)) f.new }
{
    if value.is_set() {
        write_unstyled(f, format_args!("{name} = {value}\n"))
    } else {
        Ok(())
    }
}
