// Settings by their names.

use crate::compared::{equal, is_so, same};
use crate::constructors::{pair, variable};
use crate::parts::token;
use just_syntax::indentation::Indentation;
use just_syntax::interpreter::Interpreter;
use just_syntax::setting::Setting;
use just_syntax::string_literal::StringLiteral;
use std::alloc::Global;
use std::process::Abort;

// What a setting takes.
#[derive(Clone, Copy, PartialEq)]
pub(crate) enum Takes {
    Flag,
    Expression,
    Interpreter,
}

// The names of the settings that `Setting` makes by name, what each takes, and how `Debug` begins for it.
pub(crate) const SETTINGS: &[(&str, Takes, &str)] = &[
    (
        "allow-duplicate-recipes",
        Takes::Flag,
        "AllowDuplicateRecipes(true)",
    ),
    (
        "allow-duplicate-variables",
        Takes::Flag,
        "AllowDuplicateVariables(true)",
    ),
    ("default-list", Takes::Flag, "DefaultList(true)"),
    ("default-script", Takes::Flag, "DefaultScript(true)"),
    (
        "dotenv-command",
        Takes::Expression,
        "DotenvCommand(Variable ",
    ),
    (
        "dotenv-filename",
        Takes::Expression,
        "DotenvFilename(Variable ",
    ),
    ("dotenv-load", Takes::Flag, "DotenvLoad(true)"),
    ("dotenv-override", Takes::Flag, "DotenvOverride(true)"),
    ("dotenv-path", Takes::Expression, "DotenvPath(Variable "),
    ("dotenv-required", Takes::Flag, "DotenvRequired(true)"),
    ("export", Takes::Flag, "Export(true)"),
    ("fallback", Takes::Flag, "Fallback(true)"),
    ("guards", Takes::Flag, "Guards(true)"),
    ("ignore-comments", Takes::Flag, "IgnoreComments(true)"),
    ("lazy", Takes::Flag, "Lazy(true)"),
    ("lists", Takes::Flag, "Lists(true)"),
    ("no-cd", Takes::Flag, "NoCd(true)"),
    ("no-exit-message", Takes::Flag, "NoExitMessage(true)"),
    (
        "positional-arguments",
        Takes::Flag,
        "PositionalArguments(true)",
    ),
    ("quiet", Takes::Flag, "Quiet(true)"),
    (
        "script-interpreter",
        Takes::Interpreter,
        "ScriptInterpreter(Interpreter ",
    ),
    ("shell", Takes::Interpreter, "Shell(Interpreter "),
    ("tempdir", Takes::Expression, "Tempdir(Variable "),
    ("unstable", Takes::Flag, "Unstable(true)"),
    ("windows-powershell", Takes::Flag, "WindowsPowerShell(true)"),
    (
        "windows-shell",
        Takes::Interpreter,
        "WindowsShell(Interpreter ",
    ),
    (
        "working-directory",
        Takes::Expression,
        "WorkingDirectory(Variable ",
    ),
];

// Names that make no setting. Two of them are names of settings that have their own constructors.
const OTHERS: &[&str] = &[
    "",
    "Lazy",
    "LAZY",
    "laz",
    "lazy ",
    "lazy-",
    "list",
    "exports",
    "no-",
    "no_cd",
    "dotenv",
    "dotenv-",
    "tempdi",
    "Tempdir",
    "working_directory",
    "windows-shel",
    "windows-powerShell",
    "SHELL",
    "script",
    "indentation",
    "minimum-version",
];

const ALL: [Takes; 3] = [Takes::Flag, Takes::Expression, Takes::Interpreter];

// The setting of a name that takes this.
pub(crate) fn by_name<'src>(
    rt: &impl Abort,
    alloc: Global,
    name: &str,
    takes: Takes,
) -> Option<Setting<'src>> {
    match takes {
        Takes::Flag => Setting::flag(name, true),
        Takes::Expression => Setting::of_expression(name, variable("a")),
        Takes::Interpreter => {
            let interpreter = Interpreter::new(variable("a"), pair(rt, alloc));
            Setting::of_interpreter(name, interpreter)
        }
    }
}

#[test]
fn settings_by_name(rt: HostRuntime) {
    for (name, takes, text) in SETTINGS {
        for given in ALL {
            let wanted = if given == *takes { text } else { "" };
            makes(&rt, rt.alloc(), name, given, wanted);
        }
    }
    for name in OTHERS {
        for given in ALL {
            makes(&rt, rt.alloc(), name, given, "");
        }
    }
}

// A name makes a setting of this name, for which `Debug` begins with a text. Without a text it makes none.
fn makes(rt: &impl Abort, alloc: Global, name: &str, takes: Takes, text: &str) {
    let setting = by_name(rt, alloc, name, takes);
    equal(rt, name, setting.is_some(), !text.is_empty());
    if let Some(setting) = &setting {
        same(rt, setting.name(), name);
        let reported = format!(in alloc; "{setting:?}").expect(rt, "no memory");
        is_so(rt, name, reported.starts_with(text));
    }
    drop(setting);
}

// The settings with their own constructors.
pub(crate) fn indentation<'src>() -> Setting<'src> {
    Setting::Indentation(token("2"), Indentation::Spaces(2))
}

pub(crate) fn minimum_version<'src>(rt: &impl Abort, alloc: Global) -> Setting<'src> {
    let version = StringLiteral::new(alloc, "1.58.0", "'1.58.0'").expect(rt, "no memory");
    Setting::MinimumVersion(version)
}

#[test]
fn settings_of_their_own(rt: HostRuntime) {
    is_named(&rt, indentation(), "indentation");
    is_named(&rt, minimum_version(&rt, rt.alloc()), "minimum-version");
}

fn is_named(rt: &impl Abort, setting: Setting, name: &str) {
    same(rt, setting.name(), name);
    drop(setting);
}
