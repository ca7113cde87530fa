// Settings.

ghost use Rattle.std.specs.Prelude.{IfSome, option_map, ◌≡◌};
ghost use Rattle.just_syntax.specs.Prelude.{expression_interpreter_view, expression_named, flag_named};
ghost use Rattle.just_syntax.specs.Prelude.{interpreter_named, setting_name, setting_view, view};

use crate::expression::Expression;
use crate::indentation::Indentation;
use crate::interpreter::Interpreter;
use crate::string_literal::StringLiteral;
use crate::token::Token;
use std::alloc::AllocError;

/// A setting of a module and its value.
#[derive(Debug, Drop)]
pub enum Setting<'src> {
    AllowDuplicateRecipes(bool),
    AllowDuplicateVariables(bool),
    DefaultList(bool),
    DefaultScript(bool),
    /// The command that writes the environment file.
    DotenvCommand(Expression<'src>),
    /// The name of the environment file.
    DotenvFilename(Expression<'src>),
    DotenvLoad(bool),
    DotenvOverride(bool),
    /// The path of the environment file.
    DotenvPath(Expression<'src>),
    DotenvRequired(bool),
    Export(bool),
    Fallback(bool),
    Guards(bool),
    IgnoreComments(bool),
    /// One level of indentation, and the token that sets it.
    Indentation(Token<'src>, Indentation),
    Lazy(bool),
    Lists(bool),
    /// The minimum version of the program that the module requires.
    MinimumVersion(StringLiteral<'src>),
    NoCd(bool),
    NoExitMessage(bool),
    PositionalArguments(bool),
    Quiet(bool),
    /// Runs scripts that name no interpreter.
    ScriptInterpreter(Interpreter<Expression<'src>>),
    /// Runs commands and recipe lines.
    Shell(Interpreter<Expression<'src>>),
    /// The directory for temporary directories.
    Tempdir(Expression<'src>),
    Unstable(bool),
    WindowsPowerShell(bool),
    /// Runs commands and recipe lines on Windows.
    WindowsShell(Interpreter<Expression<'src>>),
    /// The directory that recipes run in.
    WorkingDirectory(Expression<'src>),
}

impl<'src> Setting<'src> {
    /// The setting of this name that is on or off, as `Setting::flag("dotenv-load", true)`; `None`, if none that is on
    /// or off has this name. Upstream writes `set dotenv-load` and `set dotenv-load := true` for it.
    pub fn flag(name: &str, value: bool) -> Option<Setting<'src>>
        ensures setting { option_map setting_view result ≡ flag_named name.now value }
        ensures name { IfSome result (λ setting. setting_name (setting_view setting) ≡ name.now) }
    {
        match name {
            "allow-duplicate-recipes" => Some(Setting::AllowDuplicateRecipes(value)),
            "allow-duplicate-variables" => Some(Setting::AllowDuplicateVariables(value)),
            "default-list" => Some(Setting::DefaultList(value)),
            "default-script" => Some(Setting::DefaultScript(value)),
            "dotenv-load" => Some(Setting::DotenvLoad(value)),
            "dotenv-override" => Some(Setting::DotenvOverride(value)),
            "dotenv-required" => Some(Setting::DotenvRequired(value)),
            "export" => Some(Setting::Export(value)),
            "fallback" => Some(Setting::Fallback(value)),
            "guards" => Some(Setting::Guards(value)),
            "ignore-comments" => Some(Setting::IgnoreComments(value)),
            "lazy" => Some(Setting::Lazy(value)),
            "lists" => Some(Setting::Lists(value)),
            "no-cd" => Some(Setting::NoCd(value)),
            "no-exit-message" => Some(Setting::NoExitMessage(value)),
            "positional-arguments" => Some(Setting::PositionalArguments(value)),
            "quiet" => Some(Setting::Quiet(value)),
            "unstable" => Some(Setting::Unstable(value)),
            "windows-powershell" => Some(Setting::WindowsPowerShell(value)),
            _ => None,
        }
    }

    /// The setting of this name that takes an expression, as `tempdir`; `None`, if none that takes an expression has
    /// this name, and then the expression is dropped.
    pub fn of_expression(name: &str, value: Expression<'src>) -> Option<Setting<'src>>
        ensures setting { option_map setting_view result ≡ expression_named name.now (view value.entry) }
        ensures name { IfSome result (λ setting. setting_name (setting_view setting) ≡ name.now) }
    {
        match name {
            "dotenv-command" => Some(Setting::DotenvCommand(value)),
            "dotenv-filename" => Some(Setting::DotenvFilename(value)),
            "dotenv-path" => Some(Setting::DotenvPath(value)),
            "tempdir" => Some(Setting::Tempdir(value)),
            "working-directory" => Some(Setting::WorkingDirectory(value)),
            _ => {
                drop(value);
                None
            }
        }
    }

    /// The setting of this name that takes a command with its first arguments, as `shell`; `None`, if none that takes a
    /// command has this name, and then the command is dropped.
    pub fn of_interpreter(name: &str, value: Interpreter<Expression<'src>>) -> Option<Setting<'src>>
        ensures setting { option_map setting_view result
            ≡ interpreter_named name.now (expression_interpreter_view value.entry) }
        ensures name { IfSome result (λ setting. setting_name (setting_view setting) ≡ name.now) }
    {
        match name {
            "script-interpreter" => Some(Setting::ScriptInterpreter(value)),
            "shell" => Some(Setting::Shell(value)),
            "windows-shell" => Some(Setting::WindowsShell(value)),
            _ => {
                drop(value);
                None
            }
        }
    }

    /// Its name as it is written in a justfile, such as `positional-arguments`.
    pub fn name(&self) -> &'static str
        ensures { result.now ≡ setting_name (setting_view self.now) }
    {
        match self {
            Setting::AllowDuplicateRecipes(_) => "allow-duplicate-recipes",
            Setting::AllowDuplicateVariables(_) => "allow-duplicate-variables",
            Setting::DefaultList(_) => "default-list",
            Setting::DefaultScript(_) => "default-script",
            Setting::DotenvCommand(_) => "dotenv-command",
            Setting::DotenvFilename(_) => "dotenv-filename",
            Setting::DotenvLoad(_) => "dotenv-load",
            Setting::DotenvOverride(_) => "dotenv-override",
            Setting::DotenvPath(_) => "dotenv-path",
            Setting::DotenvRequired(_) => "dotenv-required",
            Setting::Export(_) => "export",
            Setting::Fallback(_) => "fallback",
            Setting::Guards(_) => "guards",
            Setting::IgnoreComments(_) => "ignore-comments",
            Setting::Indentation(_, _) => "indentation",
            Setting::Lazy(_) => "lazy",
            Setting::Lists(_) => "lists",
            Setting::MinimumVersion(_) => "minimum-version",
            Setting::NoCd(_) => "no-cd",
            Setting::NoExitMessage(_) => "no-exit-message",
            Setting::PositionalArguments(_) => "positional-arguments",
            Setting::Quiet(_) => "quiet",
            Setting::ScriptInterpreter(_) => "script-interpreter",
            Setting::Shell(_) => "shell",
            Setting::Tempdir(_) => "tempdir",
            Setting::Unstable(_) => "unstable",
            Setting::WindowsPowerShell(_) => "windows-powershell",
            Setting::WindowsShell(_) => "windows-shell",
            Setting::WorkingDirectory(_) => "working-directory",
        }
    }
}

/// A copy. `AllocError`, if an allocation fails or an expression cannot be copied: nothing is created.
impl Clone for Setting<'_> {
    ghost is_clone = { λ setting copy. setting_view copy ≡ setting_view setting };

    fn clone(&self) -> Result<Self, AllocError> {
        match self {
            Setting::AllowDuplicateRecipes(value) => Ok(Setting::AllowDuplicateRecipes(*value)),
            Setting::AllowDuplicateVariables(value) => Ok(Setting::AllowDuplicateVariables(*value)),
            Setting::DefaultList(value) => Ok(Setting::DefaultList(*value)),
            Setting::DefaultScript(value) => Ok(Setting::DefaultScript(*value)),
            Setting::DotenvCommand(value) => value.clone().map(Setting::DotenvCommand),
            Setting::DotenvFilename(value) => value.clone().map(Setting::DotenvFilename),
            Setting::DotenvLoad(value) => Ok(Setting::DotenvLoad(*value)),
            Setting::DotenvOverride(value) => Ok(Setting::DotenvOverride(*value)),
            Setting::DotenvPath(value) => value.clone().map(Setting::DotenvPath),
            Setting::DotenvRequired(value) => Ok(Setting::DotenvRequired(*value)),
            Setting::Export(value) => Ok(Setting::Export(*value)),
            Setting::Fallback(value) => Ok(Setting::Fallback(*value)),
            Setting::Guards(value) => Ok(Setting::Guards(*value)),
            Setting::IgnoreComments(value) => Ok(Setting::IgnoreComments(*value)),
            Setting::Indentation(token, value) => Ok(Setting::Indentation(*token, *value)),
            Setting::Lazy(value) => Ok(Setting::Lazy(*value)),
            Setting::Lists(value) => Ok(Setting::Lists(*value)),
            Setting::MinimumVersion(value) => value.clone().map(Setting::MinimumVersion),
            Setting::NoCd(value) => Ok(Setting::NoCd(*value)),
            Setting::NoExitMessage(value) => Ok(Setting::NoExitMessage(*value)),
            Setting::PositionalArguments(value) => Ok(Setting::PositionalArguments(*value)),
            Setting::Quiet(value) => Ok(Setting::Quiet(*value)),
            Setting::ScriptInterpreter(value) => value.clone().map(Setting::ScriptInterpreter),
            Setting::Shell(value) => value.clone().map(Setting::Shell),
            Setting::Tempdir(value) => value.clone().map(Setting::Tempdir),
            Setting::Unstable(value) => Ok(Setting::Unstable(*value)),
            Setting::WindowsPowerShell(value) => Ok(Setting::WindowsPowerShell(*value)),
            Setting::WindowsShell(value) => value.clone().map(Setting::WindowsShell),
            Setting::WorkingDirectory(value) => value.clone().map(Setting::WorkingDirectory),
        }
    }
}
