// Settings of a module.

ghost use Rattle.std.specs.Prelude.{IfOk, map, string_bytes, ◌≡◌};
ghost use Rattle.just_host.specs.Prelude.{config_view, default_shell_arguments, settings_view, shell_of, shell_view};
ghost use Rattle.just_host.specs.Prelude.{unset};

use crate::config::Config;
use just_syntax::indentation::Indentation;
use just_syntax::interpreter::Interpreter;
use just_syntax::out_of_memory::OutOfMemory;
use just_value::value::Value;
use std::alloc::Global;

/// The default shell.
pub const DEFAULT_SHELL: &str = "sh";

/// The default arguments of the shell.
pub const DEFAULT_SHELL_ARGS: &[&str] = &["-cu"];

/// The settings of a module.
#[derive(Debug, Drop, PartialEq, Eq)]
pub struct Settings {
    pub allow_duplicate_recipes: bool,
    pub allow_duplicate_variables: bool,
    pub default_list: bool,
    pub default_script: bool,
    pub dotenv_command: Value,
    pub dotenv_filename: Value,
    pub dotenv_load: bool,
    pub dotenv_override: bool,
    pub dotenv_path: Value,
    pub dotenv_required: bool,
    pub export: bool,
    pub fallback: bool,
    pub guards: bool,
    pub ignore_comments: bool,
    pub indentation: Option<Indentation>,
    pub lazy: bool,
    pub lists: bool,
    pub no_cd: bool,
    pub no_exit_message: bool,
    pub positional_arguments: bool,
    pub quiet: bool,
    pub script_interpreter: Option<Interpreter<String>>,
    pub shell: Option<Interpreter<String>>,
    pub tempdir: Option<String>,
    pub unstable: bool,
    pub windows_powershell: bool,
    pub windows_shell: Option<Interpreter<String>>,
    pub working_directory: Option<String>,
}

impl Settings {
    /// The settings of a module that sets nothing: each flag is false, each value is the empty list, and all else is
    /// absent. It allocates nothing. Upstream's `Settings::default`.
    pub fn new(alloc: Global) -> Settings
        ensures { settings_view result ≡ unset }
    {
        Settings {
            allow_duplicate_recipes: false,
            allow_duplicate_variables: false,
            default_list: false,
            default_script: false,
            dotenv_command: Value::new(alloc),
            dotenv_filename: Value::new(alloc),
            dotenv_load: false,
            dotenv_override: false,
            dotenv_path: Value::new(alloc),
            dotenv_required: false,
            export: false,
            fallback: false,
            guards: false,
            ignore_comments: false,
            indentation: None,
            lazy: false,
            lists: false,
            no_cd: false,
            no_exit_message: false,
            positional_arguments: false,
            quiet: false,
            script_interpreter: None,
            shell: None,
            tempdir: None,
            unstable: false,
            windows_powershell: false,
            windows_shell: None,
            working_directory: None,
        }
    }

    /// The shell and its arguments. If the program was called with one of them or both, these, a missing one replaced
    /// by `sh` or `-cu`; otherwise those that the module sets; otherwise `sh -cu`. The setting for Windows is kept but
    /// not read. The texts are borrowed. Upstream's `Settings::shell`, on systems other than Windows.
    ///
    /// # Errors
    ///
    /// `OutOfMemory`, if an allocation fails: nothing is created.
    pub fn shell<'a>(
        &'a self,
        alloc: Global,
        config: &'a Config,
    ) -> Result<(&'a str, Vec<&'a str>), OutOfMemory>
        ensures { IfOk result (λ shell. shell_view shell ≡ shell_of (settings_view self.now) (config_view config.now)) }
    {
        let (command, arguments) = match (&config.shell, &config.shell_args, &self.shell) {
            (None, None, Some(shell)) => (Some(&shell.command), Some(&shell.arguments)),
            (command, arguments, _) => (command.as_ref(), arguments.as_ref()),
        };
        let command = match command {
            Some(command) => command.as_str(),
            None => DEFAULT_SHELL,
        };
        let arguments = match arguments {
            Some(arguments) => lent(alloc, arguments)?,
            None => default_arguments(alloc)?,
        };
        Ok((command, arguments))
    }
}

// The texts, borrowed.
fn lent(alloc: Global, texts: &[String]) -> Result<Vec<&str>, OutOfMemory>
    ensures { IfOk result (λ v. map (λ word. word.now) v.items ≡ map string_bytes texts.now) }
{
    let mut words = Vec::with_capacity(alloc, texts.len())?;
    for text in texts {
        words.push(text.as_str())?;
    }
    Ok(words)
}

// The default arguments.
fn default_arguments(alloc: Global) -> Result<Vec<&'static str>, OutOfMemory>
    ensures { IfOk result (λ v. map (λ word. word.now) v.items ≡ default_shell_arguments) }
{
    Ok(DEFAULT_SHELL_ARGS.to_vec(alloc)?)
}
