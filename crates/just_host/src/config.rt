// How the program was called.

ghost use Rattle.std.specs.Prelude.{IfOk, ◌≡◌};
ghost use Rattle.just_host.specs.Prelude.{called_in, config_view};

use just_syntax::out_of_memory::OutOfMemory;
use std::alloc::Global;

/// How the program was called.
#[derive(Debug, Drop)]
pub struct Config {
    /// Commands are shown instead of run.
    pub dry_run: bool,
    /// The directory that the program was called in.
    pub invocation_directory: String,
    /// How many recipes may run at once, if that is limited.
    pub jobs: Option<u64>,
    /// What commands write to standard error is not shown.
    pub quiet: bool,
    /// The shell, instead of the one that is set.
    pub shell: Option<String>,
    /// The shell's arguments, instead of those that are set.
    pub shell_args: Option<Vec<String>>,
    /// It is kept, but nothing here reads it.
    pub shell_command: bool,
}

impl Config {
    /// The program called in a directory, without options: commands are run, the number of recipes that may run at once
    /// is not limited, what commands write to standard error is shown, and the shell is the one that is set.
    ///
    /// # Errors
    ///
    /// `OutOfMemory`, if the path cannot be copied: nothing is created.
    pub fn new(alloc: Global, invocation_directory: &str) -> Result<Config, OutOfMemory>
        ensures { IfOk result (λ config. config_view config ≡ called_in invocation_directory.now) }
    {
        Ok(Config {
            dry_run: false,
            invocation_directory: String::from_str(alloc, invocation_directory)?,
            jobs: None,
            quiet: false,
            shell: None,
            shell_args: None,
            shell_command: false,
        })
    }
}
