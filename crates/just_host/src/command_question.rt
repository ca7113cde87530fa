// Commands to run.

ghost use Rattle.std.specs.Prelude.{IfOk, OnOk, map, string_bytes, ◌++◌, ◌≡◌};
ghost use Rattle.just_host.specs.Prelude.{command_line, command_view};

use crate::config::Config;
use crate::printed::write_command;
use crate::settings::Settings;
use just_syntax::out_of_memory::OutOfMemory;
use just_value::scope::Scope;
use std::alloc::Global;
use std::collections::BTreeMap;
use std::fmt;

/// A command to run, and everything that it runs with.
#[derive(Clone, Copy)]
pub struct CommandQuestion<'src, 'run, 'question> {
    /// The text that the shell gets.
    pub command: &'question str,
    /// The words that the shell gets after the command, if the command takes arguments.
    pub arguments: Option<&'question [String]>,
    /// The recipe's environment.
    pub env: &'question BTreeMap<String, String>,
    /// The variables that are visible to the command; those with `export` are exported.
    pub scope: &'question Scope<'src, 'run>,
    pub config: &'run Config,
    pub dotenv: &'run BTreeMap<String, String>,
    pub settings: &'run Settings,
    pub unexports: &'run [String],
    /// The directory that the command runs in.
    pub working_directory: &'question str,
}

impl CommandQuestion<'_, '_, '_> {
    /// The words of the command line, the program first: the shell, its arguments, the command, and then the arguments,
    /// if it takes any. `takes_shell_name` says whether the shell takes its own name before these, as `sh` does after
    /// `-c`; then a copy of the command precedes them, even if the list of arguments is empty. The words are borrowed.
    /// Upstream's `Evaluator::run_command` builds them.
    ///
    /// # Errors
    ///
    /// `OutOfMemory`, if an allocation fails: nothing is created.
    pub fn command_line(
        &self,
        alloc: Global,
        takes_shell_name: bool,
    ) -> Result<Vec<&str>, OutOfMemory>
        ensures { IfOk result (λ words. map (λ word. word.now) words.items ≡ command_line takes_shell_name
            (command_view self.now)) }
    {
        let (shell, arguments) = self.settings.shell(alloc, self.config)?;
        let mut words = Vec::new(alloc);
        words.push(shell)?;
        words.extend_from_slice(&arguments)?;
        words.push(self.command)?;
        if let Some(arguments) = self.arguments {
            if takes_shell_name {
                words.push(self.command)?;
            }
            add_texts(&mut words, arguments)?;
        }
        Ok(words)
    }
}

// Adds texts, borrowed.
fn add_texts<'text>(words: &mut Vec<&'text str>, texts: &'text [String]) -> Result<(), OutOfMemory>
    ensures { OnOk result (map (λ word. word.now) words.new.items ≡ map (λ word. word.now) words.old.items
        ++ map string_bytes texts.now) }
{
    for text in texts {
        words.push(text)?;
    }
    Ok(())
}

// The command and its arguments, if it takes any, as `command "a" "b"`.
impl fmt::Display for CommandQuestion<'_, '_, '_> {
    ghost use Rattle.std.specs.Prelude.{Some};
    ghost use Rattle.just_host.specs.Printed.{printed_question};
    ghost use Rattle.just_host.specs.View.{question_view};

    ghost output = { λ question. Some (printed_question (question_view question).blind) };

    ghost styled_output = { λ question _. Some (printed_question (question_view question).blind) };

    fn fmt<W: fmt::Write>(&self, f: &mut fmt::Formatter<W>) -> fmt::Result {
        write_command(f, self.command, self.arguments)
    }
}

// Each field by its name, the scope last. The format is unspecified.
impl fmt::Debug for CommandQuestion<'_, '_, '_> {
    fn fmt<W: fmt::Write>(&self, f: &mut fmt::Formatter<W>) -> fmt::Result {
        f.debug_struct("CommandQuestion")
            .field("command", &self.command)
            .field("arguments", &self.arguments)
            .field("env", self.env)
            .field("config", self.config)
            .field("dotenv", self.dotenv)
            .field("settings", self.settings)
            .field("unexports", &self.unexports)
            .field("working_directory", &self.working_directory)
            .finish()?;
        f.write_str(" with scope ")?;
        fmt::Debug::fmt(self.scope, f)
    }
}
