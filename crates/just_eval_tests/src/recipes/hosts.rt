// A host that reports what it is asked, and fails from some question on.

use crate::bindings::report_frame;
use crate::recipes::around::DIRECTORY;
use crate::recipes::failing::Failing;
use crate::recipes::texts::add;
use just_host::command_host::{CommandHost, Commands};
use just_host::command_question::CommandQuestion;
use just_host::host::Host;
use just_host::no_host::NoHost;
use just_host::number_question::NumberQuestion;
use just_host::text_answer::TextAnswer;
use just_host::text_question::TextQuestion;
use just_script::fail_at::FailAt;
use just_syntax::out_of_memory::OutOfMemory;
use just_value::element::Element;
use just_value::error::{CommandFault, Error};
use just_value::scope::Scope;
use std::alloc::Global;
use std::collections::BTreeMap;
use std::process::Abort;

/// Answers each command with its own text in angle brackets.
#[derive(Drop)]
struct Brackets {}

impl Commands for Brackets {
    ghost answers = { λ _ _ _ _. Unit {0} };

    fn answer(
        &mut self,
        alloc: Global,
        question: &CommandQuestion,
    ) -> Result<String, CommandFault> {
        let command = question.command;
        Ok(format!(in alloc; "<{command}>")?)
    }
}

/// Asks another host, which may fail, and reports each command: its arguments, its environment, the bindings of the
/// frames that it is shown, and what is fixed in a run, if that is not what a plain module has.
#[derive(Drop)]
pub(crate) struct ReportingHost {
    pub(crate) reported: String,
    host: FailAt<CommandHost<Brackets, NoHost>>,
}

impl ReportingHost {
    /// A host that passes this many questions on, and then fails.
    pub(crate) fn new(alloc: Global, (passed, how): Failing) -> ReportingHost {
        let host = CommandHost::new(Brackets {});
        ReportingHost {
            reported: String::new(alloc),
            host: FailAt::new(host, passed, how),
        }
    }

    /// Adds a text to the report.
    pub(crate) fn report(&mut self, rt: &impl Abort, text: &str) {
        add(rt, &mut self.reported, text);
    }

    /// Reports a text that was evaluated, or its refusal.
    pub(crate) fn report_outcome(&mut self, rt: &impl Abort, outcome: &Result<String, Error>) {
        match outcome {
            Ok(text) => self.report(rt, text),
            Err(error) => self.report(rt, refusal(error)),
        }
    }
}

impl Host for ReportingHost {
    ghost use Rattle.std.specs.Prelude.{⊤};

    ghost step = { λ _ _ _ _. ⊤ };

    fn command(
        &mut self,
        alloc: Global,
        question: &CommandQuestion,
    ) -> Result<String, CommandFault> {
        report_command(alloc, &mut self.reported, question)?;
        self.host.command(alloc, question)
    }

    fn text(&mut self, alloc: Global, question: TextQuestion) -> TextAnswer {
        self.host.text(alloc, question)
    }

    fn exists(&mut self, alloc: Global, path: &str) -> Result<bool, OutOfMemory> {
        self.host.exists(alloc, path)
    }

    fn number(&mut self, alloc: Global, question: NumberQuestion) -> Result<u64, OutOfMemory> {
        self.host.number(alloc, question)
    }
}

/// How a report describes a refusal in short.
pub(crate) fn refusal(error: &Error) -> &'static str {
    match error {
        Error::OutOfMemory => "no memory",
        _ => "refused",
    }
}

// Adds a command, its arguments, its environment, the frames, and what is fixed in a run.
fn report_command(
    alloc: Global,
    reported: &mut String,
    question: &CommandQuestion,
) -> Result<(), OutOfMemory> {
    let command = question.command;
    write!(reported, "? {command}")?;
    if let Some(arguments) = question.arguments {
        report_arguments(reported, arguments)?;
    }
    report_environment(reported, question.env)?;
    report_frames(alloc, question.scope, reported)?;
    report_fixed(reported, question)?;
    reported.push(';')?;
    Ok(())
}

// Adds arguments in brackets, each in quotes.
fn report_arguments(reported: &mut String, arguments: &[String]) -> Result<(), OutOfMemory> {
    reported.push_str(" [")?;
    for argument in arguments {
        let argument = Element(argument);
        write!(reported, "{argument}")?;
    }
    reported.push(']')?;
    Ok(())
}

// Adds what is fixed in a run: the variables of dotenv files, the names that are not exported, and the directory that
// commands are run in, unless that is the search's.
fn report_fixed(reported: &mut String, question: &CommandQuestion) -> Result<(), OutOfMemory> {
    if !question.dotenv.is_empty() {
        reported.push_str(" dotenv")?;
        report_environment(reported, question.dotenv)?;
    }
    for name in question.unexports {
        write!(reported, " without {name}")?;
    }
    if question.working_directory != DIRECTORY {
        let directory = question.working_directory;
        write!(reported, " in {directory}")?;
    }
    Ok(())
}

/// Adds the variables of an environment, each after a space.
pub(crate) fn report_environment(
    reported: &mut String,
    env: &BTreeMap<String, String>,
) -> Result<(), OutOfMemory> {
    for (key, value) in env {
        write!(reported, " {key}={value}")?;
    }
    Ok(())
}

// Adds the frames, innermost first, each in parentheses.
fn report_frames(alloc: Global, scope: &Scope, reported: &mut String) -> Result<(), OutOfMemory> {
    report_frame(scope.frame(), reported)?;
    for frame in scope.outer_frames(alloc)? {
        report_frame(frame, reported)?;
    }
    Ok(())
}
