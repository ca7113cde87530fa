// Records of questions.

ghost use Rattle.std.specs.Prelude.{IfOk, map, string_bytes, ◌≡◌};
ghost use Rattle.just_host.specs.Prelude.{TextOf, directory_of, kind_of, pairs_view, question_view, recorded};
ghost use Rattle.just_host.specs.Prelude.{recorded_view, text_of, text_question_view};

use crate::command_question::CommandQuestion;
use crate::directory_kind::DirectoryKind;
use crate::number_question::NumberQuestion;
use crate::printed::{write_command, write_text_question};
use crate::text_question::TextQuestion;
use just_syntax::out_of_memory::OutOfMemory;
use just_syntax::text::Text;
use just_syntax::unstyled::write_unstyled;
use just_value::element::Element;
use std::alloc::Global;
use std::collections::BTreeMap;
use std::fmt;

/// The record that a [`Recorder`](crate::recorder::Recorder) keeps of a question: what it asked for, without the scope
/// that it showed and without the fixed context of the run.
#[derive(Debug, Drop)]
pub enum Recorded {
    /// A command, its arguments if it takes any, and the recipe's environment.
    Command {
        command: Text,
        arguments: Option<Vec<String>>,
        env: BTreeMap<String, String>,
    },
    /// A question that a text answers; its variable, path or name, which is empty if it has none; and for `Which` the
    /// directory that the search begins in, which is empty for all others.
    Text {
        kind: TextKind,
        text: Text,
        directory: Text,
    },
    /// Whether something exists at a path.
    Exists(Text),
    /// A question that a number answers.
    Number(NumberQuestion),
}

/// The kinds of questions that a text answers, without their data.
#[derive(Clone, Copy, Debug, PartialEq, Eq)]
pub enum TextKind {
    Variable,
    Directory(DirectoryKind),
    Canonicalize,
    Read,
    Which,
    Executable,
    Arch,
    Os,
    OsFamily,
}

impl Recorded {
    // The record of a command.
    pub(crate) fn of_command(
        alloc: Global,
        question: &CommandQuestion,
    ) -> Result<Recorded, OutOfMemory>
        ensures { IfOk result (λ r. recorded_view r ≡ recorded (question_view question.now).blind) }
    {
        let arguments = match question.arguments {
            Some(arguments) => Some(copies(alloc, arguments)?),
            None => None,
        };
        Ok(Recorded::Command {
            command: Text::from_str(alloc, question.command)?,
            arguments,
            env: env_copy(question.env)?,
        })
    }

    // The record of a question for a text.
    pub(crate) fn of_text(alloc: Global, question: TextQuestion) -> Result<Recorded, OutOfMemory>
        ensures { IfOk result (λ r. recorded_view r ≡ recorded (TextOf (text_question_view question.entry))) }
    {
        Ok(Recorded::Text {
            kind: kind_of(question),
            text: Text::from_str(alloc, text_of(question))?,
            directory: Text::from_str(alloc, directory_of(question))?,
        })
    }
}

// What was asked for, as the question prints it.
impl fmt::Display for Recorded {
    ghost use Rattle.std.specs.Prelude.{Some};
    ghost use Rattle.just_host.specs.Printed.{kept_printed};
    ghost use Rattle.just_host.specs.View.{recorded_view};

    ghost output = { λ recorded. Some (kept_printed (recorded_view recorded)) };

    ghost styled_output = { λ recorded _. Some (kept_printed (recorded_view recorded)) };

    fn fmt<W: fmt::Write>(&self, f: &mut fmt::Formatter<W>) -> fmt::Result {
        match self {
            Recorded::Command {
                command,
                arguments: Some(arguments),
                env: _,
            } => write_command(f, command, Some(arguments)),
            Recorded::Command { command, .. } => write_command(f, command, None),
            Recorded::Text { kind, text, .. } => write_text_question(f, *kind, text),
            Recorded::Exists(path) => {
                let path = Element(path);
                write_unstyled(f, format_args!("exists {path}"))
            }
            Recorded::Number(question) => write_unstyled(f, question),
        }
    }
}

// The kind of a question, without its data.
pub(crate) fn kind_of(question: TextQuestion) -> TextKind
    ensures { result ≡ kind_of (text_question_view question.entry) }
{
    match question {
        TextQuestion::Variable(_) => TextKind::Variable,
        TextQuestion::Directory(directory) => TextKind::Directory(directory),
        TextQuestion::Canonicalize(_) => TextKind::Canonicalize,
        TextQuestion::Read(_) => TextKind::Read,
        TextQuestion::Which { .. } => TextKind::Which,
        TextQuestion::Executable => TextKind::Executable,
        TextQuestion::Arch => TextKind::Arch,
        TextQuestion::Os => TextKind::Os,
        TextQuestion::OsFamily => TextKind::OsFamily,
    }
}

// The variable, path or name of a question, or the empty text if it has none.
pub(crate) fn text_of(question: TextQuestion<'_>) -> &str
    ensures { result.now ≡ text_of (text_question_view question.entry) }
{
    match question {
        TextQuestion::Variable(text)
        | TextQuestion::Canonicalize(text)
        | TextQuestion::Read(text)
        | TextQuestion::Which { name: text, .. } => text,
        _ => "",
    }
}

// The directory that the search for an executable begins in, or the empty text if it is another question.
fn directory_of(question: TextQuestion<'_>) -> &str
    ensures { result.now ≡ directory_of (text_question_view question.entry) }
{
    match question {
        TextQuestion::Which {
            working_directory,
            ..
        } => working_directory,
        _ => "",
    }
}

// A copy of the variables.
fn env_copy(env: &BTreeMap<String, String>) -> Result<BTreeMap<String, String>, OutOfMemory>
    ensures { IfOk result (λ copy. pairs_view copy ≡ pairs_view env.now) }
{
    Ok(env.clone()?)
}

// Copies of the texts.
fn copies(alloc: Global, texts: &[String]) -> Result<Vec<String>, OutOfMemory>
    ensures { IfOk result (λ copies. map string_bytes copies.items ≡ map string_bytes texts.now) }
{
    let mut all = Vec::with_capacity(alloc, texts.len())?;
    for text in texts {
        all.push(String::from_str(alloc, text)?)?;
    }
    Ok(all)
}
