// A host whose commands have an answerer of their own.

ghost use Rattle.std.specs.Prelude.{◌≡◌};
ghost use Rattle.just_host.specs.Prelude.{Answer, Question, question_view, replied};

use crate::command_question::CommandQuestion;
use crate::host::{Host, STACK_BUDGET};
use crate::no_host::NoHost;
use crate::number_question::NumberQuestion;
use crate::text_answer::TextAnswer;
use crate::text_question::TextQuestion;
use just_syntax::out_of_memory::OutOfMemory;
use just_value::error::CommandFault;
use std::alloc::Global;

/// Answers commands alone. `answers` is its transition relation, as `step` is that of a [`Host`].
pub trait Commands {
    ghost answers: { Self → Question → Answer → Self → Type 0 };

    /// Runs a command and returns its output, or why there is none, as [`Host::command`] does.
    fn answer(&mut self, alloc: Global, question: &CommandQuestion) -> Result<String, CommandFault>
        ensures { answers self.old (question_view question.now) (replied result) self.new };
}

/// A host whose commands `commands` answers, and whose other questions `others` answers. For example a program that
/// answers `whoami` alone needs no more than this:
///
/// ```rust
/// #[derive(Drop)]
/// struct Greeter;
///
/// impl Commands for Greeter {
///     ghost answers = { λ _ _ _ _. Unit {0} };
///
///     fn answer(&mut self, alloc: Global, asked: &CommandQuestion) -> Result<String, CommandFault> {
///         if asked.command == "whoami" {
///             return Ok(String::from_str(alloc, "Ada")?);
///         }
///         NoHost.command(alloc, asked)
///     }
/// }
///
/// let mut host = CommandHost::new(Greeter);
/// ```
#[derive(Debug, Drop)]
pub struct CommandHost<C, H> {
    pub commands: C,
    pub others: H,
    /// The stack budget of evaluation, in bytes.
    pub stack_budget: usize,
}

impl<C> CommandHost<C, NoHost> {
    /// A host of these commands, with [`NoHost`] for the other questions, and with [`STACK_BUDGET`]. It allocates
    /// nothing.
    pub fn new(commands: C) -> CommandHost<C, NoHost>
        ensures commands { result.commands ≡ commands }
        ensures budget { result.stack_budget ≡ STACK_BUDGET }
    {
        CommandHost {
            commands,
            others: NoHost,
            stack_budget: STACK_BUDGET,
        }
    }
}

impl<C: Commands, H: Host> Host for CommandHost<C, H> {
    ghost use Rattle.just_host.specs.CommandHost.{AnswersByKind};

    ghost step = { λ old question answer new. AnswersByKind C.answers H.step old.commands old.others question answer
        new.commands new.others };

    fn command(
        &mut self,
        alloc: Global,
        question: &CommandQuestion,
    ) -> Result<String, CommandFault> {
        self.commands.answer(alloc, question)
    }

    fn text(&mut self, alloc: Global, question: TextQuestion) -> TextAnswer {
        self.others.text(alloc, question)
    }

    fn exists(&mut self, alloc: Global, path: &str) -> Result<bool, OutOfMemory> {
        self.others.exists(alloc, path)
    }

    fn number(&mut self, alloc: Global, question: NumberQuestion) -> Result<u64, OutOfMemory> {
        self.others.number(alloc, question)
    }

    fn stack_budget(&self) -> usize {
        self.stack_budget
    }
}
