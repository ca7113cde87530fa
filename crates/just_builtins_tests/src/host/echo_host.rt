// A host that answers commands alone.

ghost use Rattle.just_host.specs.Question.{Replied, UnlessNoMemory};
ghost use Rattle.just_host.specs.View.{replied};

use just_host::command_question::CommandQuestion;
use just_host::host::Host;
use just_host::no_host::NoHost;
use just_host::number_question::NumberQuestion;
use just_host::text_answer::TextAnswer;
use just_host::text_question::TextQuestion;
use just_syntax::out_of_memory::OutOfMemory;
use just_value::error::CommandFault;
use std::alloc::Global;

/// Answers each command with its own text, and nothing else.
#[derive(Drop)]
pub struct EchoHost;

impl Host for EchoHost {
    ghost use Rattle.just_builtins_tests.specs.EchoHost.{Echoes};

    ghost step = { λ _ question answer _. Echoes question.blind answer };

    fn command(
        &mut self,
        alloc: Global,
        question: &CommandQuestion,
    ) -> Result<String, CommandFault> {
        echo(alloc, question.command)
    }

    fn text(&mut self, alloc: Global, question: TextQuestion) -> TextAnswer {
        NoHost.text(alloc, question)
    }

    fn exists(&mut self, alloc: Global, path: &str) -> Result<bool, OutOfMemory> {
        NoHost.exists(alloc, path)
    }

    fn number(&mut self, alloc: Global, question: NumberQuestion) -> Result<u64, OutOfMemory> {
        NoHost.number(alloc, question)
    }
}

// The text of a command, as its output.
fn echo(alloc: Global, command: &str) -> Result<String, CommandFault>
    ensures { UnlessNoMemory (replied result) (Replied command.now) }
{
    Ok(String::from_str(alloc, command)?)
}
