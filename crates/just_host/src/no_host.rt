// A host that provides nothing.

ghost use Rattle.just_host.specs.Prelude.{Failed, UnlessNoMemory, fault_view, not_run};

use crate::command_question::CommandQuestion;
use crate::host::Host;
use crate::number_question::NumberQuestion;
use crate::text_answer::TextAnswer;
use crate::text_question::TextQuestion;
use just_syntax::out_of_memory::OutOfMemory;
use just_value::error::CommandFault;
use std::alloc::Global;

/// The message of the fault with which [`NoHost`] answers a command.
pub const NOT_RUN: &str = "commands are not run";

/// A host that provides nothing: a command gets the fault [`NOT_RUN`], a text is `Absent`, nothing exists at any path,
/// and each number is 0. It allocates only the fault's message; if that fails, the answer to the command is
/// `OutOfMemory`.
///
/// A host that answers only one kind of question can delegate the others to it.
#[derive(Clone, Copy, Debug, PartialEq, Eq)]
pub struct NoHost;

impl Host for NoHost {
    ghost use Rattle.just_host.specs.NoHost.{AnswersNothing};

    ghost step = { λ _ question answer _. AnswersNothing question.blind answer };

    fn command(
        &mut self,
        alloc: Global,
        _question: &CommandQuestion,
    ) -> Result<String, CommandFault> {
        Err(not_run(alloc))
    }

    fn text(&mut self, _alloc: Global, _question: TextQuestion) -> TextAnswer {
        TextAnswer::Absent
    }

    fn exists(&mut self, _alloc: Global, _path: &str) -> Result<bool, OutOfMemory> {
        Ok(false)
    }

    fn number(&mut self, _alloc: Global, _question: NumberQuestion) -> Result<u64, OutOfMemory> {
        Ok(0)
    }
}

// The fault that commands are not run, or `OutOfMemory` if its message cannot be allocated.
fn not_run(alloc: Global) -> CommandFault
    ensures { UnlessNoMemory (Failed (fault_view result)) not_run }
{
    match String::from_str(alloc, NOT_RUN) {
        Ok(text) => CommandFault::Fault(text),
        Err(_) => CommandFault::OutOfMemory,
    }
}
