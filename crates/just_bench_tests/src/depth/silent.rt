// A host that runs out of memory for every answer.

use just_host::command_question::CommandQuestion;
use just_host::host::Host;
use just_host::number_question::NumberQuestion;
use just_host::text_answer::TextAnswer;
use just_host::text_question::TextQuestion;
use just_syntax::out_of_memory::OutOfMemory;
use just_value::error::CommandFault;
use std::alloc::Global;

/// Sets the stack budget of evaluation, in bytes, and answers nothing.
#[derive(Drop)]
pub(crate) struct Silent {
    pub(crate) budget: usize,
}

impl Host for Silent {
    ghost use Rattle.std.specs.Prelude.{⊤};

    ghost step = { λ _ _ _ _. ⊤ };

    fn command(
        &mut self,
        _alloc: Global,
        _question: &CommandQuestion,
    ) -> Result<String, CommandFault> {
        Err(CommandFault::OutOfMemory)
    }

    fn text(&mut self, _alloc: Global, _question: TextQuestion) -> TextAnswer {
        TextAnswer::OutOfMemory
    }

    fn exists(&mut self, _alloc: Global, _path: &str) -> Result<bool, OutOfMemory> {
        Err(OutOfMemory)
    }

    fn number(&mut self, _alloc: Global, _question: NumberQuestion) -> Result<u64, OutOfMemory> {
        Err(OutOfMemory)
    }

    fn stack_budget(&self) -> usize {
        self.budget
    }
}
