// A host around another.

use just_host::command_question::CommandQuestion;
use just_host::host::Host;
use just_host::number_question::NumberQuestion;
use just_host::text_answer::TextAnswer;
use just_host::text_question::TextQuestion;
use just_syntax::out_of_memory::OutOfMemory;
use just_value::error::CommandFault;
use std::alloc::Global;

/// Passes each question on to another host, and remembers that there was one.
#[derive(Drop)]
pub struct Watched<H> {
    pub host: H,
    pub was_asked: bool,
}

impl<H: Host> Host for Watched<H> {
    ghost use Rattle.std.specs.Prelude.{◌≡◌, true};

    // The other host takes the step, and it is remembered.
    ghost step = { λ old question answer new. H.step old.host question answer new.host × (new.was_asked ≡ true) };

    fn command(
        &mut self,
        alloc: Global,
        question: &CommandQuestion,
    ) -> Result<String, CommandFault> {
        self.was_asked = true;
        self.host.command(alloc, question)
    }

    fn text(&mut self, alloc: Global, question: TextQuestion) -> TextAnswer {
        self.was_asked = true;
        self.host.text(alloc, question)
    }

    fn exists(&mut self, alloc: Global, path: &str) -> Result<bool, OutOfMemory> {
        self.was_asked = true;
        self.host.exists(alloc, path)
    }

    fn number(&mut self, alloc: Global, question: NumberQuestion) -> Result<u64, OutOfMemory> {
        self.was_asked = true;
        self.host.number(alloc, question)
    }

    fn stack_budget(&self) -> usize {
        self.host.stack_budget()
    }
}
