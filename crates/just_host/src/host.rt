// The host, which answers the questions that evaluation asks.

ghost use Rattle.just_host.specs.Prelude.{Answer, Question, existence_answer, existence_question, number_answer};
ghost use Rattle.just_host.specs.Prelude.{number_question, question_view, replied, text_question, text_replied};

use crate::command_question::CommandQuestion;
use crate::number_question::NumberQuestion;
use crate::text_answer::TextAnswer;
use crate::text_question::TextQuestion;
use just_syntax::out_of_memory::OutOfMemory;
pub use just_syntax::stack::{STACK_BUDGET, TRIED_STACK_BUDGET};
use just_value::error::CommandFault;
use std::alloc::Global;

/// Answers the questions that evaluation asks.
///
/// `step` is the transition relation of the host: in a state, a question may get an answer and lead to a new state. It
/// relates plain texts and numbers, and of a command's scope its frames, innermost first. Each call is one transition.
/// A host that runs out of memory reports it as its answer, and its new state is up to the host.
pub trait Host {
    ghost step: { Self → Question → Answer → Self → Type 0 };

    /// Runs a command and returns its output, which is used unchanged, or why there is no text.
    ///
    /// # Errors
    ///
    /// `Code` with the exit status, if the command failed; `Fault`, if it could not be run or its output is not text;
    /// `OutOfMemory`, if there is no memory for the answer. Each of them is a transition too, and the command may have
    /// been run.
    fn command(&mut self, alloc: Global, question: &CommandQuestion) -> Result<String, CommandFault>
        ensures { step self.old (question_view question.now) (replied result) self.new };

    /// Returns the text that a question asks for, or why there is none: `Absent`, `NotText`, `Fault`, or `OutOfMemory`,
    /// if there is no memory for the answer. Each of them is a transition too.
    fn text(&mut self, alloc: Global, question: TextQuestion) -> TextAnswer
        ensures { step self.old (text_question question.entry) (text_replied result) self.new };

    /// Returns whether something exists at a path. If this cannot be determined, the answer is `false`.
    ///
    /// # Errors
    ///
    /// `OutOfMemory`, if there is no memory to find out. That is a transition too.
    fn exists(&mut self, alloc: Global, path: &str) -> Result<bool, OutOfMemory>
        ensures { step self.old (existence_question path.now) (existence_answer result) self.new };

    /// Returns the number that a question asks for.
    ///
    /// # Errors
    ///
    /// `OutOfMemory`, if there is no memory to find out. That is a transition too.
    fn number(&mut self, alloc: Global, question: NumberQuestion) -> Result<u64, OutOfMemory>
        ensures { step self.old (number_question question) (number_answer result) self.new };

    /// The stack budget of evaluation, in bytes, counted from the frame of its caller. A host on a stack of another
    /// size than 8 MiB returns what suits it, and keeps a reserve for itself. No clause mentions it, since a smaller
    /// budget only makes evaluation run out of memory earlier. It is neither a question nor a transition.
    fn stack_budget(&self) -> usize {
        STACK_BUDGET
    }
}
