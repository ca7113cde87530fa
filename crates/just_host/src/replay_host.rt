// A host that answers from a list.

ghost use Rattle.std.specs.Prelude.{false, map, not, ◌≡◌};
ghost use Rattle.just_host.specs.Replay.{replay_view, reply_view};

use crate::command_question::CommandQuestion;
use crate::host::Host;
use crate::number_question::NumberQuestion;
use crate::text_answer::TextAnswer;
use crate::text_question::TextQuestion;
use just_syntax::out_of_memory::OutOfMemory;
use just_value::error::CommandFault;
use std::alloc::Global;
use std::vec::IntoIter;

/// An answer to one question, of the kind of the question.
#[derive(Debug, Drop)]
pub enum Reply {
    Command(Result<String, CommandFault>),
    Text(TextAnswer),
    Exists(bool),
    Number(u64),
}

/// A host that answers each question with the next of its replies. A question whose next reply is of another kind, or
/// for which none is left, has no answer: a command or a text gets the fault `no answer to command "x"`, nothing exists
/// at a path, and a number is 0. [`is_complete`](ReplayHost::is_complete) says whether each question had its answer.
/// So what a run was told once can be told again, without starting a process.
#[derive(Debug, Drop)]
pub struct ReplayHost {
    replies: IntoIter<Reply>,
    has_missed: bool,
}

impl ReplayHost {
    /// A host with these replies, in the order of the questions. It allocates nothing.
    pub fn new(replies: Vec<Reply>) -> ReplayHost
        ensures { replay_view result ≡ record { replies = map reply_view replies.items; has_missed = false } }
    {
        ReplayHost {
            replies: replies.into_iter(),
            has_missed: false,
        }
    }

    /// Whether each question so far had its answer.
    pub fn is_complete(&self) -> bool
        ensures { result ≡ not (replay_view self.now).has_missed }
    {
        !self.has_missed
    }
}

impl Host for ReplayHost {
    ghost use Rattle.just_host.specs.Replay.{AnswersNext, replay_view};

    ghost step = { λ old question answer new. AnswersNext (replay_view old) question.blind answer (replay_view new) };

    fn command(
        &mut self,
        alloc: Global,
        question: &CommandQuestion,
    ) -> Result<String, CommandFault> {
        if let Some(Reply::Command(reply)) = self.replies.next() {
            return reply;
        }
        self.has_missed = true;
        Err(CommandFault::Fault(format!(in alloc; "no answer to {question}")?))
    }

    fn text(&mut self, alloc: Global, question: TextQuestion) -> TextAnswer {
        if let Some(Reply::Text(answer)) = self.replies.next() {
            return answer;
        }
        self.has_missed = true;
        match format!(in alloc; "no answer to {question}") {
            Ok(fault) => TextAnswer::Fault(fault),
            Err(_) => TextAnswer::OutOfMemory,
        }
    }

    fn exists(&mut self, _alloc: Global, _path: &str) -> Result<bool, OutOfMemory> {
        if let Some(Reply::Exists(answer)) = self.replies.next() {
            return Ok(answer);
        }
        self.has_missed = true;
        Ok(false)
    }

    fn number(&mut self, _alloc: Global, _question: NumberQuestion) -> Result<u64, OutOfMemory> {
        if let Some(Reply::Number(answer)) = self.replies.next() {
            return Ok(answer);
        }
        self.has_missed = true;
        Ok(0)
    }
}
