// A host that records the questions it is asked.

ghost use Rattle.std.specs.Prelude.{OnErr, OnOk, [], map, ◌++◌, ◌∷◌, ◌≡◌};
ghost use Rattle.just_host.specs.Prelude.{inner_host, recorded_view, records_view};

use crate::command_question::CommandQuestion;
use crate::host::Host;
use crate::number_question::NumberQuestion;
use crate::recorded::Recorded;
use crate::text_answer::TextAnswer;
use crate::text_question::TextQuestion;
use just_syntax::out_of_memory::OutOfMemory;
use just_syntax::text::Text;
use just_value::error::CommandFault;
use std::alloc::Global;
use std::mem;

/// A host that records each question, and then asks another host. If there is no memory for the record, the other host
/// is not asked, and the answer is `OutOfMemory`.
#[derive(Debug, Drop)]
pub struct Recorder<H> {
    host: H,
    questions: Vec<Recorded>,
}

impl<H> Recorder<H> {
    /// A recorder around `host`, without questions. It allocates nothing.
    pub fn new(alloc: Global, host: H) -> Recorder<H>
        ensures host { inner_host result ≡ host }
        ensures questions { records_view result ≡ [] }
    {
        Recorder {
            host,
            questions: Vec::new(alloc),
        }
    }

    /// The questions so far, in order. It allocates nothing.
    pub fn questions(&self) -> &[Recorded]
        ensures { map recorded_view result.now ≡ records_view self.now }
    {
        &self.questions
    }

    /// The questions so far, in order, moved out of the recorder: it then has those that are asked from here on. It
    /// allocates nothing. So an explainer has the questions of each call that it makes.
    pub fn take_questions(&mut self, alloc: Global) -> Vec<Recorded>
        ensures host { inner_host self.new ≡ inner_host self.old }
        ensures taken { map recorded_view result.items ≡ records_view self.old }
        ensures none_left { records_view self.new ≡ [] }
    {
        mem::replace(&mut self.questions, Vec::new(alloc))
    }

    /// The inner host. It allocates nothing.
    pub fn into_inner(self) -> H
        ensures { result ≡ inner_host self }
    {
        self.host
    }

    // Adds a question after the others. If memory runs out, it is not added.
    fn keep(&mut self, question: Recorded) -> Result<(), OutOfMemory>
        ensures host { inner_host self.new ≡ inner_host self.old }
        ensures ok { OnOk result (records_view self.new ≡ records_view self.old ++ recorded_view question ∷ []) }
        ensures err { OnErr result (records_view self.new ≡ records_view self.old) }
    {
        self.questions.push(question)?;
        Ok(())
    }
}

impl<H: Host> Host for Recorder<H> {
    ghost use Rattle.just_host.specs.Recorded.{RecordsAndAsks};
    ghost use Rattle.just_host.specs.View.{inner_host, records_view};

    ghost step = { λ old question answer new. RecordsAndAsks H.step (inner_host old) (records_view old) question answer
        (inner_host new) (records_view new) };

    fn command(
        &mut self,
        alloc: Global,
        question: &CommandQuestion,
    ) -> Result<String, CommandFault> {
        self.keep(Recorded::of_command(alloc, question)?)?;
        self.host.command(alloc, question)
    }

    fn text(&mut self, alloc: Global, question: TextQuestion) -> TextAnswer {
        let Ok(recorded) = Recorded::of_text(alloc, question) else {
            return TextAnswer::OutOfMemory;
        };
        match self.keep(recorded) {
            Ok(()) => self.host.text(alloc, question),
            Err(_) => TextAnswer::OutOfMemory,
        }
    }

    fn exists(&mut self, alloc: Global, path: &str) -> Result<bool, OutOfMemory> {
        let copy = Text::from_str(alloc, path)?;
        self.keep(Recorded::Exists(copy))?;
        self.host.exists(alloc, path)
    }

    fn number(&mut self, alloc: Global, question: NumberQuestion) -> Result<u64, OutOfMemory> {
        self.keep(Recorded::Number(question))?;
        self.host.number(alloc, question)
    }

    fn stack_budget(&self) -> usize {
        self.host.stack_budget()
    }
}
