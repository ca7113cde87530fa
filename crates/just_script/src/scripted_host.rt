// A host that answers by a script.

ghost use Rattle.std.specs.Prelude.{map, option_map, ◌≡◌};
ghost use Rattle.just_script.specs.Prelude.{Replied, UnlessNoMemory, pair_view, replied, script_view, text_for};
ghost use Rattle.just_script.specs.Prelude.{text_replied};

use just_host::command_question::CommandQuestion;
use just_host::host::Host;
use just_host::number_question::NumberQuestion;
use just_host::text_answer::TextAnswer;
use just_host::text_question::TextQuestion;
use just_syntax::out_of_memory::OutOfMemory;
use just_syntax::stack::PROGRAM_STACK_BUDGET;
use just_value::error::CommandFault;
use std::alloc::Global;
use std::vec::IntoIter;

/// A host that answers by a script. A command with a fixed text gets that text; any other command gets the next of the
/// replies, or the fault `no reply` after the last. Each other kind of question takes its answers from a list, in
/// order, and gets `Absent`, `false` or 0 after the last. The stack budget of evaluation is 7,872 KiB.
#[derive(Debug, Drop)]
pub struct ScriptedHost {
    always: Vec<(String, String)>,
    replies: IntoIter<Result<String, CommandFault>>,
    texts: IntoIter<TextAnswer>,
    exists: IntoIter<bool>,
    numbers: IntoIter<u64>,
}

impl ScriptedHost {
    /// A host with these answers. `always` has commands and their fixed texts; for each command the last pair counts.
    /// It allocates nothing, so commands are searched for in `always` linearly.
    pub fn new(
        always: Vec<(String, String)>,
        replies: Vec<Result<String, CommandFault>>,
        texts: Vec<TextAnswer>,
        exists: Vec<bool>,
        numbers: Vec<u64>,
    ) -> ScriptedHost
        ensures always { (script_view result).always ≡ map pair_view always.items }
        ensures replies { (script_view result).replies ≡ map replied replies.items }
        ensures texts { (script_view result).texts ≡ map text_replied texts.items }
        ensures exists { (script_view result).exists ≡ exists.items }
        ensures numbers { (script_view result).numbers ≡ numbers.items }
    {
        ScriptedHost {
            always,
            replies: replies.into_iter(),
            texts: texts.into_iter(),
            exists: exists.into_iter(),
            numbers: numbers.into_iter(),
        }
    }
}

impl Host for ScriptedHost {
    ghost use Rattle.just_script.specs.Script.{AnswersByScript};
    ghost use Rattle.just_script.specs.View.{script_view};

    ghost step = { λ old question answer new. AnswersByScript (script_view old) question.blind answer
        (script_view new) };

    fn command(
        &mut self,
        alloc: Global,
        question: &CommandQuestion,
    ) -> Result<String, CommandFault> {
        if let Some(text) = text_for(&self.always, question.command) {
            return copied(alloc, text);
        }
        match self.replies.next() {
            Some(reply) => reply,
            None => Err(CommandFault::Fault(String::from_str(alloc, "no reply")?)),
        }
    }

    fn text(&mut self, _alloc: Global, _question: TextQuestion) -> TextAnswer {
        self.texts.next().unwrap_or(TextAnswer::Absent)
    }

    fn exists(&mut self, _alloc: Global, _path: &str) -> Result<bool, OutOfMemory> {
        Ok(self.exists.next().unwrap_or(false))
    }

    fn number(&mut self, _alloc: Global, _question: NumberQuestion) -> Result<u64, OutOfMemory> {
        Ok(self.numbers.next().unwrap_or(0))
    }

    fn stack_budget(&self) -> usize {
        PROGRAM_STACK_BUDGET
    }
}

// The text of the last pair with this command.
fn text_for<'a>(always: &'a [(String, String)], command: &str) -> Option<&'a str>
    ensures { option_map (λ text. text.now) result ≡ text_for command.now (map pair_view always.now) }
{
    let mut found: Option<&'a str> = None;
    for (other, text) in always {
        if other.as_str() == command {
            found = Some(text.as_str());
        }
    }
    found
}

// A copy of a text, as a command's output.
fn copied(alloc: Global, text: &str) -> Result<String, CommandFault>
    ensures { UnlessNoMemory (replied result) (Replied text.now) }
{
    Ok(String::from_str(alloc, text)?)
}
