// A host that answers from what is given.

use crate::given::Given;
use just_host::command_question::CommandQuestion;
use just_host::host::{Host, STACK_BUDGET};
use just_host::map_host::MapHost;
use just_host::number_question::NumberQuestion;
use just_host::text_answer::TextAnswer;
use just_host::text_question::TextQuestion;
use just_syntax::out_of_memory::OutOfMemory;
use just_value::error::CommandFault;
use std::alloc::Global;

/// Answers commands, environment variables and other questions for a text from what is given. A variable that is not
/// given is absent, and a path that is not given does not exist. A command or another text that is not given is
/// refused.
#[derive(Drop)]
pub(crate) struct Answers {
    commands: Vec<String>,
    texts: Vec<String>,
    cpus: u64,
    process_id: u64,
    others: MapHost,
}

impl Answers {
    /// The answers that are given.
    pub(crate) fn new(alloc: Global, given: &Given) -> Result<Answers, OutOfMemory> {
        let mut others = MapHost::new(alloc);
        others.variables = given.variables.clone()?;
        for path in &given.existing {
            others.files.insert(path.clone()?, String::new(alloc))?;
        }
        Ok(Answers {
            commands: given.answers.clone()?,
            texts: given.texts.clone()?,
            cpus: given.cpus,
            process_id: given.process_id,
            others,
        })
    }

    // The text that is given for a question as it is printed, or that none is.
    fn given_text(&self, alloc: Global, question: &str) -> Result<TextAnswer, OutOfMemory> {
        match output_of(&self.texts, question) {
            Some(text) => Ok(TextAnswer::Text(String::from_str(alloc, text)?)),
            None => {
                let text = format!(in alloc;
                    "no answer for {question}: give --text '{question}=TEXT'"
                )?;
                Ok(TextAnswer::Fault(text))
            }
        }
    }
}

impl Host for Answers {
    ghost step = { λ _ _ _ _. Unit {0} };

    fn command(
        &mut self,
        alloc: Global,
        question: &CommandQuestion,
    ) -> Result<String, CommandFault> {
        match output_of(&self.commands, question.command) {
            Some(text) => Ok(String::from_str(alloc, text)?),
            None => Err(unanswered(alloc, question.command)?),
        }
    }

    fn text(&mut self, alloc: Global, question: TextQuestion) -> TextAnswer {
        match question {
            TextQuestion::Variable(_) => self.others.text(alloc, question),
            _ => match format!(in alloc; "{question}") {
                Ok(printed) => answer_or_no_memory(self.given_text(alloc, &printed)),
                Err(_) => TextAnswer::OutOfMemory,
            },
        }
    }

    fn exists(&mut self, alloc: Global, path: &str) -> Result<bool, OutOfMemory> {
        self.others.exists(alloc, path)
    }

    fn number(&mut self, _alloc: Global, question: NumberQuestion) -> Result<u64, OutOfMemory> {
        match question {
            NumberQuestion::Cpus => Ok(self.cpus),
            NumberQuestion::ProcessId => Ok(self.process_id),
        }
    }

    fn stack_budget(&self) -> usize {
        STACK_BUDGET
    }
}

// An answer, or that there was no memory for it.
fn answer_or_no_memory(answer: Result<TextAnswer, OutOfMemory>) -> TextAnswer {
    match answer {
        Ok(answer) => answer,
        Err(OutOfMemory) => TextAnswer::OutOfMemory,
    }
}

// The answer to a command or a question: the rest of the last answer that begins with it and `=`.
fn output_of<'a>(answers: &'a [String], question: &str) -> Option<&'a str> {
    let mut output = None;
    for answer in answers {
        if let Some(rest) = after(answer, question) {
            output = Some(rest);
        }
    }
    output
}

// The rest of an answer to a command or a question, if it is one.
fn after<'a>(answer: &'a str, question: &str) -> Option<&'a str> {
    answer.strip_prefix(question)?.strip_prefix('=')
}

// That a command has no answer.
fn unanswered(alloc: Global, command: &str) -> Result<CommandFault, OutOfMemory> {
    let text = format!(in alloc;
        "no answer for command `{command}`: give --answer '{command}=TEXT'"
    )?;
    Ok(CommandFault::Fault(text))
}
