// A host that gives one answer.

use just_host::command_question::CommandQuestion;
use just_host::host::Host;
use just_host::number_question::NumberQuestion;
use just_host::text_answer::TextAnswer;
use just_host::text_question::TextQuestion;
use just_syntax::out_of_memory::OutOfMemory;
use just_value::error::CommandFault;
use std::alloc::{AllocError, Global};

/// Its answer. A question of another kind gets `OutOfMemory`.
#[derive(Clone, Copy)]
pub enum Given {
    Text(&'static str),
    Absent,
    NotText(&'static str),
    Fault(&'static str),
    Code(i32),
    Found(bool),
    Number(u64),
    OutOfMemory,
}

/// Gives one answer, and reports its questions, each followed by `;`.
#[derive(Drop)]
pub struct Scripted {
    pub given: Given,
    pub reported: String,
}

impl Scripted {
    pub fn new(alloc: Global, given: Given) -> Scripted {
        Scripted {
            given,
            reported: String::new(alloc),
        }
    }
}

// The answer to a command.
fn command_answer(alloc: Global, given: Given) -> Result<String, CommandFault> {
    match given {
        Given::Text(text) => Ok(String::from_str(alloc, text)?),
        Given::Fault(text) => Err(CommandFault::Fault(String::from_str(alloc, text)?)),
        Given::Code(code) => Err(CommandFault::Code(code)),
        _ => Err(CommandFault::OutOfMemory),
    }
}

// The answer to a question for a text.
fn text_answer(alloc: Global, given: Given) -> Result<TextAnswer, AllocError> {
    Ok(match given {
        Given::Text(text) => TextAnswer::Text(String::from_str(alloc, text)?),
        Given::Absent => TextAnswer::Absent,
        Given::NotText(text) => TextAnswer::NotText(String::from_str(alloc, text)?),
        Given::Fault(text) => TextAnswer::Fault(String::from_str(alloc, text)?),
        _ => TextAnswer::OutOfMemory,
    })
}

impl Host for Scripted {
    ghost use Rattle.std.specs.Prelude.{⊤};

    // Nothing is promised.
    ghost step = { λ old question answer new. ⊤ };

    fn command(
        &mut self,
        alloc: Global,
        question: &CommandQuestion,
    ) -> Result<String, CommandFault> {
        match write!(
            self.reported,
            "{} {:?};",
            question.command, question.arguments
        ) {
            Ok(()) => command_answer(alloc, self.given),
            Err(AllocError) => Err(CommandFault::OutOfMemory),
        }
    }

    fn text(&mut self, alloc: Global, question: TextQuestion) -> TextAnswer {
        match write!(self.reported, "{question:?};") {
            Ok(()) => text_answer(alloc, self.given).unwrap_or(TextAnswer::OutOfMemory),
            Err(AllocError) => TextAnswer::OutOfMemory,
        }
    }

    fn exists(&mut self, _alloc: Global, path: &str) -> Result<bool, OutOfMemory> {
        match (write!(self.reported, "{path};"), self.given) {
            (Ok(()), Given::Found(there)) => Ok(there),
            _ => Err(OutOfMemory),
        }
    }

    fn number(&mut self, _alloc: Global, question: NumberQuestion) -> Result<u64, OutOfMemory> {
        match (write!(self.reported, "{question:?};"), self.given) {
            (Ok(()), Given::Number(number)) => Ok(number),
            _ => Err(OutOfMemory),
        }
    }
}
