// Answers that do not depend on the order of the questions.

use just_case_reader::case::Case;
use just_host::recorded::Recorded;
use just_syntax::out_of_memory::OutOfMemory;
use just_value::error::CommandFault;
use std::alloc::Global;
use std::mem;

/// Turns the replies of a case, which answer the commands of its run in their order, into answers by command. Each of
/// these questions of the run has taken the next reply, unless its command has a fixed answer. Returns false if that is
/// not possible, because a command got two different answers.
pub(crate) fn answer_by_command(
    alloc: Global,
    case: &mut Case,
    questions: &[Recorded],
) -> Result<bool, OutOfMemory> {
    let mut answered = Vec::new(alloc);
    let mut replies = mem::replace(&mut case.replies, Vec::new(alloc)).into_iter();
    for question in questions {
        let Recorded::Command { command, .. } = question else {
            continue;
        };
        if answer_to(&case.always, command).is_some() {
            continue;
        }
        if !add_answer(alloc, &mut answered, command, replies.next())? {
            return Ok(false);
        }
    }
    for pair in answered {
        case.always.push(pair)?;
    }
    Ok(true)
}

// Adds a command with the reply that it got, and returns false if it has another answer, or the reply is none.
fn add_answer(
    alloc: Global,
    answered: &mut Vec<(String, String)>,
    command: &str,
    reply: Option<Result<String, CommandFault>>,
) -> Result<bool, OutOfMemory> {
    let Some(Ok(text)) = reply else {
        return Ok(false);
    };
    if let Some(answer) = answer_to(answered, command) {
        return Ok(answer == text.as_str());
    }
    answered.push((String::from_str(alloc, command)?, text))?;
    Ok(true)
}

// The answer to a command, if it has one.
fn answer_to<'text>(answers: &'text [(String, String)], command: &str) -> Option<&'text str> {
    for (answered, text) in answers {
        if answered.as_str() == command {
            return Some(text);
        }
    }
    None
}
