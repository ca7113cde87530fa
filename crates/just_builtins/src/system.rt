// Questions about the system and the running program.

ghost use Rattle.just_builtins.specs.Prelude.{Asked, Fails, Frames, IsReply, asks_executable, asks_number, asks_system};
ghost use Rattle.just_builtins.specs.Prelude.{executable_not_unicode, executable_unknown, not_found, unanswered};
ghost use Rattle.just_builtins.specs.Prelude.{number_answer, number_answered, text_answered, text_question_view};
ghost use Rattle.just_builtins.specs.Prelude.{text_replied};

use crate::call_fault::CallFault;
use crate::message;
use just_host::host::Host;
use just_host::number_question::NumberQuestion;
use just_host::text_answer::TextAnswer;
use just_host::text_question::TextQuestion;
use just_syntax::out_of_memory::OutOfMemory;
use just_value::value::Value;
use std::alloc::Global;

/// The system's name for a part of itself, which the built-in function `name` asks for.
///
/// # Errors
///
/// `Message`, if the host has no text. `OutOfMemory`, if an allocation fails, or if the host reports it.
pub fn system<H: Host>(
    alloc: Global,
    host: &mut H,
    name: &str,
    question: TextQuestion,
) -> Result<Value, CallFault>
    ensures { (shown : Frames)
        → Asked H.step host.old shown (asks_system name.now (text_question_view question.entry)) result host.new }
{
    let answer = host.text(alloc, question);
    system_answered(alloc, name, answer)
}

// The result for the host's answer.
fn system_answered(alloc: Global, name: &str, answer: TextAnswer) -> Result<Value, CallFault>
    ensures { IsReply (text_answered (Fails (unanswered name.now)) (λ text. unanswered name.now)
        (λ text. unanswered name.now) (text_replied answer)) result }
{
    match answer {
        TextAnswer::Text(text) => Ok(Value::from_string(alloc, text)?),
        TextAnswer::Absent | TextAnswer::NotText(_) | TextAnswer::Fault(_) => {
            Err(CallFault::Message(message::no_answer(alloc, name)?))
        }
        TextAnswer::OutOfMemory => Err(CallFault::OutOfMemory),
    }
}

/// The path of the running program.
///
/// # Errors
///
/// `Message`, if the host has none, if it is not text, or on a fault. `OutOfMemory`, if an allocation fails, or if the
/// host reports it.
pub fn executable<H: Host>(alloc: Global, host: &mut H) -> Result<Value, CallFault>
    ensures { (shown : Frames) → Asked H.step host.old shown asks_executable result host.new }
{
    let answer = host.text(alloc, TextQuestion::Executable);
    executable_answered(alloc, answer)
}

// The result for the host's answer.
fn executable_answered(alloc: Global, answer: TextAnswer) -> Result<Value, CallFault>
    ensures { IsReply (text_answered (Fails (executable_unknown not_found)) executable_not_unicode executable_unknown
        (text_replied answer)) result }
{
    match answer {
        TextAnswer::Text(text) => Ok(Value::from_string(alloc, text)?),
        TextAnswer::Absent => {
            Err(CallFault::Message(message::executable_unknown(alloc, message::NOT_FOUND)?))
        }
        TextAnswer::NotText(text) => {
            Err(CallFault::Message(message::executable_not_unicode(alloc, &text)?))
        }
        TextAnswer::Fault(text) => {
            Err(CallFault::Message(message::executable_unknown(alloc, &text)?))
        }
        TextAnswer::OutOfMemory => Err(CallFault::OutOfMemory),
    }
}

/// A number, in decimal.
///
/// # Errors
///
/// `OutOfMemory`, if an allocation fails, or if the host reports it.
pub fn number<H: Host>(
    alloc: Global,
    host: &mut H,
    question: NumberQuestion,
) -> Result<Value, CallFault>
    ensures { (shown : Frames) → Asked H.step host.old shown (asks_number question) result host.new }
{
    let answer = host.number(alloc, question);
    number_answered(alloc, answer)
}

// The result for the host's answer.
fn number_answered(alloc: Global, answer: Result<u64, OutOfMemory>) -> Result<Value, CallFault>
    ensures { IsReply (number_answered (number_answer answer)) result }
{
    let digits = answer?.to_string(alloc)?;
    Ok(Value::from_string(alloc, digits)?)
}
