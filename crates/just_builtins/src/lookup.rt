// Executables, searched for from the working directory.

ghost use Rattle.std.specs.Prelude.{[]};
ghost use Rattle.just_builtins.specs.Prelude.{Answers, Asked, Fails, Frames, IsReply, asks_which};
ghost use Rattle.just_builtins.specs.Prelude.{function_context_view, no_executable, text_answered, text_replied};

use crate::call_fault::CallFault;
use crate::message;
use just_host::function::Context;
use just_host::host::Host;
use just_host::text_answer::TextAnswer;
use just_host::text_question::TextQuestion;
use just_value::value::Value;
use std::alloc::Global;

/// The path of the executable with this name; the empty list if there is none.
///
/// # Errors
///
/// `Message`, if the path is not text, or on the host's fault. `OutOfMemory`, if an allocation fails, or if the host
/// reports it.
pub fn which<'call, H: Host>(
    alloc: Global,
    host: &'call mut H,
    context: &'call Context,
    name: &str,
) -> Result<Value, CallFault>
    ensures { (shown : Frames)
        → Asked H.step host.old shown (asks_which (function_context_view context.now) name.now (Answers [])) result
        host.new }
{
    let working_directory = context.execution_context.working_directory(alloc)?;
    let question = TextQuestion::Which {
        name,
        working_directory: &working_directory,
    };
    let answer = host.text(alloc, question);
    which_answered(alloc, answer)
}

// The result for the host's answer.
fn which_answered(alloc: Global, answer: TextAnswer) -> Result<Value, CallFault>
    ensures { IsReply (text_answered (Answers []) (λ text. text) (λ text. text) (text_replied answer)) result }
{
    match answer {
        TextAnswer::Text(text) => Ok(Value::from_string(alloc, text)?),
        TextAnswer::Absent => Ok(Value::new(alloc)),
        TextAnswer::NotText(text) | TextAnswer::Fault(text) => Err(CallFault::Message(text)),
        TextAnswer::OutOfMemory => Err(CallFault::OutOfMemory),
    }
}

/// The path of the executable with this name.
///
/// # Errors
///
/// `Message`, if there is none, if the path is not text, or on the host's fault. `OutOfMemory`, if an allocation fails,
/// or if the host reports it.
pub fn require<'call, H: Host>(
    alloc: Global,
    host: &'call mut H,
    context: &'call Context,
    name: &str,
) -> Result<Value, CallFault>
    ensures { (shown : Frames)
        → Asked H.step host.old shown (asks_which (function_context_view context.now) name.now
        (Fails (no_executable name.now))) result host.new }
{
    let working_directory = context.execution_context.working_directory(alloc)?;
    let question = TextQuestion::Which {
        name,
        working_directory: &working_directory,
    };
    let answer = host.text(alloc, question);
    require_answered(alloc, name, answer)
}

// The result for the host's answer.
fn require_answered(alloc: Global, name: &str, answer: TextAnswer) -> Result<Value, CallFault>
    ensures { IsReply (text_answered (Fails (no_executable name.now)) (λ text. text) (λ text. text)
        (text_replied answer)) result }
{
    match answer {
        TextAnswer::Text(text) => Ok(Value::from_string(alloc, text)?),
        TextAnswer::Absent => Err(CallFault::Message(message::no_executable(alloc, name)?)),
        TextAnswer::NotText(text) | TextAnswer::Fault(text) => Err(CallFault::Message(text)),
        TextAnswer::OutOfMemory => Err(CallFault::OutOfMemory),
    }
}
