// Environment variables.

ghost use Rattle.std.specs.Prelude.{Option, option_map};
ghost use Rattle.just_builtins.specs.Prelude.{Asked, AskedOr, Frames, GivesOr, IsReply, function_context_view};
ghost use Rattle.just_builtins.specs.Prelude.{pairs_view, text_replied, variable_not_unicode, variable_unreadable};
ghost use Rattle.just_builtins.specs.Asking as spec;

use crate::call_fault::CallFault;
use crate::message;
use just_host::function::Context;
use just_host::host::Host;
use just_host::text_answer::TextAnswer;
use just_host::text_question::TextQuestion;
use just_syntax::text::Text;
use just_value::value::Value;
use std::alloc::Global;
use std::collections::BTreeMap;

/// The value of the first of these variables that is set, in the dotenv map or else by the host, which is asked for one
/// after another; the default if none is set.
///
/// # Errors
///
/// `Message`, if none is set and there is no default, or if a variable asked for is not text or cannot be read.
/// `OutOfMemory`, if an allocation fails, or if the host reports it.
pub fn environment<'call, H: Host>(
    alloc: Global,
    host: &'call mut H,
    context: &'call Context,
    keys: &Value,
    default: Option<&Value>,
) -> Result<Value, CallFault>
    ensures { (shown : Frames)
        → Asked H.step host.old shown (spec.asks_environment (function_context_view context.now) keys.now
        (option_map (λ value. value.now) default.entry)) result host.new }
{
    let dotenv = context.execution_context.dotenv;
    match first_set(alloc, host, dotenv, keys.elements())? {
        Some(value) => Ok(value),
        None => unset(alloc, keys.elements(), default),
    }
}

// The value of the first of these variables that is set.
fn first_set<H: Host>(
    alloc: Global,
    host: &mut H,
    dotenv: &BTreeMap<String, String>,
    keys: &[Text],
) -> Result<Option<Value>, CallFault>
    ensures { (shown : Frames)
        → AskedOr H.step host.old shown (λ rest. spec.first_set (pairs_view dotenv.now) rest keys.now) result host.new }
{
    for key in keys {
        if let Some(value) = variable(alloc, host, dotenv, key)? {
            return Ok(Some(value));
        }
    }
    Ok(None)
}

// The value of a variable, if it is set.
fn variable<H: Host>(
    alloc: Global,
    host: &mut H,
    dotenv: &BTreeMap<String, String>,
    key: &str,
) -> Result<Option<Value>, CallFault>
    ensures { (shown : Frames)
        → AskedOr H.step host.old shown (spec.variable_reply (pairs_view dotenv.now) key.now) result host.new }
{
    match dotenv.get(key) {
        Some(text) => Ok(Some(Value::from_text(alloc, text)?)),
        None => {
            let answer = host.text(alloc, TextQuestion::Variable(key));
            variable_answered(alloc, key, answer)
        }
    }
}

// The result for the host's answer.
fn variable_answered(
    alloc: Global,
    key: &str,
    answer: TextAnswer,
) -> Result<Option<Value>, CallFault>
    ensures { GivesOr (λ rest. spec.text_answered rest (variable_not_unicode key.now) (variable_unreadable key.now)
        (text_replied answer)) result }
{
    match answer {
        TextAnswer::Text(text) => Ok(Some(Value::from_string(alloc, text)?)),
        TextAnswer::Absent => Ok(None),
        TextAnswer::NotText(text) => {
            let message = message::variable_not_unicode(alloc, key, &text)?;
            Err(CallFault::Message(message))
        }
        TextAnswer::Fault(text) => {
            let message = message::variable_unreadable(alloc, key, &text)?;
            Err(CallFault::Message(message))
        }
        TextAnswer::OutOfMemory => Err(CallFault::OutOfMemory),
    }
}

// The result if none of the variables is set.
fn unset(alloc: Global, keys: &[Text], default: Option<&Value>) -> Result<Value, CallFault>
    ensures { IsReply (spec.none_set keys.now (option_map (λ value. value.now) default.entry))
        result }
{
    match default {
        Some(value) => Ok(value.try_clone(alloc)?),
        None => Err(CallFault::Message(message::no_variable(alloc, keys)?)),
    }
}
