// Files, by paths in the working directory.

ghost use Rattle.std.specs.Prelude.{IfOk, false, string_bytes, ◌≡◌};
ghost use Rattle.just_builtins.specs.Prelude.{Answers, Asked, Fails, Frames, IsReply, canonical_not_unicode};
ghost use Rattle.just_builtins.specs.Prelude.{existence_answer, function_context_view, has_lists, not_canonicalized};
ghost use Rattle.just_builtins.specs.Prelude.{not_found, not_read, text_replied, truth};
ghost use Rattle.just_builtins.specs.Asking as spec;

use crate::call_fault::CallFault;
use crate::truth::truth;
use crate::{message, path};
use just_host::function::Context;
use just_host::host::Host;
use just_host::text_answer::TextAnswer;
use just_host::text_question::TextQuestion;
use just_syntax::out_of_memory::OutOfMemory;
use just_value::value::Value;
use std::alloc::Global;

// A path joined to the working directory.
fn in_working_directory(alloc: Global, context: &Context, path: &str) -> Result<String, OutOfMemory>
    ensures { IfOk result (λ text. string_bytes text
        ≡ spec.in_working_directory (function_context_view context.now) path.now) }
{
    let directory = context.execution_context.working_directory(alloc)?;
    path::join(alloc, &directory, path)
}

/// The canonical path, free of links, of the file at a path in the working directory.
///
/// # Errors
///
/// `Message`, if there is none, if it is not text, or on the host's fault. `OutOfMemory`, if an allocation fails, or if
/// the host reports it.
pub fn canonicalize<'call, H: Host>(
    alloc: Global,
    host: &'call mut H,
    context: &'call Context,
    path: &str,
) -> Result<Value, CallFault>
    ensures { (shown : Frames)
        → Asked H.step host.old shown (spec.asks_canonical (function_context_view context.now) path.now) result
        host.new }
{
    let place = in_working_directory(alloc, context, path)?;
    let answer = host.text(alloc, TextQuestion::Canonicalize(&place));
    canonical_answered(alloc, path, answer)
}

// The result for the host's answer.
fn canonical_answered(alloc: Global, path: &str, answer: TextAnswer) -> Result<Value, CallFault>
    ensures { IsReply (spec.text_answered (Fails (not_canonicalized path.now not_found)) canonical_not_unicode
        (not_canonicalized path.now) (text_replied answer)) result }
{
    match answer {
        TextAnswer::Text(text) => Ok(Value::from_string(alloc, text)?),
        TextAnswer::Absent => {
            Err(CallFault::Message(message::not_canonicalized(alloc, path, message::NOT_FOUND)?))
        }
        TextAnswer::NotText(text) => {
            Err(CallFault::Message(message::canonical_not_unicode(alloc, &text)?))
        }
        TextAnswer::Fault(text) => {
            Err(CallFault::Message(message::not_canonicalized(alloc, path, &text)?))
        }
        TextAnswer::OutOfMemory => Err(CallFault::OutOfMemory),
    }
}

/// The contents of the file at a path in the working directory.
///
/// # Errors
///
/// `Message`, if there is none, if its contents are not text, or on the host's fault. `OutOfMemory`, if an allocation
/// fails, or if the host reports it.
pub fn read<'call, H: Host>(
    alloc: Global,
    host: &'call mut H,
    context: &'call Context,
    path: &str,
) -> Result<Value, CallFault>
    ensures { (shown : Frames)
        → Asked H.step host.old shown (spec.asks_contents (function_context_view context.now) path.now) result
        host.new }
{
    let place = in_working_directory(alloc, context, path)?;
    let answer = host.text(alloc, TextQuestion::Read(&place));
    contents_answered(alloc, path, answer)
}

// The result for the host's answer.
fn contents_answered(alloc: Global, path: &str, answer: TextAnswer) -> Result<Value, CallFault>
    ensures { IsReply (spec.text_answered (Fails (not_read path.now not_found)) (not_read path.now) (not_read path.now)
        (text_replied answer)) result }
{
    match answer {
        TextAnswer::Text(text) => Ok(Value::from_string(alloc, text)?),
        TextAnswer::Absent => {
            Err(CallFault::Message(message::not_read(alloc, path, message::NOT_FOUND)?))
        }
        TextAnswer::NotText(text) | TextAnswer::Fault(text) => {
            Err(CallFault::Message(message::not_read(alloc, path, &text)?))
        }
        TextAnswer::OutOfMemory => Err(CallFault::OutOfMemory),
    }
}

/// Whether something exists at a path in the working directory, as a boolean value. Nothing exists at the empty path,
/// for which the host is not asked.
///
/// # Errors
///
/// `OutOfMemory`, if an allocation fails, or if the host reports it.
pub fn path_exists<'call, H: Host>(
    alloc: Global,
    host: &'call mut H,
    context: &'call Context,
    path: &str,
) -> Result<Value, CallFault>
    ensures { let c = function_context_view context.now in (shown : Frames)
        → Asked H.step host.old shown (spec.asks_existence c (truth (has_lists c)) path.now) result host.new }
{
    let lists = context.execution_context.module.settings.lists;
    if path.is_empty() {
        return nowhere(alloc, lists);
    }
    let place = in_working_directory(alloc, context, path)?;
    let answer = host.exists(alloc, &place);
    existence_answered(alloc, lists, answer)
}

// The value for a path where nothing exists.
fn nowhere(alloc: Global, lists: bool) -> Result<Value, CallFault>
    ensures { IsReply (Answers (truth lists false)) result }
{
    Ok(truth(alloc, lists, false)?)
}

// The result for the host's answer.
fn existence_answered(
    alloc: Global,
    lists: bool,
    answer: Result<bool, OutOfMemory>,
) -> Result<Value, CallFault>
    ensures { IsReply (spec.existence_answered (truth lists) (existence_answer answer)) result }
{
    Ok(truth(alloc, lists, answer?)?)
}
