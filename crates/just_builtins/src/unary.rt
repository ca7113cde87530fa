// The built-in functions that take one argument.

ghost use Rattle.std.specs.Prelude.{IfOk, [], length, map, option_map, string_bytes, ◌<◌, ◌∷◌, ◌≡◌};
ghost use Rattle.just_builtins.specs.Prelude.{AskedBy, Frames, HasOneEach, IsReply, Replies, RepliesAmong, Unary};
ghost use Rattle.just_builtins.specs.Prelude.{UnaryMap, UnaryPlus, UnaryToValue, ValueUnary, frames_view};
ghost use Rattle.just_builtins.specs.Prelude.{function_context_view, or_fails, past_ascii, reply, says, single_quoted};
ghost use Rattle.just_builtins.specs.Prelude.{unasked_unary, unasked_value_unary};
ghost use Rattle.just_host.specs.Function as function;

use crate::builtin::Builtin;
use crate::call_fault::CallFault;
use crate::environment::environment;
use crate::file::{canonicalize, path_exists, read};
use crate::lookup::{require, which};
use crate::parts::{parent_directory, part, without_extension};
use crate::shell::shell;
use crate::truth::value_truth;
use crate::{message, path};
use just_host::function::Context;
use just_host::host::Host;
use just_syntax::out_of_memory::OutOfMemory;
use just_syntax::text::Text;
use just_text::{case, quote, uri};
use just_value::value::Value;
use std::alloc::Global;

/// The questions and the reply of a built-in function that takes a text and returns one.
pub fn unary<'call, H: Host>(
    alloc: Global,
    host: &'call mut H,
    context: &'call Context,
    builtin: Builtin,
    text: &str,
) -> Result<Value, CallFault>
    ensures { (shown : Frames)
        → AskedBy (Unary builtin) H.step host.old shown
        (reply builtin (function_context_view context.now) ((text.now ∷ []) ∷ [])) result host.new }
{
    match builtin {
        Builtin::Canonicalize => canonicalize(alloc, host, context, text),
        Builtin::Read => read(alloc, host, context, text),
        Builtin::Require => require(alloc, host, context, text),
        _ => unary_unasked(alloc, builtin, text),
    }
}

// The reply of such a function that asks nothing.
fn unary_unasked(alloc: Global, builtin: Builtin, text: &str) -> Result<Value, CallFault>
    ensures { (c : function.Context)
        → RepliesAmong unasked_unary builtin (reply builtin c ((text.now ∷ []) ∷ [])) result }
{
    match builtin {
        Builtin::Capitalize => cased(alloc, case::capitalize(alloc, text)?, text),
        Builtin::EncodeUriComponent => {
            let escaped = uri::encode_uri_component(alloc, text)?;
            Ok(Value::from_string(alloc, escaped)?)
        }
        Builtin::Error => Err(CallFault::Message(String::from_str(alloc, text)?)),
        Builtin::Extension => part(alloc, "extension", path::extension(text), text),
        Builtin::FileName => part(alloc, "file name", path::file_name(text), text),
        Builtin::FileStem => part(alloc, "file stem", path::file_stem(text), text),
        Builtin::Lowercase => cased(alloc, case::lowercase(alloc, text)?, text),
        Builtin::ParentDirectory => parent_directory(alloc, text),
        Builtin::Trim => Ok(Value::from_text(alloc, text.trim())?),
        Builtin::TrimEnd => Ok(Value::from_text(alloc, text.trim_end())?),
        Builtin::TrimStart => Ok(Value::from_text(alloc, text.trim_start())?),
        Builtin::Uppercase => cased(alloc, case::uppercase(alloc, text)?, text),
        Builtin::WithoutExtension => without_extension(alloc, text),
        _ => Err(CallFault::Internal),
    }
}

// A text in another case, or the message that it is not ASCII.
fn cased(alloc: Global, changed: Option<String>, text: &str) -> Result<Value, CallFault>
    ensures { IsReply (or_fails (option_map string_bytes changed) (past_ascii text.now) says) result }
{
    match changed {
        Some(changed) => Ok(Value::from_string(alloc, changed)?),
        None => Err(CallFault::Message(message::past_ascii(alloc, text)?)),
    }
}

/// The reply of a built-in function that takes a value and maps its elements.
pub fn unary_map(alloc: Global, builtin: Builtin, value: &Value) -> Result<Value, CallFault>
    ensures { (c : function.Context) → Replies (UnaryMap builtin) (reply builtin c (value.now ∷ [])) result }
{
    match builtin {
        Builtin::Quote => {
            let texts = quoted(alloc, value.elements())?;
            Ok(Value::from_elements(texts))
        }
        _ => Err(CallFault::Internal),
    }
}

// The texts, each in quotes.
fn quoted(alloc: Global, texts: &[Text]) -> Result<Vec<Text>, OutOfMemory>
    ensures { IfOk result (λ v. v.items ≡ map single_quoted texts.now) }
{
    let mut all = Vec::with_capacity(alloc, texts.len())?;
    for text in texts {
        all.push(Text::from_string(quote::quote(alloc, text)?))?;
    }
    Ok(all)
}

/// The questions and the reply of a built-in function that takes at least one text.
pub fn unary_plus<'call, H: Host>(
    alloc: Global,
    host: &'call mut H,
    context: &'call Context,
    builtin: Builtin,
    arguments: &[Value],
) -> Result<Value, CallFault>
    requires some { 0 < length arguments.now }
    requires texts { HasOneEach arguments.now }
    ensures { AskedBy (UnaryPlus builtin) H.step host.old (frames_view context.now.scope.now)
        (reply builtin (function_context_view context.now) arguments.now) result host.new }
{
    match builtin {
        Builtin::Shell => shell(alloc, host, context, arguments),
        _ => Err(CallFault::Internal),
    }
}

/// The questions and the reply of a built-in function that takes a text and returns a value.
pub fn unary_to_value<'call, H: Host>(
    alloc: Global,
    host: &'call mut H,
    context: &'call Context,
    builtin: Builtin,
    text: &str,
) -> Result<Value, CallFault>
    ensures { (shown : Frames)
        → AskedBy (UnaryToValue builtin) H.step host.old shown
        (reply builtin (function_context_view context.now) ((text.now ∷ []) ∷ [])) result host.new }
{
    match builtin {
        Builtin::PathExists => path_exists(alloc, host, context, text),
        Builtin::Which => which(alloc, host, context, text),
        _ => Err(CallFault::Internal),
    }
}

/// The questions and the reply of a built-in function that takes a value.
pub fn value_unary<'call, H: Host>(
    alloc: Global,
    host: &'call mut H,
    context: &'call Context,
    builtin: Builtin,
    value: &Value,
) -> Result<Value, CallFault>
    ensures { (shown : Frames)
        → AskedBy (ValueUnary builtin) H.step host.old shown
        (reply builtin (function_context_view context.now) (value.now ∷ [])) result host.new }
{
    match builtin {
        Builtin::EnvVar => environment(alloc, host, context, value, None),
        _ => value_unary_unasked(alloc, context, builtin, value),
    }
}

// The reply of such a function that asks nothing.
fn value_unary_unasked(
    alloc: Global,
    context: &Context,
    builtin: Builtin,
    value: &Value,
) -> Result<Value, CallFault>
    ensures { RepliesAmong unasked_value_unary builtin
        (reply builtin (function_context_view context.now) (value.now ∷ [])) result }
{
    match builtin {
        Builtin::Bool => {
            let lists = context.execution_context.module.settings.lists;
            value_truth(alloc, lists, value)
        }
        Builtin::Len => {
            let digits = value.len().to_string(alloc)?;
            Ok(Value::from_string(alloc, digits)?)
        }
        Builtin::Show => {
            let text = value.to_string(alloc)?;
            Ok(Value::from_string(alloc, text)?)
        }
        _ => Err(CallFault::Internal),
    }
}
