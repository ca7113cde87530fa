// The built-in functions that take two arguments, one or two, or at least two.

ghost use Rattle.std.specs.Prelude.{IfOk, [], length, string_bytes, ◌<◌, ◌∷◌, ◌≡◌};
ghost use Rattle.just_builtins.specs.Prelude.{AskedBy, Binary, BinaryOptToValue, BinaryOptValueStrToValue, BinaryPlus};
ghost use Rattle.just_builtins.specs.Prelude.{BinaryStrValue, Frames, HasOneEach, Replies, ValueBinary, ValueBinaryOpt};
ghost use Rattle.just_builtins.specs.Prelude.{all_joined, argument_at, function_context_view, reply, texts_given};
ghost use Rattle.just_builtins.specs.Prelude.{values_given};
ghost use Rattle.just_host.specs.Function as function;

use crate::argument::text_at;
use crate::builtin::Builtin;
use crate::call_fault::CallFault;
use crate::environment::environment;
use crate::words::{append, prepend};
use just_host::function::Context;
use just_host::host::Host;
use just_syntax::out_of_memory::OutOfMemory;
use just_text::{join_list, pattern, split};
use just_value::value::Value;
use std::alloc::Global;
use std::path::PathBuf;

/// The reply of a built-in function that takes two texts.
pub fn binary(alloc: Global, builtin: Builtin, arguments: &[Value]) -> Result<Value, CallFault>
    requires count { length arguments.now ≡ 2 }
    requires texts { HasOneEach arguments.now }
    ensures { (c : function.Context) → Replies (Binary builtin) (reply builtin c arguments.now) result }
{
    let pattern = text_at(arguments, 1);
    trimmed(alloc, builtin, text_at(arguments, 0), pattern)
}

// The first text with the second removed at one end.
fn trimmed(alloc: Global, builtin: Builtin, text: &str, pattern: &str) -> Result<Value, CallFault>
    ensures { (c : function.Context)
        → Replies (Binary builtin) (reply builtin c ((text.now ∷ []) ∷ (pattern.now ∷ []) ∷ [])) result }
{
    let text = match builtin {
        Builtin::TrimEndMatch => pattern::trim_end_match(text, pattern),
        Builtin::TrimEndMatches => pattern::trim_end_matches(text, pattern),
        Builtin::TrimStartMatch => pattern::trim_start_match(text, pattern),
        Builtin::TrimStartMatches => pattern::trim_start_matches(text, pattern),
        _ => return Err(CallFault::Internal),
    };
    Ok(Value::from_text(alloc, text)?)
}

/// The reply of a built-in function that takes a text and an optional text.
pub fn binary_opt_to_value(
    alloc: Global,
    builtin: Builtin,
    text: &str,
    separator: Option<&str>,
) -> Result<Value, CallFault>
    ensures { (c : function.Context)
        → Replies (BinaryOptToValue builtin) (reply builtin c ((text.now ∷ []) ∷ texts_given separator.entry))
        result }
{
    match builtin {
        Builtin::Split => {
            let pieces = match separator {
                Some(separator) => split::split(alloc, text, separator)?,
                None => split::split_whitespace(alloc, text)?,
            };
            Ok(Value::from_elements(pieces))
        }
        _ => Err(CallFault::Internal),
    }
}

/// The reply of a built-in function that takes a value and an optional text.
pub fn binary_opt_value_str_to_value(
    alloc: Global,
    builtin: Builtin,
    value: &Value,
    separator: Option<&str>,
) -> Result<Value, CallFault>
    ensures { (c : function.Context)
        → Replies (BinaryOptValueStrToValue builtin) (reply builtin c (value.now ∷ texts_given separator.entry))
        result }
{
    match builtin {
        Builtin::JoinList => {
            let separator = separator.unwrap_or(" ");
            let text = join_list::join_list(alloc, value.elements(), separator)?;
            Ok(Value::from_string(alloc, text)?)
        }
        _ => Err(CallFault::Internal),
    }
}

/// The reply of a built-in function that takes at least two texts.
pub fn binary_plus(alloc: Global, builtin: Builtin, arguments: &[Value]) -> Result<Value, CallFault>
    requires { HasOneEach arguments.now }
    ensures { (c : function.Context) → Replies (BinaryPlus builtin) (reply builtin c arguments.now) result }
{
    match builtin {
        Builtin::Join => {
            let path = joined(alloc, arguments)?;
            Ok(Value::from_string(alloc, path)?)
        }
        _ => Err(CallFault::Internal),
    }
}

// At least the length of the joined paths in bytes, or `usize::MAX`.
fn joined_len(arguments: &[Value]) -> usize
    requires { HasOneEach arguments.now }
{
    let mut len: usize = 0;
    for i in 0..arguments.len() {
        len = len
            .saturating_add(text_at(arguments, i).len())
            .saturating_add(1);
    }
    len
}

// Joins paths from left to right, in one buffer.
fn joined(alloc: Global, arguments: &[Value]) -> Result<String, OutOfMemory>
    requires { HasOneEach arguments.now }
    ensures { IfOk result (λ path. string_bytes path ≡ all_joined [] arguments.now) }
{
    let mut path = PathBuf::with_capacity(alloc, joined_len(arguments))?;
    for i in 0..arguments.len() {
        path.push(text_at(arguments, i))?;
    }
    Ok(path.into_string())
}

/// The reply of a built-in function that takes a text and a value.
pub fn binary_str_value(
    alloc: Global,
    context: &Context,
    builtin: Builtin,
    arguments: &[Value],
) -> Result<Value, CallFault>
    requires count { length arguments.now ≡ 2 }
    requires text { length (argument_at arguments.now 0) ≡ 1 }
    ensures { Replies (BinaryStrValue builtin) (reply builtin (function_context_view context.now) arguments.now)
        result }
{
    let text = text_at(arguments, 0);
    extended(alloc, context, builtin, text, &arguments[1])
}

// The value with the text added to each element.
fn extended(
    alloc: Global,
    context: &Context,
    builtin: Builtin,
    text: &str,
    value: &Value,
) -> Result<Value, CallFault>
    ensures { Replies (BinaryStrValue builtin)
        (reply builtin (function_context_view context.now) ((text.now ∷ []) ∷ value.now ∷ [])) result }
{
    let lists = context.execution_context.module.settings.lists;
    match builtin {
        Builtin::Append => Ok(append(alloc, lists, text, value)?),
        Builtin::Prepend => Ok(prepend(alloc, lists, text, value)?),
        _ => Err(CallFault::Internal),
    }
}

/// The questions and the reply of a built-in function that takes two values.
pub fn value_binary<'call, H: Host>(
    alloc: Global,
    host: &'call mut H,
    context: &'call Context,
    builtin: Builtin,
    value: &Value,
    other: &Value,
) -> Result<Value, CallFault>
    ensures { (shown : Frames)
        → AskedBy (ValueBinary builtin) H.step host.old shown
        (reply builtin (function_context_view context.now) (value.now ∷ other.now ∷ [])) result host.new }
{
    match builtin {
        Builtin::EnvVarOrDefault => environment(alloc, host, context, value, Some(other)),
        _ => Err(CallFault::Internal),
    }
}

/// The questions and the reply of a built-in function that takes a value and an optional value.
pub fn value_binary_opt<'call, H: Host>(
    alloc: Global,
    host: &'call mut H,
    context: &'call Context,
    builtin: Builtin,
    value: &Value,
    other: Option<&Value>,
) -> Result<Value, CallFault>
    ensures { (shown : Frames)
        → AskedBy (ValueBinaryOpt builtin) H.step host.old shown
        (reply builtin (function_context_view context.now) (value.now ∷ values_given other.entry)) result host.new }
{
    match builtin {
        Builtin::Env => environment(alloc, host, context, value, other),
        _ => Err(CallFault::Internal),
    }
}
