// Booleans as values, and values as booleans.

ghost use Rattle.std.specs.Prelude.{IfOk, ◌≡◌};
ghost use Rattle.just_builtins.specs.Prelude.{IsReply};
ghost use Rattle.just_builtins.specs.Meaning as spec;

use crate::call_fault::CallFault;
use crate::message;
use just_syntax::out_of_memory::OutOfMemory;
use just_value::value::Value;
use std::alloc::Global;

/// A boolean as a value: with lists one element or none, otherwise `true` or `false`.
pub fn truth(alloc: Global, lists: bool, condition: bool) -> Result<Value, OutOfMemory>
    ensures { IfOk result (λ v. v ≡ spec.truth lists condition) }
{
    if lists {
        return Value::from_bool(alloc, condition);
    }
    Value::from_text(alloc, if condition { "true" } else { "false" })
}

/// A value converted to a boolean, as a value.
pub fn value_truth(alloc: Global, lists: bool, value: &Value) -> Result<Value, CallFault>
    ensures { IsReply (spec.says_truth lists (spec.value_truth value.now)) result }
{
    match value.elements() {
        [] => Ok(truth(alloc, lists, false)?),
        [text] => text_truth(alloc, lists, text),
        _ => Err(CallFault::Message(message::many_for_boolean(alloc)?)),
    }
}

// A text converted to a boolean, as a value.
fn text_truth(alloc: Global, lists: bool, text: &str) -> Result<Value, CallFault>
    ensures { IsReply (spec.says_truth lists (spec.text_truth text.now)) result }
{
    if text == "" || text == "0" || text == "false" {
        return Ok(truth(alloc, lists, false)?);
    }
    if text == "1" || text == "true" {
        return Ok(truth(alloc, lists, true)?);
    }
    Err(CallFault::Message(message::not_boolean(alloc, text)?))
}
