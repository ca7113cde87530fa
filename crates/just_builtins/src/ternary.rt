// The built-in functions that take three arguments.

ghost use Rattle.std.specs.Prelude.{[], length, ◌∷◌, ◌≡◌};
ghost use Rattle.just_builtins.specs.Prelude.{Context, HasOneEach, Replies, Ternary, reply};

use crate::argument::text_at;
use crate::builtin::Builtin;
use crate::call_fault::CallFault;
use just_text::replace::replace;
use just_value::value::Value;
use std::alloc::Global;

/// The reply of a built-in function that takes three texts.
pub fn ternary(alloc: Global, builtin: Builtin, arguments: &[Value]) -> Result<Value, CallFault>
    requires count { length arguments.now ≡ 3 }
    requires texts { HasOneEach arguments.now }
    ensures { (c : Context) → Replies (Ternary builtin) (reply builtin c arguments.now) result }
{
    let from = text_at(arguments, 1);
    let to = text_at(arguments, 2);
    replaced(alloc, builtin, text_at(arguments, 0), from, to)
}

// The first text with each occurrence of the second replaced by the third.
fn replaced(
    alloc: Global,
    builtin: Builtin,
    text: &str,
    from: &str,
    to: &str,
) -> Result<Value, CallFault>
    ensures { (c : Context)
        → Replies (Ternary builtin) (reply builtin c ((text.now ∷ []) ∷ (from.now ∷ []) ∷ (to.now ∷ []) ∷ []))
        result }
{
    match builtin {
        Builtin::Replace => {
            let text = replace(alloc, text, from, to)?;
            Ok(Value::from_string(alloc, text)?)
        }
        _ => Err(CallFault::Internal),
    }
}
