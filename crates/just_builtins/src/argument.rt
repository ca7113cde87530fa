// The arguments of a call.

ghost use Rattle.std.specs.Prelude.{[], drop, length, ◌<◌, ◌∷◌, ◌≡◌, ◌≤◌};
ghost use Rattle.just_builtins.specs.Prelude.{argument_at, texts_given, values_given};

use just_value::value::Value;

/// The text at a position, counted from 0: the only element of the argument there.
pub fn text_at(arguments: &[Value], position: usize) -> &str
    requires there { position < length arguments.now }
    requires text { length (argument_at arguments.now position) ≡ 1 }
    ensures { argument_at arguments.now position ≡ result.now ∷ [] }
{
    let elements = arguments[position].elements();
    &elements[0]
}

/// The second argument, which is a text, if there is one.
pub fn second_text(arguments: &[Value]) -> Option<&str>
    requires few { length arguments.now ≤ 2 }
    requires text { 1 < length arguments.now → length (argument_at arguments.now 1) ≡ 1 }
    ensures { texts_given result ≡ drop 1 arguments.now }
{
    if arguments.len() > 1 {
        Some(text_at(arguments, 1))
    } else {
        None
    }
}

/// The second argument, if there is one.
pub fn second(arguments: &[Value]) -> Option<&Value>
    requires few { length arguments.now ≤ 2 }
    ensures { values_given result ≡ drop 1 arguments.now }
{
    if arguments.len() > 1 {
        Some(&arguments[1])
    } else {
        None
    }
}
