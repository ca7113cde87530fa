// Look-ups of names of built-in functions. They allocate nothing.

ghost use Rattle.std.specs.Prelude.{IsTrue, map, ◌≡◌};
ghost use Rattle.just_builtins.specs.Prelude.{begins_below, entry_view, rises};
ghost use Rattle.just_builtins.specs.Table as spec;

use crate::function::Function;

/// The function for a name, in a table whose names are in strict order of bytes. A binary search by the first bytes
/// alone finds where the names that begin alike start: few do, and most of them differ in length.
pub fn find_function(table: &[(&str, Function)], name: &str) -> Option<Function>
    requires { IsTrue (rises (map (λ entry. entry.0.now) table.now)) }
    ensures { result ≡ spec.find_in (map entry_view table.now) name.now }
{
    let start = table.partition_point(|entry| begins_below(entry.0, name));
    find_from(&table[start..], name)
}

// Whether a text is below another by their first bytes alone.
fn begins_below(text: &str, other: &str) -> bool
    ensures { result ≡ begins_below text.now other.now }
{
    match (text.as_bytes().first(), other.as_bytes().first()) {
        (_, None) => false,
        (None, Some(_)) => true,
        (Some(first), Some(other)) => first < other,
    }
}

// The function of the first entry with a name.
fn find_from(entries: &[(&str, Function)], name: &str) -> Option<Function>
    ensures { result ≡ spec.find_in (map entry_view entries.now) name.now }
{
    for (other, function) in entries {
        if *other == name {
            return Some(*function);
        }
    }
    None
}

/// Whether a name is among others, which are in strict order of bytes.
pub fn is_among(names: &[&str], name: &str) -> bool
    requires { IsTrue (rises (map (λ name. name.now) names.now)) }
    ensures { result ≡ spec.is_among (map (λ name. name.now) names.now) name.now }
{
    names.binary_search(&name).is_ok()
}
