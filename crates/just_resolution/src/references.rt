// Which variables are referenced.

ghost use Rattle.std.specs.Prelude.{◌≡◌};
ghost use Rattle.just_resolution.specs.Prelude.{is_referenced_in};

use just_syntax::number::Number;
use std::collections::HashSet;

/// Whether a number is referenced. Without a set each number is. It does not allocate.
pub fn is_referenced(references: Option<&HashSet<Number>>, number: Number) -> bool
    ensures { result ≡ is_referenced_in references.entry number }
{
    match references {
        Some(references) => references.contains(&number),
        None => true,
    }
}
