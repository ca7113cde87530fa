// The values of variables.

ghost use Rattle.std.specs.Prelude.{nat_eq, ◌≡◌};
ghost use Rattle.std.specs.List.{list_any};
ghost use Rattle.just_expression.specs.Prelude.{UnlessStopped, ended, frames_view, name_view, named, value_in};

use crate::internal::Reason;
use just_syntax::name::Name;
use just_syntax::number::Number;
use just_value::error::Error;
use just_value::scope::Scope;
use just_value::value::Value;
use std::alloc::Global;
use std::collections::HashSet;

/// The value that a scope has for a number. Without one the variable is refused as `Internal`.
pub fn value_of<'src>(
    alloc: Global,
    scope: &Scope<'src, '_>,
    name: &Name<'src>,
    number: Number,
) -> Result<Value, Error<'src>>
    ensures { UnlessStopped (ended (λ v. v) result)
        (named (name_view name.now) (value_in (frames_view scope.now) number)) }
{
    match scope.value(number) {
        Some(value) => Ok(value.try_clone(alloc)?),
        None => Err(Reason::Unevaluated.error_at(alloc, name)),
    }
}

/// Whether a number is among the open ones. They are searched only if there are any: a stage usually has none.
pub fn is_open(non_const_assignments: &HashSet<Number>, number: Number) -> bool
    ensures { result ≡ list_any (nat_eq number) non_const_assignments.now.keys }
{
    !non_const_assignments.is_empty() && non_const_assignments.contains(&number)
}
