// Whether two definitions are the same.

ghost use Rattle.std.specs.Prelude.{IsTrue, map, option_map, string_bytes, ◌↔◌, ◌≡◌};
ghost use Rattle.just_changes.specs.Prelude.{assignment_view, function_view, parameter_view};

use crate::same::is_same;
use crate::same_token::is_same_token;
use just_syntax::assignment::Assignment;
use just_syntax::function_definition::FunctionDefinition;
use just_syntax::name::Name;
use just_syntax::number::Number;

// Whether both are missing, or both are present and the same.
pub(crate) fn is_same_assignment(one: Option<&Assignment>, other: Option<&Assignment>) -> bool
    ensures { IsTrue result
        ↔ (option_map (λ a. assignment_view a.now) one.entry ≡ option_map (λ a. assignment_view a.now) other.entry) }
{
    match one {
        Some(one) => match other {
            Some(other) => are_assignments_same(one, other),
            None => false,
        },
        None => other.is_none(),
    }
}

fn are_assignments_same(one: &Assignment, other: &Assignment) -> bool
    ensures { IsTrue result ↔ (assignment_view one.now ≡ assignment_view other.now) }
{
    one.number == other.number
        && one.eager == other.eager
        && one.export == other.export
        && one.private == other.private
        && is_same_token(one.name.token, other.name.token)
        && is_same(&one.value, &other.value)
}

// Whether both are missing, or both are present and the same.
pub(crate) fn is_same_function(
    one: Option<&FunctionDefinition>,
    other: Option<&FunctionDefinition>,
) -> bool
    ensures { IsTrue result
        ↔ (option_map (λ f. function_view f.now) one.entry ≡ option_map (λ f. function_view f.now) other.entry) }
{
    match one {
        Some(one) => match other {
            Some(other) => are_functions_same(one, other),
            None => false,
        },
        None => other.is_none(),
    }
}

fn are_functions_same(one: &FunctionDefinition, other: &FunctionDefinition) -> bool
    ensures { IsTrue result ↔ (function_view one.now ≡ function_view other.now) }
{
    is_same_token(one.name.token, other.name.token)
        && are_parameters_same(&one.parameters, &other.parameters)
        && is_same(&one.body, &other.body)
}

fn are_parameters_same(some: &[(Name, Number)], others: &[(Name, Number)]) -> bool
    ensures { IsTrue result ↔ (map parameter_view some.now ≡ map parameter_view others.now) }
{
    let mut left = others.iter();
    for (name, number) in some {
        let Some((other_name, other_number)) = left.next() else {
            return false;
        };
        if *number != *other_number || !is_same_token(name.token, other_name.token) {
            return false;
        }
    }
    left.next().is_none()
}

// Whether both overrides are missing, or both are present and the same.
pub(crate) fn is_same_override(one: Option<&String>, other: Option<&String>) -> bool
    ensures { IsTrue result
        ↔ (option_map (λ s. string_bytes s.now) one.entry ≡ option_map (λ s. string_bytes s.now) other.entry) }
{
    match one {
        Some(one) => match other {
            Some(other) => one.as_str() == other.as_str(),
            None => false,
        },
        None => other.is_none(),
    }
}
