// Variables by their names.

ghost use Rattle.std.specs.Prelude.{IfErr, IfOk, IfSome, None, OnOk, Some, map, nat_eq, string_bytes, ℕ, ◌≡◌};
ghost use Rattle.std.specs.List.{list_any};
ghost use Rattle.just_syntax.specs.Prelude.{assignment_view, first_unknown, given, has_number, number_named, pair_view};
ghost use Rattle.just_syntax.specs.Prelude.{text_numbered, unknown_name};

use crate::assignment::Assignment;
use crate::number::Number;
use crate::out_of_memory::OutOfMemory;
use crate::table::Table;
use crate::variable_error::VariableError;
use std::alloc::Global;
use std::collections::{HashMap, HashSet};

/// The number of the variable with this name, if there is such an assignment. It allocates nothing.
pub fn number_of(assignments: &Table<Assignment>, name: &str) -> Option<Number>
    ensures { result ≡ number_named (map assignment_view assignments.now) name.now }
{
    match assignments.get(name) {
        Some(assignment) => Some(assignment.number),
        None => None,
    }
}

/// The values that pairs of a name and a text give to variables from outside, by the variables' numbers. If several
/// pairs have the same number, the last counts.
///
/// # Errors
///
/// `Unknown` with the first name that no assignment has. A caller that wants such names ignored removes them first.
/// `OutOfMemory`, if there is no memory for the map or for the copy of a text. Either way nothing is created.
pub fn overrides_of<'name>(
    alloc: Global,
    assignments: &Table<Assignment>,
    pairs: &'name [(String, String)],
) -> Result<HashMap<Number, String>, VariableError<'name>>
    ensures given { IfOk result (λ overrides. (n : ℕ)
        → text_numbered overrides n ≡ given (map assignment_view assignments.now) (map pair_view pairs.now) n) }
    ensures known { OnOk result (first_unknown (map assignment_view assignments.now)
        (map (λ pair. string_bytes pair.0) pairs.now) ≡ None) }
    ensures unknown { IfErr result
        (λ error. IfSome (unknown_name error) (λ name. first_unknown (map assignment_view assignments.now)
        (map (λ pair. string_bytes pair.0) pairs.now) ≡ Some name)) }
{
    let mut overrides = HashMap::new(alloc);
    for (name, text) in pairs {
        let Some(number) = number_of(assignments, name) else {
            return Err(VariableError::Unknown(name.as_str()));
        };
        overrides.insert(number, String::from_str(alloc, text)?)?;
    }
    Ok(overrides)
}

/// The set of the numbers of the variables with these names, as a run takes its references.
///
/// # Errors
///
/// `Unknown` with the first name that no assignment has. `OutOfMemory`, if there is no memory for the numbers or for
/// the set. Either way nothing is created.
pub fn references_of<'name>(
    alloc: Global,
    assignments: &Table<Assignment>,
    names: &[&'name str],
) -> Result<HashSet<Number>, VariableError<'name>>
    ensures refers { IfOk result (λ set. (n : ℕ) → list_any (nat_eq n) set.keys
        ≡ list_any (has_number (map assignment_view assignments.now) n) (map (λ name. name.now) names.now)) }
    ensures known { OnOk result (first_unknown (map assignment_view assignments.now) (map (λ name. name.now) names.now)
        ≡ None) }
    ensures unknown { IfErr result
        (λ error. IfSome (unknown_name error) (λ name. first_unknown (map assignment_view assignments.now)
        (map (λ name. name.now) names.now) ≡ Some name)) }
{
    let numbers = numbers_of(alloc, assignments, names)?;
    Ok(set_of(alloc, &numbers)?)
}

/// The set of some numbers.
///
/// # Errors
///
/// `OutOfMemory`, if there is no memory for the set: nothing is created.
pub fn set_of(alloc: Global, numbers: &[Number]) -> Result<HashSet<Number>, OutOfMemory>
    ensures { IfOk result (λ set. (n : ℕ) → list_any (nat_eq n) set.keys
        ≡ list_any (λ number. nat_eq number n) numbers.now) }
{
    let mut set = HashSet::new(alloc);
    for number in numbers {
        set.insert(*number)?;
    }
    Ok(set)
}

// The numbers of the names, in their order.
fn numbers_of<'name>(
    alloc: Global,
    assignments: &Table<Assignment>,
    names: &[&'name str],
) -> Result<Vec<Number>, VariableError<'name>>
    ensures numbers { IfOk result (λ numbers. map (λ number. Some number) numbers.items
        ≡ map (number_named (map assignment_view assignments.now)) (map (λ name. name.now) names.now)) }
    ensures known { OnOk result (first_unknown (map assignment_view assignments.now) (map (λ name. name.now) names.now)
        ≡ None) }
    ensures unknown { IfErr result
        (λ error. IfSome (unknown_name error) (λ name. first_unknown (map assignment_view assignments.now)
        (map (λ name. name.now) names.now) ≡ Some name)) }
{
    let mut numbers = Vec::with_capacity(alloc, names.len())?;
    for name in names {
        let Some(number) = number_of(assignments, name) else {
            return Err(VariableError::Unknown(name));
        };
        numbers.push(number)?;
    }
    Ok(numbers)
}
