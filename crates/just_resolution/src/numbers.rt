// The numbers of assignments and parameters: the first that occurs twice, and the first that is bound outside.

ghost use Rattle.std.specs.Prelude.{IfOk, IsTrue, List, OnOk, [], map, option_map, ℕ, ◌++◌, ◌↔◌, ◌∷◌, ◌≡◌};
ghost use Rattle.just_resolution.specs.Prelude.{Assignments, Finds, FindsBound, Frames, Function, IsAmong, IsFaulty};
ghost use Rattle.just_resolution.specs.Prelude.{IsSound, assignment_view, frames_view, function_view, functions_view};
ghost use Rattle.just_resolution.specs.Prelude.{is_number_in, module_fault_view, number_places, numbered_assignments};
ghost use Rattle.just_resolution.specs.Prelude.{numbered_parameters, parameter_places, parameter_view};
ghost use Rattle.just_resolution.specs.Prelude.{recipe_parameter_view};

use crate::fault::Fault;
use just_host::justfile::Justfile;
use just_syntax::assignment::Assignment;
use just_syntax::function_definition::FunctionDefinition;
use just_syntax::name::Name;
use just_syntax::number::Number;
use just_syntax::number_set::NumberSet;
use just_syntax::out_of_memory::OutOfMemory;
use just_syntax::parameter::Parameter;
use just_syntax::results::push;
use just_syntax::table::Table;
use just_value::scope::Scope;
use std::alloc::Global;
use std::collections::BTreeSet;

// The first assignment or parameter with the number of an earlier one or, if there is none, the first parameter that
// `parent` binds.
pub(crate) fn numbering_fault<'src>(
    alloc: Global,
    module: &Justfile<'src>,
    parent: &Scope<'src, '_>,
) -> Result<Option<Fault<'src>>, OutOfMemory>
    ensures { let parameters = numbered_parameters (functions_view «module».now) in let outer =
        frames_view parent.now in
        IfOk result (λ fault. (functions : List Function) (assignments : Assignments)
        → Finds (IsSound functions assignments outer) (IsFaulty functions assignments outer)
        (number_places [] (numbered_assignments (map assignment_view «module».now.assignments) ++ parameters)
        ++ parameter_places parameters) (option_map module_fault_view fault)) }
{
    let mut numbers = assignment_numbers(alloc, &module.assignments)?;
    let first_parameter = numbers.len();
    add_parameter_numbers(&mut numbers, &module.functions)?;
    let duplicate = number_fault(alloc, &numbers)?;
    if duplicate.is_some() {
        return Ok(duplicate);
    }
    Ok(parameter_fault(parent, &numbers[first_parameter..]))
}

/// The names of assignments with their numbers, in the order of the names.
///
/// # Errors
///
/// `OutOfMemory` if an allocation fails.
pub fn assignment_numbers<'src>(
    alloc: Global,
    assignments: &Table<Assignment<'src>>,
) -> Result<Vec<(Name<'src>, Number)>, OutOfMemory>
    ensures { IfOk result (λ numbers. map parameter_view numbers.items
        ≡ numbered_assignments (map assignment_view assignments.now)) }
{
    let mut numbers = Vec::with_capacity(alloc, assignments.len())?;
    for assignment in assignments {
        add_number(&mut numbers, &assignment.name, assignment.number)?;
    }
    Ok(numbers)
}

/// Adds the parameters of functions with their numbers, in the order of the functions' names.
///
/// # Errors
///
/// `OutOfMemory` if an allocation fails.
pub fn add_parameter_numbers<'src>(
    numbers: &mut Vec<(Name<'src>, Number)>,
    functions: &Table<FunctionDefinition<'src>>,
) -> Result<(), OutOfMemory>
    ensures { OnOk result (map parameter_view numbers.new.items ≡ map parameter_view numbers.old.items
        ++ numbered_parameters (map function_view functions.now)) }
{
    for function in functions {
        numbers.extend_from_slice(&function.parameters)?;
    }
    Ok(())
}

// Adds a recipe's parameters with their numbers.
pub(crate) fn add_recipe_numbers<'src>(
    numbers: &mut Vec<(Name<'src>, Number)>,
    parameters: &[Parameter<'src>],
) -> Result<(), OutOfMemory>
    ensures { OnOk result (map parameter_view numbers.new.items ≡ map parameter_view numbers.old.items
        ++ map (λ p. (p.name, p.number)) (map recipe_parameter_view parameters.now)) }
{
    for parameter in parameters {
        add_number(numbers, &parameter.name, parameter.number)?;
    }
    Ok(())
}

// Adds a name with its number.
fn add_number<'src>(
    numbers: &mut Vec<(Name<'src>, Number)>,
    name: &Name<'src>,
    number: Number,
) -> Result<(), OutOfMemory>
    ensures { OnOk result (numbers.new.items ≡ numbers.old.items ++ (name.now, number) ∷ []) }
{
    push(numbers, (*name, number))
}

// The first name with the number of an earlier one.
pub(crate) fn number_fault<'src>(
    alloc: Global,
    numbers: &[(Name<'src>, Number)],
) -> Result<Option<Fault<'src>>, OutOfMemory>
    ensures { IfOk result (λ fault. (functions : List Function) (assignments : Assignments) (outer : Frames)
        → Finds (IsSound functions assignments outer) (IsFaulty functions assignments outer)
        (number_places [] (map parameter_view numbers.now)) (option_map module_fault_view fault)) }
{
    let mut seen = NumberSet::new(alloc, numbers.len())?;
    for (name, number) in numbers {
        if !seen.insert(*number)? {
            return Ok(Some(Fault::DuplicateNumber { variable: *name }));
        }
    }
    Ok(None)
}

// The first of these parameters that a scope binds.
pub(crate) fn parameter_fault<'src>(
    scope: &Scope,
    parameters: &[(Name<'src>, Number)],
) -> Option<Fault<'src>>
    ensures { FindsBound (frames_view scope.now) (map parameter_view parameters.now)
        (option_map module_fault_view result) }
{
    for (name, number) in parameters {
        if scope.value(*number).is_some() {
            return Some(Fault::BoundParameter { parameter: *name });
        }
    }
    None
}

/// The numbers of a function's parameters.
///
/// # Errors
///
/// `OutOfMemory` if an allocation fails.
pub fn own_numbers(
    alloc: Global,
    parameters: &[(Name, Number)],
) -> Result<BTreeSet<Number>, OutOfMemory>
    ensures { IfOk result (λ own. (n : ℕ) → IsTrue (is_number_in own n)
        ↔ IsAmong (map parameter_view parameters.now) n) }
{
    let mut own = BTreeSet::new(alloc);
    for (_, number) in parameters {
        own.insert(*number)?;
    }
    Ok(own)
}
