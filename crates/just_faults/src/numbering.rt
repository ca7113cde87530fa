// Numbers that occur twice, and parameters that are bound outside.

ghost use Rattle.std.specs.Prelude.{IfOk, IsTrue, List, MatchOption, OnOk, [], map, option_map, ℕ, ◌++◌, ◌↔◌, ◌≡◌, ◌⊎◌};
ghost use Rattle.just_faults.specs.Prelude.{AddsFaults, Assignments, BoundParameter, DuplicateNumber, Frames, Function};
ghost use Rattle.just_faults.specs.Prelude.{HasValue, assignment_view, frames_view, functions_view, is_member};
ghost use Rattle.just_faults.specs.Prelude.{module_fault_view, name_view, number_places, numbered_assignments};
ghost use Rattle.just_faults.specs.Prelude.{numbered_parameters, parameter_places, parameter_view, value_in};

use crate::pushing::add_some;
use just_host::justfile::Justfile;
use just_resolution::fault::Fault;
use just_resolution::numbers::{add_parameter_numbers, assignment_numbers};
use just_syntax::name::Name;
use just_syntax::number::Number;
use just_syntax::number_set::NumberSet;
use just_syntax::out_of_memory::OutOfMemory;
use just_value::scope::Scope;
use std::alloc::Global;

// Adds a fault for each assignment and each parameter with the number of an earlier one, and then one for each
// parameter that `parent` binds.
pub(crate) fn add_numbering_faults<'src>(
    alloc: Global,
    all: &mut Vec<Fault<'src>>,
    module: &Justfile<'src>,
    parent: &Scope<'src, '_>,
) -> Result<(), OutOfMemory>
    ensures { let parameters = numbered_parameters (functions_view «module».now) in OnOk result
        ((functions : List Function) (assignments : Assignments)
        → AddsFaults functions assignments (frames_view parent.now)
        (number_places [] (numbered_assignments (map assignment_view «module».now.assignments) ++ parameters)
        ++ parameter_places parameters) (map module_fault_view all.old.items) (map module_fault_view all.new.items)) }
{
    let mut numbers = assignment_numbers(alloc, &module.assignments)?;
    let first_parameter = numbers.len();
    add_parameter_numbers(&mut numbers, &module.functions)?;
    add_duplicates(alloc, all, &numbers)?;
    add_bound_parameters(all, parent, &numbers[first_parameter..])
}

// Adds a fault for each name with the number of an earlier one.
fn add_duplicates<'src>(
    alloc: Global,
    all: &mut Vec<Fault<'src>>,
    numbers: &[(Name<'src>, Number)],
) -> Result<(), OutOfMemory>
    ensures { OnOk result ((functions : List Function) (assignments : Assignments) (outer : Frames)
        → AddsFaults functions assignments outer (number_places [] (map parameter_view numbers.now))
        (map module_fault_view all.old.items) (map module_fault_view all.new.items)) }
{
    let mut seen = NumberSet::new(alloc, numbers.len())?;
    for (name, number) in numbers {
        let fault = duplicate(&mut seen, name, *number)?;
        add_some(all, fault)?;
    }
    Ok(())
}

// The fault of a name with a number, if that occurred before.
fn duplicate<'src>(
    seen: &mut NumberSet,
    name: &Name<'src>,
    number: Number,
) -> Result<Option<Fault<'src>>, OutOfMemory>
    ensures exact { IfOk result (λ fault. MatchOption fault (IsTrue (is_member seen.old number) → ⊥)
        (λ f. (DuplicateNumber (name_view name.now) ≡ module_fault_view f) × IsTrue (is_member seen.old number))) }
    ensures members { OnOk result ((n : ℕ) → IsTrue (is_member seen.new n)
        ↔ ((number ≡ n) ⊎ IsTrue (is_member seen.old n))) }
{
    if seen.insert(number)? {
        return Ok(None);
    }
    Ok(Some(Fault::DuplicateNumber { variable: *name }))
}

// Adds a fault for each of these parameters that a scope binds.
fn add_bound_parameters<'src>(
    all: &mut Vec<Fault<'src>>,
    scope: &Scope<'src, '_>,
    parameters: &[(Name<'src>, Number)],
) -> Result<(), OutOfMemory>
    ensures { OnOk result ((functions : List Function) (assignments : Assignments)
        → AddsFaults functions assignments (frames_view scope.now)
        (parameter_places (map parameter_view parameters.now)) (map module_fault_view all.old.items)
        (map module_fault_view all.new.items)) }
{
    for (name, number) in parameters {
        let fault = bound_outside(name, scope, *number);
        add_some(all, fault)?;
    }
    Ok(())
}

// The fault of a parameter, if a scope binds its number.
fn bound_outside<'src>(
    name: &Name<'src>,
    scope: &Scope<'src, '_>,
    number: Number,
) -> Option<Fault<'src>>
    ensures { MatchOption result (HasValue (value_in (frames_view scope.now)) number → ⊥)
        (λ f. (BoundParameter (name_view name.now) ≡ module_fault_view f)
        × HasValue (value_in (frames_view scope.now)) number) }
{
    if scope.value(number).is_some() {
        return Some(Fault::BoundParameter { parameter: *name });
    }
    None
}
