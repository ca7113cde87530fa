// The variables that are taken from an order.

ghost use Rattle.std.specs.Prelude.{IfOk, List, OnOk, [], map, ℕ, ◌++◌, ◌∷◌, ◌≡◌};
ghost use Rattle.just_bench.specs.Prelude.{Token, first_places, is_member, name_view, ordered_view};
ghost use Rattle.just_bench.specs.Prelude.{referenced_number, taken_in, taken_view};

use just_resolution::references::is_referenced;
use just_syntax::assignment::Assignment;
use just_syntax::name::Name;
use just_syntax::number::Number;
use just_syntax::number_set::NumberSet;
use just_syntax::out_of_memory::OutOfMemory;
use just_syntax::table::Table;
use std::alloc::Global;
use std::collections::HashSet;

/// The names of an order whose assignments are referenced, each at its first occurrence, with their numbers. Without a
/// set, each is referenced.
pub(crate) fn taken_variables<'order, 'src>(
    alloc: Global,
    assignments: &Table<Assignment>,
    order: &'order [Name<'src>],
    references: Option<&HashSet<Number>>,
) -> Result<Vec<(&'order Name<'src>, Number)>, OutOfMemory>
    ensures { IfOk result (λ taken. map taken_view taken.items
        ≡ taken_in (ordered_view assignments.now order.now references.entry) (map name_view order.now)) }
{
    let mut seen = NumberSet::new(alloc, assignments.len())?;
    let mut taken = Vec::with_capacity(alloc, order.len())?;
    for name in order {
        if let Some(number) = number_of(assignments, references, name) {
            take_once(&mut seen, &mut taken, name, number)?;
        }
    }
    Ok(taken)
}

// The number of a name's assignment, if it is referenced.
fn number_of(
    assignments: &Table<Assignment>,
    references: Option<&HashSet<Number>>,
    name: &Name,
) -> Option<Number>
    ensures { result ≡ referenced_number (ordered_view assignments.now [] references.entry) (name_view name.now) }
{
    let Some(assignment) = assignments.get(name.lexeme()) else {
        return None;
    };
    if !is_referenced(references, assignment.number) {
        return None;
    }
    Some(assignment.number)
}

// Takes a variable, unless its number occurred before.
fn take_once<'order, 'src>(
    seen: &mut NumberSet,
    taken: &mut Vec<(&'order Name<'src>, Number)>,
    name: &'order Name<'src>,
    number: Number,
) -> Result<(), OutOfMemory>
    // Also for the names after it.
    ensures { OnOk result ((rest : List (Token × ℕ)) → map taken_view taken.new.items
        ++ first_places (is_member seen.new) rest
        ≡ map taken_view taken.old.items ++ first_places (is_member seen.old)
        ((name_view name.now, number) ∷ rest)) }
{
    if !seen.insert(number)? {
        return Ok(());
    }
    match taken.push((name, number)) {
        Ok(()) => Ok(()),
        Err(_) => Err(OutOfMemory),
    }
}
