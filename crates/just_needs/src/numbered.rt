// The assignments of a module by their numbers, and the numbers that are followed.

ghost use Rattle.std.specs.Prelude.{IfOk, IsTrue, OnOk, [], if◌then◌else◌, map, nat_eq, ℕ, ◌++◌, ◌↔◌, ◌∷◌, ◌≡◌};
ghost use Rattle.just_needs.specs.Prelude.{IsFollowed, assignment_view, found_values, frames_view, is_member};
ghost use Rattle.just_needs.specs.Prelude.{values_in, values_looked_up, values_numbered, view};

use just_syntax::assignment::Assignment;
use just_syntax::expression::Expression;
use just_syntax::number::Number;
use just_syntax::number_set::NumberSet;
use just_syntax::out_of_memory::OutOfMemory;
use just_syntax::table::Table;
use just_value::scope::Scope;
use std::alloc::Global;
use std::collections::HashMap;

// The value of an assignment.
#[derive(Clone, Copy)]
pub(crate) struct Valued<'src, 'a> {
    pub(crate) value: &'a Expression<'src>,
}

// Assignments by their numbers. In a module that is not resolved a number may have several.
pub(crate) fn by_number<'a, 'src>(
    alloc: Global,
    assignments: &'a Table<Assignment<'src>>,
) -> Result<HashMap<Number, Vec<Valued<'src, 'a>>>, OutOfMemory>
    ensures { IfOk result (λ all. (n : ℕ)
        → values_in all n ≡ values_numbered (map assignment_view assignments.entry.now) n) }
{
    let mut all = HashMap::new(alloc);
    for assignment in assignments {
        add(alloc, &mut all, assignment)?;
    }
    Ok(all)
}

// Adds an assignment to those with its number.
fn add<'a, 'src>(
    alloc: Global,
    all: &mut HashMap<Number, Vec<Valued<'src, 'a>>>,
    assignment: &'a Assignment<'src>,
) -> Result<(), OutOfMemory>
    ensures { OnOk result ((n : ℕ) → values_in all.new n ≡ values_in all.old n
        ++ (if nat_eq assignment.entry.now.number n then view assignment.entry.now.value ∷ [] else [])) }
{
    let numbered = with_one(alloc, all.remove(&assignment.number), assignment)?;
    match all.insert(assignment.number, numbered) {
        Ok(_) => Ok(()),
        Err(_) => Err(OutOfMemory),
    }
}

// The assignments found, and one more.
fn with_one<'a, 'src>(
    alloc: Global,
    found: Option<Vec<Valued<'src, 'a>>>,
    assignment: &'a Assignment<'src>,
) -> Result<Vec<Valued<'src, 'a>>, OutOfMemory>
    ensures { IfOk result (λ all. found_values all.items
        ≡ values_looked_up found.entry ++ view assignment.entry.now.value ∷ []) }
{
    let mut all = list(alloc, found);
    match all.push(Valued {
        value: &assignment.value,
    }) {
        Ok(()) => Ok(all),
        Err(_) => Err(OutOfMemory),
    }
}

// The assignments found, or none.
fn list<'a, 'src>(alloc: Global, found: Option<Vec<Valued<'src, 'a>>>) -> Vec<Valued<'src, 'a>>
    ensures { found_values result.items ≡ values_looked_up found.entry }
{
    match found {
        Some(assignments) => assignments,
        None => Vec::new(alloc),
    }
}

// The numbers that are followed: those of assignments that are not bound outside.
pub(crate) fn followed_numbers<'src>(
    alloc: Global,
    assignments: &Table<Assignment<'src>>,
    outer: &Scope<'src, '_>,
) -> Result<NumberSet, OutOfMemory>
    ensures { IfOk result (λ followed. (n : ℕ) → IsTrue (is_member followed n)
        ↔ IsFollowed (map assignment_view assignments.now) (frames_view outer.now) n) }
{
    let mut followed = NumberSet::new(alloc, assignments.len())?;
    for assignment in assignments {
        if outer.value(assignment.number).is_none() {
            followed.insert(assignment.number)?;
        }
    }
    Ok(followed)
}
