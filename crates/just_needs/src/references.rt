// The variables that occur in an expression.

ghost use Rattle.std.specs.Prelude.{IfOk, IsTrue, OnOk, Some, map, nat_eq, ℕ, ◌↔◌, ◌≡◌, ◌⊎◌};
ghost use Rattle.std.specs.List.{list_any};
ghost use Rattle.just_needs.specs.Prelude.{IsIn, Occurs, VariableOf, has, mention_of, occurrence_view};
ghost use Rattle.just_needs.specs.Prelude.{occurrences_view, view};

use just_syntax::expression::Expression;
use just_syntax::number::Number;
use just_syntax::occurrence::Occurrence;
use just_syntax::occurrences::occurrences_in;
use just_syntax::out_of_memory::OutOfMemory;
use std::alloc::Global;
use std::collections::HashSet;

/// The numbers of the variables that occur in an expression. What it reads through the functions that it calls is not
/// among them, nor is a variable without a number.
///
/// # Errors
///
/// `OutOfMemory`, if an allocation fails: nothing is created.
pub fn references(alloc: Global, expression: &Expression) -> Result<HashSet<Number>, OutOfMemory>
    ensures { IfOk result (λ set. (n : ℕ) → IsTrue (list_any (nat_eq n) set.keys)
        ↔ Occurs (view expression.now) (VariableOf (Some n))) }
{
    let occurrences = occurrences_in(alloc, expression)?;
    variables_at(alloc, &occurrences)
}

// The numbers of the variables among these occurrences.
fn variables_at(alloc: Global, occurrences: &[Occurrence]) -> Result<HashSet<Number>, OutOfMemory>
    ensures { IfOk result (λ set. (n : ℕ) → IsTrue (has set n)
        ↔ IsIn (map mention_of (occurrences_view occurrences.now)) (VariableOf (Some n))) }
{
    let mut variables = HashSet::new(alloc);
    for occurrence in occurrences {
        add_variable(&mut variables, occurrence)?;
    }
    Ok(variables)
}

// Adds the number of a variable, if it is one that has a number.
fn add_variable(variables: &mut HashSet<Number>, occurrence: &Occurrence) -> Result<(), OutOfMemory>
    ensures { OnOk result ((n : ℕ) → IsTrue (has variables.new n)
        ↔ ((mention_of (occurrence_view occurrence.now) ≡ VariableOf (Some n)) ⊎ IsTrue (has variables.old n))) }
{
    match occurrence {
        Occurrence::Variable { name: _, number } => add_number(variables, *number),
        _ => Ok(()),
    }
}

// Adds a number, if there is one.
fn add_number(variables: &mut HashSet<Number>, number: Option<Number>) -> Result<(), OutOfMemory>
    ensures { OnOk result ((n : ℕ) → IsTrue (has variables.new n)
        ↔ ((number ≡ Some n) ⊎ IsTrue (has variables.old n))) }
{
    if let Some(number) = number {
        variables.insert(number)?;
    }
    Ok(())
}
