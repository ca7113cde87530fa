// Names in a recipe that mean nothing.

ghost use Rattle.std.specs.Prelude.{IfOk, OnOk, map, ◌++◌, ◌≡◌};
ghost use Rattle.just_recipe.specs.Expressions.{part_view};
ghost use Rattle.just_recipe.specs.Faults.{expression_faults, recipe_faults};
ghost use Rattle.just_recipe.specs.Numbered.{numbered_recipe_view};
ghost use Rattle.just_resolution.specs.Prelude.{module_fault_view};
ghost use Rattle.just_syntax.specs.View.{function_view};

use crate::expressions::{Part, expressions_of};
use crate::numbered_recipe::NumberedRecipe;
use just_resolution::fault::Fault;
use just_resolution::known::occurrence_fault;
use just_syntax::function_definition::FunctionDefinition;
use just_syntax::occurrences::occurrences_in;
use just_syntax::out_of_memory::OutOfMemory;
use just_syntax::results::push;
use just_syntax::table::Table;
use std::alloc::Global;

/// The faults of the names in the expressions of a numbered recipe: variables that nothing has, and calls that do not
/// fit. They come in the order of attributes, parameters, dependencies, lines, and dependencies after the recipe.
///
/// # Errors
///
/// `OutOfMemory`, if an allocation fails.
pub fn recipe_faults<'src>(
    alloc: Global,
    recipe: &NumberedRecipe<'src>,
    functions: &Table<FunctionDefinition<'src>>,
) -> Result<Vec<Fault<'src>>, OutOfMemory>
    ensures { IfOk result (λ faults. map module_fault_view faults.items
        ≡ recipe_faults (map function_view functions.now) (numbered_recipe_view recipe.now)) }
{
    let mut faults = Vec::new(alloc);
    for part in &expressions_of(alloc, recipe)? {
        add_faults(alloc, part, functions, &mut faults)?;
    }
    Ok(faults)
}

// Adds the faults of the names in an expression.
fn add_faults<'src>(
    alloc: Global,
    part: &Part<'src, '_>,
    functions: &Table<FunctionDefinition<'src>>,
    faults: &mut Vec<Fault<'src>>,
) -> Result<(), OutOfMemory>
    ensures { OnOk result (map module_fault_view faults.new.items ≡ map module_fault_view faults.old.items
        ++ expression_faults (map function_view functions.now) (part_view part.now)) }
{
    for occurrence in &occurrences_in(alloc, part.expression)? {
        if let Some(fault) = occurrence_fault(functions, occurrence) {
            push(faults, fault)?;
        }
    }
    Ok(())
}
