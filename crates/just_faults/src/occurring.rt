// Variables without a number, and calls that their names do not take.

ghost use Rattle.std.specs.Prelude.{OnOk, map};
ghost use Rattle.just_faults.specs.Prelude.{AddsUnknown, all_occurrences, assignment_view, function_view};
ghost use Rattle.just_faults.specs.Prelude.{module_fault_view, occurrences_in, occurrences_view, view};

use crate::pushing::add_some;
use just_resolution::fault::Fault;
use just_resolution::known::occurrence_fault;
use just_syntax::assignment::Assignment;
use just_syntax::expression::Expression;
use just_syntax::function_definition::FunctionDefinition;
use just_syntax::occurrence::Occurrence;
use just_syntax::occurrences::refill;
use just_syntax::out_of_memory::OutOfMemory;
use just_syntax::table::Table;
use std::alloc::Global;

// Adds the faults in the values of assignments.
pub(crate) fn add_value_faults<'src>(
    alloc: Global,
    all: &mut Vec<Fault<'src>>,
    functions: &Table<FunctionDefinition<'src>>,
    assignments: &Table<Assignment<'src>>,
) -> Result<(), OutOfMemory>
    ensures { OnOk result (AddsUnknown (map function_view functions.now)
        (all_occurrences (map (λ a. a.value) (map assignment_view assignments.now)))
        (map module_fault_view all.old.items) (map module_fault_view all.new.items)) }
{
    let mut occurrences = Vec::new(alloc);
    for assignment in assignments {
        add_expression_faults(all, &mut occurrences, functions, &assignment.value)?;
    }
    Ok(())
}

// Adds the faults in the bodies of functions.
pub(crate) fn add_body_faults<'src>(
    alloc: Global,
    all: &mut Vec<Fault<'src>>,
    functions: &Table<FunctionDefinition<'src>>,
) -> Result<(), OutOfMemory>
    ensures { let functions_now = map function_view functions.now in OnOk result (AddsUnknown functions_now
        (all_occurrences (map (λ f. f.body) functions_now)) (map module_fault_view all.old.items)
        (map module_fault_view all.new.items)) }
{
    let mut occurrences = Vec::new(alloc);
    for function in functions {
        add_expression_faults(all, &mut occurrences, functions, &function.body)?;
    }
    Ok(())
}

// Adds the faults in an expression. `occurrences` is filled anew.
fn add_expression_faults<'src, 'a>(
    all: &mut Vec<Fault<'src>>,
    occurrences: &mut Vec<Occurrence<'src, 'a>>,
    functions: &Table<FunctionDefinition<'src>>,
    expression: &'a Expression<'src>,
) -> Result<(), OutOfMemory>
    ensures { OnOk result (AddsUnknown (map function_view functions.now) (occurrences_in (view expression.now))
        (map module_fault_view all.old.items) (map module_fault_view all.new.items)) }
{
    refill(occurrences, expression)?;
    add_occurrence_faults(all, functions, occurrences.as_slice())
}

// Adds the faults at these occurrences.
fn add_occurrence_faults<'src>(
    all: &mut Vec<Fault<'src>>,
    functions: &Table<FunctionDefinition<'src>>,
    occurrences: &[Occurrence<'src, '_>],
) -> Result<(), OutOfMemory>
    ensures { OnOk result (AddsUnknown (map function_view functions.now) (occurrences_view occurrences.now)
        (map module_fault_view all.old.items) (map module_fault_view all.new.items)) }
{
    for occurrence in occurrences {
        let fault = occurrence_fault(functions, occurrence);
        add_some(all, fault)?;
    }
    Ok(())
}
