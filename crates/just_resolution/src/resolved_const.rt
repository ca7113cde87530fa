// Whether assignments before any run are resolved.

ghost use Rattle.std.specs.Prelude.{IfOk, IsTrue, map, ◌↔◌};
ghost use Rattle.just_resolution.specs.Prelude.{AllNumbered, AreDistinct, IsResolvedConst, assignment_view};
ghost use Rattle.just_resolution.specs.Prelude.{frames_view, ordered_view};

use crate::known::are_values_numbered;
use crate::numbers::{assignment_numbers, number_fault};
use crate::order::order_fault;
use just_syntax::assignment::Assignment;
use just_syntax::name::Name;
use just_syntax::number::Number;
use just_syntax::out_of_memory::OutOfMemory;
use just_syntax::table::Table;
use just_value::scope::Scope;
use std::alloc::Global;
use std::collections::HashSet;

/// Whether assignments are resolved before any run, where no function is entered: each number is that of one
/// assignment, and each assignment is taken before it is read.
///
/// - The numbers of all assignments are distinct.
/// - Each variable in an assignment has a number, even if the assignment is not taken. There is no condition on called
///   names.
/// - Each name of the evaluation order is an assignment's. The variables that occur in a taken assignment, overridden
///   or not, are taken earlier or bound in `scope`. The assignments taken are those of the order that are referenced:
///   those of the set, or all without one.
///
/// [`resolved`] also requires that each called name takes as many arguments as the call has, that parameters have
/// numbers of their own, which are not bound outside, that each variable in a body has a number, and that what reached
/// bodies read is taken earlier or bound outside.
///
/// Each assignment is scanned a bounded number of times.
///
/// [`resolved`]: crate::resolved::resolved
///
/// # Errors
///
/// `OutOfMemory` if an allocation fails: nothing is decided, and the assignments are unchanged.
pub fn resolved_const<'src, 'run>(
    alloc: Global,
    assignments: &Table<Assignment<'src>>,
    evaluation_order: &[Name<'src>],
    scope: &Scope<'src, 'run>,
    variable_references: Option<&HashSet<Number>>,
) -> Result<bool, OutOfMemory>
    ensures exact { IfOk result (λ answer. IsTrue answer
        ↔ IsResolvedConst (ordered_view assignments.now evaluation_order.now variable_references.entry)
        (frames_view scope.now)) }
{
    if !are_numbered(alloc, assignments)? {
        return Ok(false);
    }
    let functions = Table::new(alloc);
    let misplaced = order_fault(
        alloc,
        &functions,
        assignments,
        evaluation_order,
        scope,
        variable_references,
    )?;
    Ok(misplaced.is_none())
}

// Whether the numbers of assignments are distinct, and each variable in one has a number.
fn are_numbered<'src>(
    alloc: Global,
    assignments: &Table<Assignment<'src>>,
) -> Result<bool, OutOfMemory>
    ensures { let all = map assignment_view assignments.now in
        IfOk result (λ answer. IsTrue answer
        ↔ (AreDistinct (map (λ a. a.number) all) × AllNumbered (map (λ a. a.value) all))) }
{
    let numbers = assignment_numbers(alloc, assignments)?;
    if number_fault(alloc, &numbers)?.is_some() {
        return Ok(false);
    }
    are_values_numbered(alloc, assignments)
}
