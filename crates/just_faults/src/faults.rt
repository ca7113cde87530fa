// All reasons why a module is not resolved.

ghost use Rattle.std.specs.Prelude.{IfOk, List, [], map, ◌↔◌, ◌∷◌, ◌≡◌};
ghost use Rattle.just_faults.specs.Prelude.{AreFaults, IsFirstFault, IsResolved, ModuleFault, assignments_view};
ghost use Rattle.just_faults.specs.Prelude.{frames_view, functions_view, module_fault_view};

use crate::numbering::add_numbering_faults;
use crate::occurring::{add_body_faults, add_value_faults};
use crate::order::add_order_faults;
use just_host::justfile::Justfile;
use just_resolution::fault::Fault;
use just_syntax::number::Number;
use just_syntax::out_of_memory::OutOfMemory;
use just_value::scope::Scope;
use std::alloc::Global;
use std::collections::HashSet;

/// All reasons why a module is not [`resolved`], in the order in which [`first_fault`] looks for the first. The list is
/// empty if the module is resolved; otherwise its first element is a fault that `first_fault` may return.
///
/// Each place that is checked adds at most one fault:
///
/// - the number of each assignment and then of each parameter of a function: [`Fault::DuplicateNumber`] if it occurred
///   before;
/// - the same parameters: [`Fault::BoundParameter`] for each that `parent` binds;
/// - each variable and each call in the values of assignments and then in the bodies of functions:
///   [`Fault::UndefinedVariable`], [`Fault::UndefinedFunction`], [`Fault::ArgumentCountMismatch`];
/// - each name of the evaluation order: [`Fault::UnknownAssignment`], or [`Fault::UntakenVariable`], whose variable is
///   the first such in the assignment's text or, if there is none, the first in a body that it reaches. It is
///   unspecified which body that is if there are several.
///
/// An assignment counts as taken after its place in the order, also if it reads a variable too early. So that variable
/// is reported for the assignments that read it themselves or through functions, and not for those that read the
/// assignment. A name that the order repeats is checked at each of its places.
///
/// ```rust
/// let found = faults(alloc, &module, &outer, None)?;
/// for fault in &found {
///     println!(rt; "line {}: {fault}", fault.token().line + 1)?;
/// }
/// ```
///
/// If no name of the order has a fault, each assignment and each body is scanned a bounded number of times. A name that
/// has one costs at most one more scan of the bodies that it and later assignments reach.
///
/// [`first_fault`]: just_resolution::first_fault::first_fault
/// [`resolved`]: just_resolution::resolved::resolved
///
/// # Errors
///
/// `OutOfMemory` if an allocation fails: no fault is returned, and the module is unchanged.
pub fn faults<'src, 'run>(
    alloc: Global,
    module: &Justfile<'src>,
    parent: &Scope<'src, 'run>,
    variable_references: Option<&HashSet<Number>>,
) -> Result<Vec<Fault<'src>>, OutOfMemory>
    ensures exact { IfOk result (λ all. AreFaults (functions_view «module».now)
        (assignments_view «module».now variable_references.entry) (frames_view parent.now)
        (map module_fault_view all.items)) }
    ensures resolved { IfOk result (λ all. (all.items ≡ [])
        ↔ IsResolved (functions_view «module».now) (assignments_view «module».now variable_references.entry)
        (frames_view parent.now)) }
    ensures first { IfOk result (λ all. (found : ModuleFault) (rest : List ModuleFault)
        → map module_fault_view all.items ≡ found ∷ rest → IsFirstFault (functions_view «module».now)
        (assignments_view «module».now variable_references.entry) (frames_view parent.now) found) }
{
    let mut all = Vec::new(alloc);
    add_numbering_faults(alloc, &mut all, module, parent)?;
    add_value_faults(alloc, &mut all, &module.functions, &module.assignments)?;
    add_body_faults(alloc, &mut all, &module.functions)?;
    add_order_faults(
        alloc,
        &mut all,
        &module.functions,
        &module.assignments,
        &module.evaluation_order,
        parent,
        variable_references,
    )?;
    Ok(all)
}
