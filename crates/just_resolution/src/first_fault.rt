// Why a module is not resolved.

ghost use Rattle.std.specs.Prelude.{IfOk, IfSome, IsNone, ◌↔◌};
ghost use Rattle.just_resolution.specs.Prelude.{IsFirstFault, IsResolved, assignments_view, frames_view};
ghost use Rattle.just_resolution.specs.Prelude.{functions_view, module_fault_view};

use crate::fault::Fault;
use crate::known::{bodies_fault, values_fault};
use crate::numbers::numbering_fault;
use crate::order::order_fault;
use just_host::justfile::Justfile;
use just_syntax::number::Number;
use just_syntax::out_of_memory::OutOfMemory;
use just_value::scope::Scope;
use std::alloc::Global;
use std::collections::HashSet;

/// The first reason why a module is not [`resolved`]; `None` if it is.
///
/// It checks, in this order:
///
/// - the numbers of all assignments, in the order of their names, and of all parameters of functions, in the order of
///   the functions' names: one that occurred before is a [`Fault::DuplicateNumber`];
/// - the same parameters: one that `parent` binds is a [`Fault::BoundParameter`];
/// - each variable and each call in the values of assignments and then in the bodies of functions, in the order of
///   their names and of their text: [`Fault::UndefinedVariable`], [`Fault::UndefinedFunction`],
///   [`Fault::ArgumentCountMismatch`];
/// - each name of the evaluation order: [`Fault::UnknownAssignment`], or [`Fault::UntakenVariable`], whose variable is
///   the first such in the assignment's text or, if there is none, the first in a body that it reaches. It is
///   unspecified which body that is if there are several.
///
/// [`resolved`]: crate::resolved::resolved
///
/// # Errors
///
/// `OutOfMemory` if an allocation fails.
pub fn first_fault<'src, 'run>(
    alloc: Global,
    module: &Justfile<'src>,
    parent: &Scope<'src, 'run>,
    variable_references: Option<&HashSet<Number>>,
) -> Result<Option<Fault<'src>>, OutOfMemory>
    ensures exact { IfOk result (λ fault. IsNone fault
        ↔ IsResolved (functions_view «module».now) (assignments_view «module».now variable_references.entry)
        (frames_view parent.now)) }
    ensures first { IfOk result
        (λ fault. IfSome fault (λ found. IsFirstFault (functions_view «module».now)
        (assignments_view «module».now variable_references.entry) (frames_view parent.now)
        (module_fault_view found))) }
{
    let numbering = numbering_fault(alloc, module, parent)?;
    if numbering.is_some() {
        return Ok(numbering);
    }
    let value = values_fault(alloc, &module.functions, &module.assignments)?;
    if value.is_some() {
        return Ok(value);
    }
    let body = bodies_fault(alloc, &module.functions)?;
    if body.is_some() {
        return Ok(body);
    }
    order_fault(
        alloc,
        &module.functions,
        &module.assignments,
        &module.evaluation_order,
        parent,
        variable_references,
    )
}
