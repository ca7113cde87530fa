// Whether a module is resolved.

ghost use Rattle.std.specs.Prelude.{IfOk, IsTrue, ◌↔◌};
ghost use Rattle.just_resolution.specs.Prelude.{IsResolved, assignments_view, frames_view, functions_view};

use crate::first_fault::first_fault;
use just_host::justfile::Justfile;
use just_syntax::number::Number;
use just_syntax::out_of_memory::OutOfMemory;
use just_value::scope::Scope;
use std::alloc::Global;
use std::collections::HashSet;

/// Whether a module is resolved: what its names mean does not depend on who reads them, and everything is evaluated
/// before it is read.
///
/// - The numbers of all assignments and of all parameters of functions are distinct, and `parent` binds no parameter's
///   number.
/// - Each variable in an assignment or a body has a number. Each called name is that of a function of the file with as
///   many parameters as the call has arguments, or else of a built-in function that takes that many, or of one that is
///   left out.
/// - Each name of the evaluation order is an assignment's. What a taken assignment reads, overridden or not, by itself
///   or in the bodies of the functions that it reaches (less each function's own parameters), is taken earlier or bound
///   in `parent`. The assignments taken are those of the order that are referenced; all of them, if
///   `variable_references` is `None`.
///
/// If it is not, [`first_fault`] says why. Functions may call each other without end. Each assignment and each body is
/// scanned a bounded number of times, not once for each assignment that reaches it.
///
/// [`first_fault`]: crate::first_fault::first_fault
///
/// # Errors
///
/// `OutOfMemory` if an allocation fails: nothing is decided, and the module is unchanged.
pub fn resolved<'src, 'run>(
    alloc: Global,
    module: &Justfile<'src>,
    parent: &Scope<'src, 'run>,
    variable_references: Option<&HashSet<Number>>,
) -> Result<bool, OutOfMemory>
    ensures exact { IfOk result (λ answer. IsTrue answer
        ↔ IsResolved (functions_view «module».now) (assignments_view «module».now variable_references.entry)
        (frames_view parent.now)) }
{
    Ok(first_fault(alloc, module, parent, variable_references)?.is_none())
}
