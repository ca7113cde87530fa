// All reasons why a module cannot be resolved by its names.

ghost use Rattle.std.specs.Prelude.{IfOk, map};
ghost use Rattle.just_resolve.specs.Prelude.{AreDistinct, AreFaultsInSomeOrder, AreNameFaults, assignment_view};
ghost use Rattle.just_resolve.specs.Prelude.{frames_view, functions_view, module_fault_view};

use crate::order::order;
use crate::renumbered::renumbered;
use just_faults::faults::faults;
use just_host::justfile::Justfile;
use just_resolution::fault::Fault;
use just_syntax::out_of_memory::OutOfMemory;
use just_value::scope::Scope;
use std::alloc::Global;
use std::mem;

/// All reasons why [`resolve`] refuses a module whose variables have names alone: the [`faults`] of the module with the
/// numbers and the order that `resolve` gives. The list is empty if `resolve` succeeds. The module does not change.
///
/// ```rust
/// for fault in name_faults(alloc, &module, &outer)? {
///     println!(rt; "line {}: {fault}", fault.token().line + 1)?;
/// }
/// ```
///
/// A cycle is no fault of its own: of `a := b` and `b := a`, one has the fault [`Fault::UntakenVariable`].
///
/// [`resolve`]: crate::resolve::resolve
///
/// # Errors
///
/// `OutOfMemory` where `resolve` returns it: no fault is returned.
pub fn name_faults<'src>(
    alloc: Global,
    module: &Justfile<'src>,
    outer: &Scope<'src, '_>,
) -> Result<Vec<Fault<'src>>, OutOfMemory>
    ensures { IfOk result (λ all. AreNameFaults (frames_view outer.now) (functions_view «module».now)
        (map assignment_view «module».now.assignments) (map module_fault_view all.items)) }
{
    let mut made = renumbered(alloc, module, outer)?;
    ordered_faults(alloc, &mut made, outer)
}

// Orders a renumbered module, and returns its faults.
fn ordered_faults<'src>(
    alloc: Global,
    made: &mut Justfile<'src>,
    outer: &Scope<'src, '_>,
) -> Result<Vec<Fault<'src>>, OutOfMemory>
    requires { AreDistinct (map (λ a. a.number) (map assignment_view made.old.assignments)) }
    ensures { IfOk result (λ all. AreFaultsInSomeOrder (functions_view made.old)
        (map assignment_view made.old.assignments) (frames_view outer.now) (map module_fault_view all.items)) }
{
    let mut order = order(alloc, made, outer)?;
    mem::swap(&mut made.evaluation_order, &mut order);
    faults(alloc, made, outer, None)
}
