// Resolves a module by its names.

ghost use Rattle.std.specs.Prelude.{IfErr, IfOk, IfSome, OnErr, OnOk, map, ◌≡◌, ◌⊎◌};
ghost use Rattle.just_resolve.specs.Prelude.{AreDistinct, IsCircular, IsCycle, IsFaultAnyway, IsFaultInEachOrder};
ghost use Rattle.just_resolve.specs.Prelude.{IsOfCycle, IsOfMention, IsOrder, IsRenumbered, IsResolved, IsUntaken};
ghost use Rattle.just_resolve.specs.Prelude.{assignment_view, cycle_in, fault_in, frames_view, functions_view};
ghost use Rattle.just_resolve.specs.Prelude.{module_fault_view, name_view, ordered};

use crate::cycle::cycle;
use crate::order::order;
use crate::renumbered::renumbered;
use crate::resolve_error::ResolveError;
use just_host::justfile::Justfile;
use just_resolution::fault::Fault;
use just_resolution::first_fault::first_fault;
use just_syntax::out_of_memory::OutOfMemory;
use just_value::scope::Scope;
use std::alloc::Global;
use std::mem;

/// Resolves a module whose variables have names alone: it gives numbers to the variables and orders the assignments.
/// Afterwards the module is [`resolved`] within `outer`. Numbers and an order that it had before do not matter.
///
/// ```rust
/// let mut module = Justfile::new(alloc, "justfile", "/project")?;
/// module.assign(Assignment::new(name, Number::new(0), value))?;
/// resolve(alloc, &mut module, &outer)?;
/// ```
///
/// - The numbers of assignments, in the order of their names, and then those of the parameters of functions, in the
///   order of the functions' names, are the first numbers from 0 on that `outer` does not bind.
/// - In the body of a function a variable has the number of the first parameter with its name. Otherwise it has the
///   number of the assignment with its name or, if there is none, of the innermost binding of `outer` with its name. If
///   a frame has several, that is the one with the least number.
/// - Each assignment comes after those that it reads, by itself or through functions. The order is that of a
///   depth-first walk that begins at each assignment in the order of the text. For example `a := c + b`, `b := ''`,
///   `c := ''` are ordered `c`, `b`, `a`.
///
/// The settings of the module, and everything else, stay as they are. The expressions of its recipes and settings are
/// not a part of it: [`numbered`] copies them with the numbers of their names.
///
/// It takes near linear time in the sizes of the module and of what `outer` binds, and memory for a second module.
///
/// [`numbered`]: crate::numbered::numbered
/// [`resolved`]: just_resolution::resolved::resolved
///
/// # Errors
///
/// - `Fault` with the first fault of the module with its new numbers, which is the same in each order: a variable whose
///   name nothing has (`UndefinedVariable`), a call of an unknown function (`UndefinedFunction`), or one with a wrong
///   number of arguments (`ArgumentCountMismatch`).
/// - `Circular` with the names of assignments that form a cycle, each of which reads the next one, if there is no such
///   fault but an assignment depends on itself.
/// - `OutOfMemory`, if an allocation fails, if the numbers below 2⁶⁴ - 1 do not suffice, or if an expression has more
///   levels than [`numbered`] copies.
///
/// The module is unchanged after each of them.
pub fn resolve<'src>(
    alloc: Global,
    module: &mut Justfile<'src>,
    outer: &Scope<'src, '_>,
) -> Result<(), ResolveError<'src>>
    ensures resolved { OnOk result (IsResolved (functions_view «module».new)
        (ordered (map assignment_view «module».new.assignments) (map name_view «module».new.evaluation_order.items))
        (frames_view outer.now)) }
    ensures numbered { OnOk result (IsRenumbered (frames_view outer.now) (functions_view «module».old)
        (map assignment_view «module».old.assignments) (functions_view «module».new)
        (map assignment_view «module».new.assignments)) }
    ensures order { OnOk result (IsOrder (map assignment_view «module».new.assignments)
        (map name_view «module».new.evaluation_order.items)) }
    ensures rest { «module».new ≡ record «module».old {
      assignments = «module».new.assignments;
      evaluation_order = «module».new.evaluation_order;
      functions = «module».new.functions;
    } }
    ensures unchanged { OnErr result («module».new ≡ «module».old) }
    ensures circular { IfErr result (λ e. IfSome (cycle_in e) (IsCircular (frames_view outer.now)
        (functions_view «module».old) (map assignment_view «module».old.assignments))) }
    ensures fault { IfErr result (λ e. IfSome (fault_in e) (IsFaultAnyway (frames_view outer.now)
        (functions_view «module».old) (map assignment_view «module».old.assignments))) }
    ensures each_order { IfErr result (λ e. IfSome (fault_in e) (IsFaultInEachOrder (frames_view outer.now)
        (functions_view «module».old) (map assignment_view «module».old.assignments))) }
    ensures mention { IfErr result (λ e. IfSome (fault_in e) IsOfMention) }
{
    let mut made = renumbered(alloc, module, outer)?;
    resolve_as(alloc, module, &mut made, outer)
}

// Orders the renumbered module and, if it is then resolved, swaps what it has into the module.
fn resolve_as<'src>(
    alloc: Global,
    module: &mut Justfile<'src>,
    made: &mut Justfile<'src>,
    outer: &Scope<'src, '_>,
) -> Result<(), ResolveError<'src>>
    requires { IsRenumbered (frames_view outer.now) (functions_view «module».old)
        (map assignment_view «module».old.assignments) (functions_view made.old)
        (map assignment_view made.old.assignments) }
    ensures resolved { OnOk result (IsResolved (functions_view «module».new)
        (ordered (map assignment_view «module».new.assignments) (map name_view «module».new.evaluation_order.items))
        (frames_view outer.now)) }
    ensures numbered { OnOk result (IsRenumbered (frames_view outer.now) (functions_view «module».old)
        (map assignment_view «module».old.assignments) (functions_view «module».new)
        (map assignment_view «module».new.assignments)) }
    ensures order { OnOk result (IsOrder (map assignment_view «module».new.assignments)
        (map name_view «module».new.evaluation_order.items)) }
    ensures rest { «module».new ≡ record «module».old {
      assignments = «module».new.assignments;
      evaluation_order = «module».new.evaluation_order;
      functions = «module».new.functions;
    } }
    ensures unchanged { OnErr result («module».new ≡ «module».old) }
    ensures circular { IfErr result (λ e. IfSome (cycle_in e) (IsCircular (frames_view outer.now)
        (functions_view «module».old) (map assignment_view «module».old.assignments))) }
    ensures fault { IfErr result (λ e. IfSome (fault_in e) (IsFaultAnyway (frames_view outer.now)
        (functions_view «module».old) (map assignment_view «module».old.assignments))) }
    ensures each_order { IfErr result (λ e. IfSome (fault_in e) (IsFaultInEachOrder (frames_view outer.now)
        (functions_view «module».old) (map assignment_view «module».old.assignments))) }
    ensures mention { IfErr result (λ e. IfSome (fault_in e) IsOfMention) }
{
    let mut order = order(alloc, made, outer)?;
    mem::swap(&mut made.evaluation_order, &mut order);
    if let Some(fault) = first_fault(alloc, made, outer, None)? {
        return Err(explained(alloc, made, outer, fault)?);
    }
    mem::swap(&mut module.assignments, &mut made.assignments);
    mem::swap(&mut module.evaluation_order, &mut made.evaluation_order);
    mem::swap(&mut module.functions, &mut made.functions);
    Ok(())
}

// The error for a fault of a module: the fault itself, if it is one of a variable or of a call, and otherwise the cycle
// that it is due to.
fn explained<'src>(
    alloc: Global,
    module: &Justfile<'src>,
    outer: &Scope<'src, '_>,
    fault: Fault<'src>,
) -> Result<ResolveError<'src>, OutOfMemory>
    requires distinct { AreDistinct (map (λ a. a.number) (map assignment_view «module».now.assignments)) }
    requires due { IsOfMention (module_fault_view fault) ⊎ IsOfCycle (functions_view «module».now)
        (map assignment_view «module».now.assignments) (frames_view outer.now) (module_fault_view fault) }
    ensures cycle { IfOk result (λ e. IfSome (cycle_in e) (IsCycle (functions_view «module».now)
        (map assignment_view «module».now.assignments))) }
    ensures fault { IfOk result (λ e. IfSome (fault_in e) (λ f. f ≡ module_fault_view fault.entry)) }
    ensures mention { IfOk result (λ e. IfSome (fault_in e) IsOfMention) }
    ensures untaken { IfOk result (λ e. IfSome (cycle_in e) (λ _. IsUntaken (module_fault_view fault.entry))) }
{
    if let Fault::UntakenVariable {
        assignment,
        variable: _,
    } = &fault
    {
        if let Some(names) = cycle(alloc, module, outer, assignment.lexeme())? {
            return Ok(ResolveError::Circular(names));
        }
    }
    Ok(ResolveError::Fault(fault))
}
