// Numbers for names that a module does not have.

ghost use Rattle.std.specs.Prelude.{IfOk, map, ◌≡◌};
ghost use Rattle.just_resolve.specs.Prelude.{AreFree, AreNew, assignment_view, frames_view, functions_view, name_view};
ghost use Rattle.just_resolve.specs.Prelude.{next_free, numbers_of, parameter_view};

use crate::free::Free;
use crate::renumbered::add_pair;
use just_host::justfile::Justfile;
use just_syntax::name::Name;
use just_syntax::number::Number;
use just_syntax::out_of_memory::OutOfMemory;
use just_value::scope::Scope;
use std::alloc::Global;

/// Numbers for names that a module does not have, such as the parameters of a recipe: each name with its number, in the
/// order of the names. No two have one number, no assignment and no parameter of a function has one of these, and
/// `outer` binds none of them.
///
/// ```rust
/// let numbers = free_numbers(alloc, &module, &outer, &[name, output])?;
/// names.set_parameters(&numbers)?;
/// let parameter = Parameter::new(name, numbers[0].1, ParameterKind::Singular);
/// ```
///
/// # Errors
///
/// `OutOfMemory`, if an allocation fails, if an assignment or a parameter has the number 2⁶⁴ - 1, or if too few numbers
/// are left after the greatest one that they have: nothing is created.
pub fn free_numbers<'src>(
    alloc: Global,
    module: &Justfile<'src>,
    outer: &Scope<'src, '_>,
    names: &[Name<'src>],
) -> Result<Vec<(Name<'src>, Number)>, OutOfMemory>
    ensures names { IfOk result (λ all. map (λ p. p.0) (map parameter_view all.items) ≡ map name_view names.now) }
    ensures new { IfOk result (λ all. AreNew
        (numbers_of (functions_view «module».now) (map assignment_view «module».now.assignments))
        (frames_view outer.now) (map (λ p. p.1) (map parameter_view all.items))) }
{
    let free = Free::unused(alloc, module)?;
    numbers_from(alloc, free, outer, names)
}

/// The first numbers from a start on that `outer` does not bind, for these names: each name with its number, in the
/// order of the names.
///
/// # Errors
///
/// `OutOfMemory`, if an allocation fails, or if too few numbers are left: nothing is created.
pub fn numbers_from<'src>(
    alloc: Global,
    free: Free,
    outer: &Scope<'src, '_>,
    names: &[Name<'src>],
) -> Result<Vec<(Name<'src>, Number)>, OutOfMemory>
    ensures names { IfOk result (λ all. map (λ p. p.0) (map parameter_view all.items) ≡ map name_view names.now) }
    ensures free { IfOk result
        (λ all. AreFree (frames_view outer.now) (next_free free) (map (λ p. p.1) (map parameter_view all.items))) }
{
    let mut free = free;
    let mut all = Vec::with_capacity(alloc, names.len())?;
    for name in names {
        add_pair(&mut all, name, free.take(outer)?)?;
    }
    Ok(all)
}
