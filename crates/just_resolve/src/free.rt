// Numbers that a scope does not bind.

ghost use Rattle.std.specs.Prelude.{IfOk, map, suc, ◌≡◌};
ghost use Rattle.just_resolve.specs.Prelude.{AreBelow, IsNextFree, assignment_view, frames_view, functions_view};
ghost use Rattle.just_resolve.specs.Prelude.{next_free, numbers_of, parameter_view};

use just_host::justfile::Justfile;
use just_resolution::numbers::{add_parameter_numbers, assignment_numbers};
use just_syntax::name::Name;
use just_syntax::number::Number;
use just_syntax::out_of_memory::OutOfMemory;
use just_value::scope::Scope;
use std::alloc::Global;

/// Numbers from a start on, for names that have none yet. Those that a scope binds are passed over.
#[derive(Clone, Copy, Debug)]
pub struct Free {
    next: u64,
}

impl Free {
    /// From the number after the greatest one that an assignment or a parameter of a function has.
    ///
    /// # Errors
    ///
    /// `OutOfMemory`, if an allocation fails, or if one of them has the number 2⁶⁴ - 1.
    pub fn unused(alloc: Global, module: &Justfile) -> Result<Free, OutOfMemory>
        ensures { IfOk result (λ free. AreBelow (next_free free)
            (numbers_of (functions_view «module».now) (map assignment_view «module».now.assignments))) }
    {
        let mut used = assignment_numbers(alloc, &module.assignments)?;
        add_parameter_numbers(&mut used, &module.functions)?;
        Free::beyond(&used)
    }

    // From 0.
    pub(crate) fn new() -> Free
        ensures { next_free result ≡ 0 }
    {
        Free { next: 0 }
    }

    // From the number after the greatest of these. Numbers run out as memory does, if the greatest of all is used.
    pub(crate) fn beyond(used: &[(Name, Number)]) -> Result<Free, OutOfMemory>
        ensures { IfOk result (λ free. AreBelow (next_free free) (map (λ p. p.1) (map parameter_view used.now))) }
    {
        let mut next: u64 = 0;
        for (_, number) in used {
            match number.get().checked_add(1) {
                Some(after) => next = next.max(after),
                None => return Err(OutOfMemory),
            }
        }
        Ok(Free { next })
    }

    // The next number that the scope does not bind. Numbers run out as memory does: each was given to a name in memory,
    // or is bound.
    pub(crate) fn take(&mut self, outer: &Scope) -> Result<Number, OutOfMemory>
        ensures first { IfOk result (λ n. IsNextFree (frames_view outer.now) (next_free self.old) n) }
        ensures next { IfOk result (λ n. next_free self.new ≡ suc n) }
    {
        for number in self.next..u64::MAX {
            if outer.value(Number::new(number)).is_none() {
                self.next = number + 1;
                return Ok(Number::new(number));
            }
        }
        Err(OutOfMemory)
    }
}
