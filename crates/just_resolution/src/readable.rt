// What an assignment of the order may read.

ghost use Rattle.std.specs.Prelude.{IfOk, IsTrue, OnOk, false, ℕ, ◌↔◌, ◌≡◌, ◌⊎◌};

use just_syntax::number::Number;
use just_syntax::number_set::NumberSet;
use just_syntax::out_of_memory::OutOfMemory;
use just_value::scope::Scope;
use std::alloc::Global;

/// The numbers that may be read: those that were taken, and those that are bound outside.
#[derive(Drop)]
pub struct Readable<'src, 'scope, 'run> {
    pub outer: &'scope Scope<'src, 'run>,
    taken: NumberSet,
}

impl<'src, 'scope, 'run> Readable<'src, 'scope, 'run> {
    ghost use Rattle.just_resolution.specs.Seen.{is_number_taken, is_readable};

    /// With nothing taken. It allocates a byte for each number below `bound`.
    ///
    /// # Errors
    ///
    /// `OutOfMemory` if an allocation fails: nothing is created.
    pub fn new(
        alloc: Global,
        outer: &'scope Scope<'src, 'run>,
        bound: usize,
    ) -> Result<Readable<'src, 'scope, 'run>, OutOfMemory>
        ensures taken { IfOk result (λ readable. (n : ℕ) → is_number_taken readable n ≡ false) }
        ensures outer { IfOk result (λ readable. readable.outer ≡ outer.entry) }
    {
        let taken = NumberSet::new(alloc, bound)?;
        Ok(Readable { outer, taken })
    }

    /// Whether a number was taken.
    pub fn has_taken(&self, number: Number) -> bool
        ensures { result ≡ is_number_taken self.now number }
    {
        self.taken.contains(number)
    }

    /// Whether a number may be read.
    pub fn contains(&self, number: Number) -> bool
        ensures { result ≡ is_readable self.now number }
    {
        self.has_taken(number) || self.outer.value(number).is_some()
    }

    /// Takes a number.
    ///
    /// # Errors
    ///
    /// `OutOfMemory` if an allocation fails.
    pub fn take(&mut self, number: Number) -> Result<(), OutOfMemory>
        ensures taken { OnOk result ((n : ℕ) → IsTrue (is_number_taken self.new n)
            ↔ (IsTrue (is_number_taken self.old n) ⊎ (number ≡ n))) }
        ensures outer { self.new.outer ≡ self.old.outer }
    {
        self.taken.insert(number)?;
        Ok(())
    }
}
