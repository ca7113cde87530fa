// Sets of numbers.

ghost use Rattle.std.specs.Prelude.{IfOk, IsTrue, OnOk, false, not, ℕ, ◌↔◌, ◌≡◌, ◌⊎◌};
ghost use Rattle.just_syntax.specs.Prelude.{is_member};

use crate::number::Number;
use crate::out_of_memory::OutOfMemory;
use std::alloc::Global;
use std::collections::BTreeSet;

/// A set of numbers. Members below a bound are found without a search.
#[derive(Drop)]
pub struct NumberSet {
    // Whether each number below the bound is a member.
    low: Vec<bool>,
    // The other members.
    high: BTreeSet<Number>,
}

impl NumberSet {
    /// An empty set. It allocates a byte for each number below `bound`, so `bound` has to be a count of variables and
    /// never a number of one.
    ///
    /// # Errors
    ///
    /// `OutOfMemory` if the allocation fails.
    #[tactic(auto, unfolding(crate::specs::NumberSet::is_member))]
    pub fn new(alloc: Global, bound: usize) -> Result<NumberSet, OutOfMemory>
        ensures { IfOk result (λ set. (n : ℕ) → is_member set n ≡ false) }
    {
        let low = vec![in alloc; false; bound]?;
        Ok(NumberSet {
            low,
            high: BTreeSet::new(alloc),
        })
    }

    /// Whether a number is a member.
    #[tactic(auto, unfolding(crate::specs::NumberSet::is_member))]
    pub fn contains(&self, number: Number) -> bool
        ensures { result ≡ is_member self.now number }
    {
        match self.low.get(number.index()) {
            Some(is_member) => *is_member,
            None => self.high.contains(&number),
        }
    }

    /// Adds a number, and returns whether it was new.
    ///
    /// # Errors
    ///
    /// `OutOfMemory` if an allocation fails.
    #[tactic(auto, unfolding(crate::specs::NumberSet::is_member))]
    pub fn insert(&mut self, number: Number) -> Result<bool, OutOfMemory>
        ensures new { IfOk result (λ is_new. is_new ≡ not (is_member self.old number)) }
        ensures members { OnOk result ((n : ℕ) → IsTrue (is_member self.new n)
            ↔ ((number ≡ n) ⊎ IsTrue (is_member self.old n))) }
    {
        let index = number.index();
        if index < self.low.len() {
            let is_new = !self.low[index];
            self.low[index] = true;
            Ok(is_new)
        } else {
            let is_new = self.high.insert(number)?;
            Ok(is_new)
        }
    }
}
