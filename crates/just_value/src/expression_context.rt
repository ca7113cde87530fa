// The numbers of names in an expression.

ghost use Rattle.std.proofs.Props.{props};
ghost use Rattle.just_value.specs.Rising.{AreRisingNames};

use just_syntax::name::Name;
use just_syntax::number::Number;
use just_syntax::out_of_memory::OutOfMemory;
use just_syntax::parameter::Parameter;
use std::alloc::{AllocError, Global};

/// The numbers of names in an expression. The names are sorted by their bytes, without duplicates.
#[derive(Debug, Drop)]
pub struct ExpressionContext<'src> {
    bindings: Vec<(&'src str, Number)>,
    ghost rising: { AreRisingNames bindings.items } by { Prim.hlevel props },
}

impl<'src> ExpressionContext<'src> {
    ghost use Rattle.std.specs.Prelude.{◌≡◌, ℕ, List, None, IfOk, map, reverse};
    ghost use Rattle.std.specs.Cmp.Lexicographic.{slice_cmp};
    ghost use Rattle.std.specs.Map.{lookup};
    ghost use Rattle.std.specs.Ordering.{nat_cmp};
    ghost use Rattle.std.specs.Str.{bytes_eq};
    ghost use Rattle.just_syntax.specs.View.{parameter_view, recipe_parameter_view};
    ghost use Rattle.just_value.specs.Numbering.{last_of, numbered};
    ghost use Rattle.just_value.specs.Places.{IsPlace};
    ghost use Rattle.just_value.specs.View.{looked_up};

    /// No names. It allocates nothing. Upstream's `ExpressionContext::new`.
    pub fn new(alloc: Global) -> ExpressionContext<'src>
        ensures { (name : List ℕ) → looked_up result name ≡ None }
    {
        ExpressionContext {
            bindings: Vec::new(alloc),
        }
    }

    /// The names of pairs, each with its number. Of equal names the last pair counts. Upstream's
    /// `ExpressionContext::from` of such pairs.
    ///
    /// # Errors
    ///
    /// `OutOfMemory`, if an allocation fails: nothing is created.
    pub fn from_pairs(
        alloc: Global,
        pairs: &[(Name<'src>, Number)],
    ) -> Result<ExpressionContext<'src>, OutOfMemory>
        ensures { IfOk result (λ context. (name : List ℕ)
            → looked_up context name ≡ last_of (map parameter_view pairs.now) name) }
    {
        ExpressionContext::from_first(ExpressionContext::pairs_backwards(alloc, pairs)?)
    }

    /// The names of parameters, each with its number. Of equal names the last parameter counts. Upstream's
    /// `ExpressionContext::from` of parameters.
    ///
    /// # Errors
    ///
    /// `OutOfMemory`, if an allocation fails: nothing is created.
    pub fn from_parameters(
        alloc: Global,
        parameters: &[Parameter<'src>],
    ) -> Result<ExpressionContext<'src>, OutOfMemory>
        ensures { IfOk result (λ context. (name : List ℕ)
            → looked_up context name ≡ last_of (numbered (map recipe_parameter_view parameters.now)) name) }
    {
        ExpressionContext::from_first(ExpressionContext::parameters_backwards(alloc, parameters)?)
    }

    /// The number of a name, if it is one of these. Upstream's `ExpressionContext::lookup`.
    pub fn lookup(&self, name: &str) -> Option<Number>
        ensures { result ≡ looked_up self.now name.now }
    {
        match self.place(name) {
            Ok(at) => Some(self.bindings[at].1),
            Err(_) => None,
        }
    }

    // The index of a name, or the index where it would be inserted.
    fn place(&self, name: &str) -> Result<usize, usize>
        ensures { IsPlace (λ b. slice_cmp nat_cmp b.0.now name.now) self.now.bindings.items result }
    {
        self.bindings
            .binary_search_by_key(&name, |binding| binding.0)
    }

    // The names of pairs with their numbers, in reverse order.
    fn pairs_backwards(
        alloc: Global,
        pairs: &[(Name<'src>, Number)],
    ) -> Result<Vec<(&'src str, Number)>, AllocError>
        ensures { IfOk result (λ bindings. bindings.items ≡ map (λ p. (p.0.token.lexeme, p.1)) (reverse pairs.now)) }
    {
        pairs
            .iter()
            .rev()
            .map(|(name, number)| (name.lexeme(), *number))
            .collect(alloc)
    }

    // The names of parameters with their numbers, in reverse order.
    fn parameters_backwards(
        alloc: Global,
        parameters: &[Parameter<'src>],
    ) -> Result<Vec<(&'src str, Number)>, AllocError>
        ensures { IfOk result (λ bindings. bindings.items ≡ map (λ p. (p.name.token.lexeme, p.number))
            (reverse parameters.now)) }
    {
        parameters
            .iter()
            .rev()
            .map(|parameter| (parameter.name.lexeme(), parameter.number))
            .collect(alloc)
    }

    // Of equal names the first counts: the sort is stable, and the first of a run of equal names is kept.
    fn from_first(
        mut bindings: Vec<(&'src str, Number)>,
    ) -> Result<ExpressionContext<'src>, OutOfMemory>
        ensures { IfOk result (λ context. (name : List ℕ)
            → looked_up context name ≡ lookup (λ key. bytes_eq name key.now) bindings.entry.items) }
    {
        bindings.sort_by_key(|binding| binding.0)?;
        bindings.dedup_by_key(|binding| binding.0);
        Ok(ExpressionContext { bindings })
    }
}
