// The numbers of names.

use crate::token::parameter;
use just_syntax::name::Name;
use just_syntax::number::Number;
use just_syntax::out_of_memory::OutOfMemory;
use std::alloc::Global;
use std::collections::HashMap;

/// Names and their numbers. The number of a name is its index, counted from 0, among the different names in the order
/// of their first occurrence.
#[derive(Debug, Drop)]
pub struct Numbering<'src> {
    numbers: HashMap<&'src str, Number>,
}

impl<'src> Numbering<'src> {
    ghost use Rattle.std.specs.Prelude.{◌≡◌, IfOk, OnOk, OnErr, map};
    ghost use Rattle.just_syntax.specs.View.{parameter_view};
    ghost use Rattle.just_case_reader.specs.Numbering.{no_names, number_of, numbers_of_names, parameters_with_numbers};
    ghost use Rattle.just_case_reader.specs.Numbering.{with_name, with_names};
    ghost use Rattle.just_case_reader.specs.View.{numbering_view};

    /// No names, with memory for this number of them.
    ///
    /// # Errors
    ///
    /// `OutOfMemory`, if an allocation fails.
    pub fn with_capacity(alloc: Global, names: usize) -> Result<Numbering<'src>, OutOfMemory>
        ensures { IfOk result (λ numbering. numbering_view numbering ≡ no_names) }
    {
        Ok(Numbering {
            numbers: HashMap::with_capacity(alloc, names)?,
        })
    }

    /// The number of a name; a new name gets the next number.
    ///
    /// # Errors
    ///
    /// `OutOfMemory`, if an allocation fails: the names are unchanged.
    pub fn number_of(&mut self, name: &'src str) -> Result<Number, OutOfMemory>
        ensures number { IfOk result (λ number. number ≡ number_of (numbering_view self.old) name.now) }
        ensures ok { OnOk result (numbering_view self.new ≡ with_name (numbering_view self.old) name.now) }
        ensures err { OnErr result (numbering_view self.new ≡ numbering_view self.old) }
    {
        let next = Number::new(self.numbers.len() as u64);
        match self.numbers.entry(name) {
            Ok(entry) => Ok(*entry.or_insert(next)),
            Err(_) => Err(OutOfMemory),
        }
    }

    /// The numbers of names, in order. New names are added.
    ///
    /// # Errors
    ///
    /// `OutOfMemory`, if an allocation fails: the names before the one whose allocation failed have been added.
    pub fn numbers_of(
        &mut self,
        alloc: Global,
        names: &[&'src str],
    ) -> Result<Vec<Number>, OutOfMemory>
        ensures numbers { IfOk result (λ numbers. numbers.items ≡ numbers_of_names (numbering_view self.old)
            (map (λ name. name.now) names.now)) }
        ensures ok { OnOk result (numbering_view self.new ≡ with_names (numbering_view self.old)
            (map (λ name. name.now) names.now)) }
    {
        let mut numbers = Vec::with_capacity(alloc, names.len())?;
        for name in names {
            numbers.push(self.number_of(name)?)?;
        }
        Ok(numbers)
    }

    /// Parameters with these names, in order. New names are added.
    ///
    /// # Errors
    ///
    /// `OutOfMemory`, if an allocation fails: the names before the one whose allocation failed have been added.
    pub fn parameters_of(
        &mut self,
        alloc: Global,
        names: &[&'src str],
    ) -> Result<Vec<(Name<'src>, Number)>, OutOfMemory>
        ensures parameters { IfOk result (λ parameters. map parameter_view parameters.items
            ≡ parameters_with_numbers (numbering_view self.old) (map (λ name. name.now) names.now)) }
        ensures ok { OnOk result (numbering_view self.new ≡ with_names (numbering_view self.old)
            (map (λ name. name.now) names.now)) }
    {
        let mut parameters = Vec::with_capacity(alloc, names.len())?;
        for name in names {
            let number = self.number_of(name)?;
            parameters.extend_from_slice(&[parameter(name, number)])?;
        }
        Ok(parameters)
    }
}
