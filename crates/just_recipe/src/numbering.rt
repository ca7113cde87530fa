// What recipes are numbered with.

ghost use Rattle.std.specs.Prelude.{IfOk, map, ◌≡◌};
ghost use Rattle.just_recipe.specs.Numbered.{IsCopyFrom, numbered_recipe_view};
ghost use Rattle.just_parser.specs.View.{recipe_definition_view};
ghost use Rattle.just_resolve.specs.Prelude.{AreBelow, Text, assignment_view, first_named, frames_view, functions_view};
ghost use Rattle.just_resolve.specs.Prelude.{name_view, next_free, numbers_of, variable_named, visible};

use crate::numbered_recipe::NumberedRecipe;
use just_host::justfile::Justfile;
use just_parser::recipe_definition::RecipeDefinition;
use just_resolve::free::Free;
use just_resolve::free_numbers::numbers_from;
use just_resolve::names::Names;
use just_syntax::name::Name;
use just_syntax::out_of_memory::OutOfMemory;
use just_syntax::parameter::Parameter;
use just_syntax::recipe::Recipe;
use just_syntax::results::followed;
use just_value::scope::Scope;
use std::alloc::Global;

/// What the recipes of a module are numbered with: the names that all of them can read, and numbers that nothing has.
#[derive(Drop)]
pub struct Numbering<'src> {
    pub free: Free,
    pub names: Names<'src>,
}

impl<'src> Numbering<'src> {
    /// That of a resolved module.
    ///
    /// ```rust
    /// let mut numbering = Numbering::of(alloc, &analysis.justfile, &outer)?;
    /// for definition in &analysis.recipes {
    ///     let recipe = numbering.number(alloc, definition, &outer)?;
    ///     ..
    /// }
    /// ```
    ///
    /// # Errors
    ///
    /// `OutOfMemory`, if an allocation fails, or if a variable has the number 2⁶⁴ - 1: nothing is created.
    pub fn of(
        alloc: Global,
        module: &Justfile<'src>,
        outer: &Scope<'src, '_>,
    ) -> Result<Numbering<'src>, OutOfMemory>
        ensures names { IfOk result (λ numbering. (t : Text) → variable_named numbering.names t
            ≡ first_named (visible (map assignment_view «module».now.assignments) (frames_view outer.now)) t) }
        ensures free { IfOk result (λ numbering. AreBelow (next_free numbering.free)
            (numbers_of (functions_view «module».now) (map assignment_view «module».now.assignments))) }
    {
        Ok(Numbering {
            free: Free::unused(alloc, module)?,
            names: Names::of(alloc, module, outer)?,
        })
    }

    /// A numbered copy of a recipe of the module, as by [`numbered_recipe`].
    ///
    /// # Errors
    ///
    /// As [`numbered_recipe`].
    pub fn number(
        &mut self,
        alloc: Global,
        definition: &RecipeDefinition<'src>,
        outer: &Scope<'src, '_>,
    ) -> Result<NumberedRecipe<'src>, OutOfMemory>
        ensures copy { IfOk result (λ copy. IsCopyFrom (variable_named self.old.names) (frames_view outer.now)
            (next_free self.old.free) (recipe_definition_view definition.now) (numbered_recipe_view copy)) }
        ensures names { (t : Text) → variable_named self.new.names t ≡ variable_named self.old.names t }
        ensures free { self.new.free ≡ self.old.free }
    {
        let parameters = parameter_names(alloc, &definition.parameters)?;
        let numbers = numbers_from(alloc, self.free, outer, &parameters)?;
        self.names.clear_parameters();
        let mut copy = NumberedRecipe {
            body: Vec::new(alloc),
            dependencies: Vec::new(alloc),
            parameters: Vec::new(alloc),
            recipe: Recipe::new(alloc, definition.recipe.name),
            subsequents: Vec::new(alloc),
        };
        let filled = copy.fill(alloc, definition, &mut self.names, &numbers);
        followed(copy, filled)
    }
}

// The names of parameters.
fn parameter_names<'src>(
    alloc: Global,
    parameters: &[Parameter<'src>],
) -> Result<Vec<Name<'src>>, OutOfMemory>
    ensures { IfOk result (λ names. map name_view names.items ≡ map (λ p. name_view p.name) parameters.now) }
{
    let mut names = Vec::new(alloc);
    for parameter in parameters {
        names.push(parameter.name)?;
    }
    Ok(names)
}
