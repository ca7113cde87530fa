// Recipes with all their parts.

use crate::arg_attribute::ArgAttribute;
use crate::dependency::Dependency;
use just_syntax::keyed::Keyed;
use just_syntax::line::Line;
use just_syntax::parameter::Parameter;
use just_syntax::recipe::Recipe;

/// A recipe with all its parts. Upstream's `UnresolvedRecipe`.
#[derive(Debug, Drop)]
pub struct RecipeDefinition<'src> {
    /// What its attributes say of its parameters.
    pub args: Vec<ArgAttribute<'src>>,
    /// The lines, without the empty ones at the end.
    pub body: Vec<Line<'src>>,
    /// What is run before it.
    pub dependencies: Vec<Dependency<'src>>,
    pub parameters: Vec<Parameter<'src>>,
    /// Whether `@` comes before its name.
    pub quiet: bool,
    /// Its name, and its attributes.
    pub recipe: Recipe<'src>,
    /// What is run after it.
    pub subsequents: Vec<Dependency<'src>>,
}

impl Keyed for RecipeDefinition<'_> {
    ghost key_text = { λ definition. definition.recipe.name.token.lexeme.now };

    fn key(&self) -> &str {
        self.recipe.name()
    }
}
