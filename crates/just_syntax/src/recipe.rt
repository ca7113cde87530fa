// Recipes, as far as evaluation needs them.

ghost use Rattle.std.specs.Prelude.{[], ◌≡◌};
ghost use Rattle.just_syntax.specs.Prelude.{name_view, recipe_view};

use crate::attribute_set::AttributeSet;
use crate::name::Name;
use std::alloc::{AllocError, Global};

/// A recipe, as far as evaluation needs it.
#[derive(Debug, Drop)]
pub struct Recipe<'src> {
    pub attributes: AttributeSet<'src>,
    pub name: Name<'src>,
}

impl<'src> Recipe<'src> {
    /// A recipe with this name and no attribute. It allocates nothing.
    pub fn new(alloc: Global, name: Name<'src>) -> Recipe<'src>
        ensures { recipe_view result ≡ record { attributes = []; name = name_view name.entry } }
    {
        Recipe {
            attributes: AttributeSet::new(alloc),
            name,
        }
    }

    /// The text of its name. Upstream's `Recipe::name`.
    pub fn name(&self) -> &'src str
        ensures { result.now ≡ (recipe_view self.now).name.lexeme }
    {
        self.name.lexeme()
    }
}

/// A copy. `AllocError`, if its attributes cannot be copied: nothing is created.
impl Clone for Recipe<'_> {
    ghost is_clone = { λ recipe copy. recipe_view copy ≡ recipe_view recipe };

    fn clone(&self) -> Result<Self, AllocError> {
        Ok(Recipe {
            attributes: self.attributes.clone()?,
            name: self.name,
        })
    }
}
