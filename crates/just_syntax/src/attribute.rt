// Attributes.

ghost use Rattle.std.specs.Prelude.{◌≡◌};
ghost use Rattle.just_syntax.specs.Prelude.{attribute_view};

use crate::both::both;
use crate::expression::Expression;
use std::alloc::AllocError;

/// An attribute of a recipe or an assignment.
#[derive(Debug, Drop)]
pub enum Attribute<'src> {
    /// `[env(key, value)]`: a variable of the recipe's environment.
    Env(Expression<'src>, Expression<'src>),
    /// Any other attribute, which evaluation ignores.
    Other,
}

/// A copy. `AllocError`, if an expression cannot be copied: nothing is created.
impl Clone for Attribute<'_> {
    ghost is_clone = { λ attribute copy. attribute_view copy ≡ attribute_view attribute };

    fn clone(&self) -> Result<Self, AllocError> {
        match self {
            Attribute::Env(key, value) => {
                let (key, value) = both(key, value)?;
                Ok(Attribute::Env(key, value))
            }
            Attribute::Other => Ok(Attribute::Other),
        }
    }
}
