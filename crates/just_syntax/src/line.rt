// Lines of recipes.

ghost use Rattle.std.specs.Prelude.{◌≡◌};
ghost use Rattle.just_syntax.specs.Prelude.{line_view};

use crate::fragment::Fragment;
use std::alloc::AllocError;

/// A line of a recipe.
#[derive(Debug, Drop)]
pub struct Line<'src> {
    pub fragments: Vec<Fragment<'src>>,
}

impl<'src> Line<'src> {
    /// The line of these fragments, in order.
    pub fn new(fragments: Vec<Fragment<'src>>) -> Line<'src>
        ensures { result.fragments ≡ fragments.entry }
    {
        Line { fragments }
    }
}

/// A copy. `AllocError`, if an allocation fails or a fragment cannot be copied: nothing is created.
impl Clone for Line<'_> {
    ghost is_clone = { λ line copy. line_view copy ≡ line_view line };

    fn clone(&self) -> Result<Self, AllocError> {
        Ok(Line {
            fragments: self.fragments.clone()?,
        })
    }
}
