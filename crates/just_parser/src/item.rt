// Items of a justfile.

use crate::recipe_definition::RecipeDefinition;
use just_syntax::assignment::Assignment;
use just_syntax::function_definition::FunctionDefinition;
use just_syntax::name::Name;
use just_syntax::set::Set;

/// An item of a justfile. Upstream's `Item`.
#[derive(Debug, Drop)]
pub enum Item<'src> {
    /// `alias NAME := TARGET`: a recipe under another name.
    Alias {
        name: Name<'src>,
        target: Name<'src>,
    },
    /// `NAME := expression`
    Assignment(Assignment<'src>),
    /// `NAME(PARAMETER, ..) := expression`
    Function(FunctionDefinition<'src>),
    /// `NAME PARAMETER ..: DEPENDENCY ..`, and its lines.
    Recipe(RecipeDefinition<'src>),
    /// `set NAME`, or `set NAME := value`
    Set(Set<'src>),
    /// `unexport NAME`: the environment variable is not passed on to commands.
    Unexport {
        name: Name<'src>,
    },
}
