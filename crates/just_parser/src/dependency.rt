// Dependencies of recipes.

use just_syntax::expression::Expression;
use just_syntax::name::Name;

/// A recipe that another one depends on, with the arguments that it is called with. Upstream's `UnresolvedDependency`.
#[derive(Debug, Drop)]
pub struct Dependency<'src> {
    pub arguments: Vec<Expression<'src>>,
    pub recipe: Name<'src>,
}
