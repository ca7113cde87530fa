// Contexts of function calls.

use crate::execution_context::ExecutionContext;
use just_syntax::name::Name;
use just_value::scope::Scope;
use std::collections::BTreeMap;
use std::fmt;

/// The context of a call of a built-in function.
#[derive(Clone, Copy)]
pub struct Context<'src, 'run> {
    /// The recipe's environment.
    pub env: &'run BTreeMap<String, String>,
    pub execution_context: &'run ExecutionContext<'src, 'run>,
    /// Whether the recipe runs as another one's dependency.
    pub is_dependency: bool,
    /// The name that the function was called by.
    pub name: Name<'src>,
    /// The recipe that contains the call, if any.
    pub recipe: Option<Name<'src>>,
    /// The variables that are visible to the call.
    pub scope: &'run Scope<'src, 'run>,
}

// Each field by its name, the scope and the execution context last. The format is unspecified.
impl fmt::Debug for Context<'_, '_> {
    fn fmt<W: fmt::Write>(&self, f: &mut fmt::Formatter<W>) -> fmt::Result {
        f.debug_struct("Context")
            .field("env", self.env)
            .field("is_dependency", &self.is_dependency)
            .field("name", &self.name)
            .field("recipe", &self.recipe)
            .finish()?;
        f.write_str(" with scope ")?;
        fmt::Debug::fmt(self.scope, f)?;
        f.write_str(" with ")?;
        fmt::Debug::fmt(self.execution_context, f)
    }
}
