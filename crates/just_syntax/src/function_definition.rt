// Functions defined in the file.

ghost use Rattle.std.specs.Prelude.{map, ◌≡◌};
ghost use Rattle.just_syntax.specs.Prelude.{function_view, name_view, parameter_view, view};

use crate::expression::Expression;
use crate::keyed::Keyed;
use crate::name::Name;
use crate::number::Number;
use std::alloc::AllocError;

/// A function defined in the file: its parameters, each with its number, and its body.
#[derive(Debug, Drop)]
pub struct FunctionDefinition<'src> {
    pub body: Expression<'src>,
    pub name: Name<'src>,
    pub parameters: Vec<(Name<'src>, Number)>,
}

impl<'src> FunctionDefinition<'src> {
    /// The function with this name and these parameters, each with its number, in order.
    pub fn new(
        name: Name<'src>,
        parameters: Vec<(Name<'src>, Number)>,
        body: Expression<'src>,
    ) -> FunctionDefinition<'src>
        ensures { function_view result ≡ record {
          body = view body.entry;
          name = name_view name.entry;
          parameters = map parameter_view parameters.entry.items;
        } }
    {
        FunctionDefinition {
            body,
            name,
            parameters,
        }
    }
}

/// A copy. `AllocError`, if its body or its parameters cannot be copied: nothing is created.
impl Clone for FunctionDefinition<'_> {
    ghost is_clone = { λ function copy. function_view copy ≡ function_view function };

    fn clone(&self) -> Result<Self, AllocError> {
        let parameters = self.parameters.clone()?;
        Ok(FunctionDefinition {
            body: self.body.clone()?,
            name: self.name,
            parameters,
        })
    }
}

impl Keyed for FunctionDefinition<'_> {
    ghost key_text = { λ function. function.name.token.lexeme.now };

    fn key(&self) -> &str {
        self.name.lexeme()
    }
}
