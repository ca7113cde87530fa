// Parameters of recipes.

ghost use Rattle.std.specs.Prelude.{None, false, ◌≡◌};
ghost use Rattle.just_syntax.specs.Prelude.{name_view, recipe_parameter_view};

use crate::both::both;
use crate::expression::Expression;
use crate::name::Name;
use crate::number::Number;
use crate::parameter_kind::ParameterKind;
use std::alloc::AllocError;

/// A parameter of a recipe.
#[derive(Debug, Drop)]
pub struct Parameter<'src> {
    /// Replaces an empty argument.
    pub default: Option<Expression<'src>>,
    pub export: bool,
    /// Whether it is an option that takes no value.
    pub flag: bool,
    pub kind: ParameterKind,
    /// Whether it is an option that may be given more than once.
    pub multiple: bool,
    pub name: Name<'src>,
    pub number: Number,
    /// Replaces each element of an argument that is not empty.
    pub value: Option<Expression<'src>>,
}

impl<'src> Parameter<'src> {
    /// A parameter that is neither exported nor an option, with no default and no value of its own.
    pub fn new(name: Name<'src>, number: Number, kind: ParameterKind) -> Parameter<'src>
        ensures { recipe_parameter_view result ≡ record {
          default = None;
          export = false;
          flag = false;
          kind = kind;
          multiple = false;
          name = name_view name.entry;
          number = number;
          value = None;
        } }
    {
        Parameter {
            default: None,
            export: false,
            flag: false,
            kind,
            multiple: false,
            name,
            number,
            value: None,
        }
    }
}

/// A copy. `AllocError`, if an expression cannot be copied: nothing is created.
impl Clone for Parameter<'_> {
    ghost is_clone = { λ parameter copy. recipe_parameter_view copy ≡ recipe_parameter_view parameter };

    fn clone(&self) -> Result<Self, AllocError> {
        let (default, value) = both(&self.default, &self.value)?;
        Ok(Parameter {
            default,
            export: self.export,
            flag: self.flag,
            kind: self.kind,
            multiple: self.multiple,
            name: self.name,
            number: self.number,
            value,
        })
    }
}
