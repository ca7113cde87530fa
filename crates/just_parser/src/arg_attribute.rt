// What attributes say of parameters.

use just_syntax::expression::Expression;
use just_syntax::name::Name;
use just_syntax::string_literal::StringLiteral;

/// `[arg(PARAMETER, OPTION, ..)]`: what a parameter of a recipe is. Upstream's `ArgAttribute`.
#[derive(Debug, Drop)]
pub struct ArgAttribute<'src> {
    /// The word `arg`.
    pub name: Name<'src>,
    pub options: Vec<ArgOption<'src>>,
    /// The name of the parameter.
    pub parameter: StringLiteral<'src>,
}

/// An option of `arg` that evaluation needs.
#[derive(Debug, Drop)]
pub enum ArgOption<'src> {
    /// `flag`: the parameter is an option that takes no value.
    Flag,
    /// `multiple`: the parameter is an option that may be given more than once.
    Multiple,
    /// `value=e`: replaces each element of an argument that is not empty.
    Value(Expression<'src>),
}
