// Attributes as they are written.

use crate::arg_attribute::ArgAttribute;
use just_syntax::attribute::Attribute;
use just_syntax::name::Name;

/// An attribute as it is written before an item.
#[derive(Drop)]
pub(crate) struct WrittenAttribute<'src> {
    /// What it says of a parameter.
    pub arg: Option<ArgAttribute<'src>>,
    pub attribute: Attribute<'src>,
    pub name: Name<'src>,
}
