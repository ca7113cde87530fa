// Bindings of variables.

ghost use Rattle.std.specs.Prelude.{◌≡◌};
ghost use Rattle.just_syntax.specs.View.{name_view};
ghost use Rattle.just_value.specs.Frames.{plainly_bound};

use crate::value::Value;
use just_syntax::attribute_set::AttributeSet;
use just_syntax::name::Name;
use just_syntax::number::Number;
use std::alloc::Global;

/// A variable's value, and how it was assigned.
#[derive(Debug, Drop)]
pub struct Binding<'src> {
    pub attributes: AttributeSet<'src>,
    pub eager: bool,
    pub export: bool,
    pub file_depth: u32,
    pub name: Name<'src>,
    pub number: Number,
    pub prelude: bool,
    pub private: bool,
    pub value: Value,
}

impl<'src> Binding<'src> {
    ghost use Rattle.just_value.specs.View.{bound_view};

    /// A binding with no attributes, all flags off, of an assignment in the root file. It allocates nothing.
    pub fn new(alloc: Global, name: Name<'src>, number: Number, value: Value) -> Binding<'src>
        ensures { bound_view result ≡ plainly_bound (name_view name.entry) number value }
    {
        Binding {
            attributes: AttributeSet::new(alloc),
            eager: false,
            export: false,
            file_depth: 0,
            name,
            number,
            prelude: false,
            private: false,
            value,
        }
    }
}
