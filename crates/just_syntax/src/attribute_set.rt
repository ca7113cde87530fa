// Attributes with their names.

ghost use Rattle.std.specs.Prelude.{OnErr, OnOk, [], map, ◌++◌, ◌∷◌, ◌≡◌};
ghost use Rattle.std.specs.Slice.Iter.{iter_rest};
ghost use Rattle.just_syntax.specs.Prelude.{attribute_view, attributes_view, name_view, named_attribute_view};

use crate::attribute::Attribute;
use crate::name::Name;
use crate::out_of_memory::OutOfMemory;
use std::alloc::{AllocError, Global};
use std::slice::Iter;

/// Attributes and the names that they were written under, in the order of insertion.
#[derive(Debug, Drop)]
pub struct AttributeSet<'src> {
    attributes: Vec<(Attribute<'src>, Name<'src>)>,
}

impl<'src> AttributeSet<'src> {
    /// An empty set. It allocates nothing. Upstream's `AttributeSet::new`.
    pub fn new(alloc: Global) -> AttributeSet<'src>
        ensures { attributes_view result ≡ [] }
    {
        AttributeSet {
            attributes: Vec::new(alloc),
        }
    }

    /// Adds an attribute after the others, with the name that it was written under.
    ///
    /// # Errors
    ///
    /// `OutOfMemory`, if an allocation fails: the set is unchanged, and the attribute is dropped.
    pub fn push(&mut self, attribute: Attribute<'src>, name: Name<'src>) -> Result<(), OutOfMemory>
        ensures ok { OnOk result (attributes_view self.new ≡ attributes_view self.old
            ++ (attribute_view attribute.entry, name_view name.entry) ∷ []) }
        ensures err { OnErr result (attributes_view self.new ≡ attributes_view self.old) }
    {
        self.attributes.push((attribute, name))?;
        Ok(())
    }

    /// The attributes, each with its name, in the order of insertion.
    pub fn iter(&self) -> Iter<'_, (Attribute<'src>, Name<'src>)>
        ensures { map named_attribute_view (iter_rest result) ≡ attributes_view self.now }
    {
        self.attributes.iter()
    }
}

/// A copy. `AllocError`, if an allocation fails or an attribute cannot be copied: nothing is created.
impl Clone for AttributeSet<'_> {
    ghost is_clone = { λ set copy. attributes_view copy ≡ attributes_view set };

    fn clone(&self) -> Result<Self, AllocError> {
        Ok(AttributeSet {
            attributes: self.attributes.clone()?,
        })
    }
}
