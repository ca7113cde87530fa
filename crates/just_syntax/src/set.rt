// `set` statements.

ghost use Rattle.std.specs.Prelude.{◌≡◌};
ghost use Rattle.just_syntax.specs.Prelude.{set_view};

use crate::keyed::Keyed;
use crate::name::Name;
use crate::setting::Setting;
use std::alloc::AllocError;

/// A `set` statement: a setting by its name.
#[derive(Debug, Drop)]
pub struct Set<'src> {
    pub name: Name<'src>,
    pub value: Setting<'src>,
}

impl<'src> Set<'src> {
    /// The statement that sets the setting of this name to this value.
    pub fn new(name: Name<'src>, value: Setting<'src>) -> Set<'src>
        ensures name { result.name ≡ name.entry }
        ensures value { result.value ≡ value.entry }
    {
        Set { name, value }
    }
}

/// A copy. `AllocError`, if its setting cannot be copied: nothing is created.
impl Clone for Set<'_> {
    ghost is_clone = { λ set copy. set_view copy ≡ set_view set };

    fn clone(&self) -> Result<Self, AllocError> {
        Ok(Set {
            name: self.name,
            value: self.value.clone()?,
        })
    }
}

impl Keyed for Set<'_> {
    ghost key_text = { λ set. set.name.token.lexeme.now };

    fn key(&self) -> &str {
        self.name.lexeme()
    }
}
