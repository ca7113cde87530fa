// Assignments.

ghost use Rattle.std.specs.Prelude.{false, ◌≡◌};
ghost use Rattle.just_syntax.specs.Prelude.{assignment_view, name_view, view};

use crate::expression::Expression;
use crate::keyed::Keyed;
use crate::name::Name;
use crate::number::Number;
use std::alloc::AllocError;

/// A variable, and the expression that gives its value.
#[derive(Debug, Drop)]
pub struct Assignment<'src> {
    pub eager: bool,
    pub export: bool,
    pub name: Name<'src>,
    pub number: Number,
    pub private: bool,
    pub value: Expression<'src>,
}

impl<'src> Assignment<'src> {
    /// A variable that is neither evaluated early, nor exported, nor private.
    pub fn new(name: Name<'src>, number: Number, value: Expression<'src>) -> Assignment<'src>
        ensures { assignment_view result ≡ record {
          eager = false;
          export = false;
          name = name_view name.entry;
          number = number;
          private = false;
          value = view value.entry;
        } }
    {
        Assignment {
            eager: false,
            export: false,
            name,
            number,
            private: false,
            value,
        }
    }
}

/// A copy. `AllocError`, if its expression cannot be copied: nothing is created.
impl Clone for Assignment<'_> {
    ghost is_clone = { λ assignment copy. assignment_view copy ≡ assignment_view assignment };

    fn clone(&self) -> Result<Self, AllocError> {
        Ok(Assignment {
            eager: self.eager,
            export: self.export,
            name: self.name,
            number: self.number,
            private: self.private,
            value: self.value.clone()?,
        })
    }
}

impl Keyed for Assignment<'_> {
    ghost key_text = { λ assignment. assignment.name.token.lexeme.now };

    fn key(&self) -> &str {
        self.name.lexeme()
    }
}
