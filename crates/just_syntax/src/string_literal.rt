// String literals.

ghost use Rattle.std.specs.Prelude.{IfOk, false, ◌≡◌};
ghost use Rattle.just_syntax.specs.Prelude.{literal_view};

use crate::out_of_memory::OutOfMemory;
use crate::text::Text;
use std::alloc::{AllocError, Global};
use std::fmt;

/// A string literal: its text, how it was written, and whether its text was unindented.
#[derive(Debug, Drop)]
pub struct StringLiteral<'src> {
    pub cooked: Text,
    pub lexeme: &'src str,
    pub indented: bool,
}

impl<'src> StringLiteral<'src> {
    /// A literal with this text, written as `lexeme`, quotes included, and not unindented. It does not check that the
    /// two agree.
    ///
    /// # Errors
    ///
    /// `OutOfMemory`, if the text cannot be copied: nothing is created.
    pub fn new(
        alloc: Global,
        text: &str,
        lexeme: &'src str,
    ) -> Result<StringLiteral<'src>, OutOfMemory>
        ensures { IfOk result (λ l. literal_view l ≡ record {
          cooked = text.now;
          lexeme = lexeme.now;
          indented = false;
        }) }
    {
        Ok(StringLiteral {
            cooked: Text::from_str(alloc, text)?,
            lexeme,
            indented: false,
        })
    }
}

/// A copy. `AllocError`, if its text cannot be copied: nothing is created.
impl Clone for StringLiteral<'_> {
    ghost is_clone = { λ literal copy. literal_view copy ≡ literal_view literal };

    fn clone(&self) -> Result<Self, AllocError> {
        Ok(StringLiteral {
            cooked: self.cooked.clone()?,
            lexeme: self.lexeme,
            indented: self.indented,
        })
    }
}

impl fmt::Display for StringLiteral<'_> {
    ghost use Rattle.std.specs.Prelude.{Some};

    ghost output = { λ literal. Some literal.lexeme.now };

    ghost styled_output = { λ literal _. Some literal.lexeme.now };

    fn fmt<W: fmt::Write>(&self, f: &mut fmt::Formatter<W>) -> fmt::Result {
        f.write_str(self.lexeme)
    }
}
