// Fragments of lines.

ghost use Rattle.std.specs.Prelude.{◌≡◌};
ghost use Rattle.just_syntax.specs.Prelude.{fragment_view};

use crate::expression::Expression;
use crate::token::Token;
use std::alloc::AllocError;

/// A fragment of a line.
#[derive(Debug, Drop)]
pub enum Fragment<'src> {
    /// Verbatim text, in which `{{{{` stands for `{{`.
    Text { token: Token<'src> },
    /// `{{expression}}`
    Interpolation { expression: Expression<'src> },
}

/// A copy. `AllocError`, if its expression cannot be copied: nothing is created.
impl Clone for Fragment<'_> {
    ghost is_clone = { λ fragment copy. fragment_view copy ≡ fragment_view fragment };

    fn clone(&self) -> Result<Self, AllocError> {
        match self {
            Fragment::Text { token } => Ok(Fragment::Text { token: *token }),
            Fragment::Interpolation { expression } => Ok(Fragment::Interpolation {
                expression: expression.clone()?,
            }),
        }
    }
}
