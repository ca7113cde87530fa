// What comes next in a text.

ghost use Rattle.std.specs.Prelude.{◌≡◌};

use crate::fault::FaultKind;
use crate::kind::TokenKind;

/// What comes next in a text.
#[derive(Clone, Copy, Debug)]
pub(crate) enum Step {
    /// A token of this number of bytes.
    Token { kind: TokenKind, length: usize },
    /// A fault at the next bytes.
    Fault { fault: FaultKind, length: usize },
    /// A fault at the token that opened the innermost of what is open.
    OpenFault(FaultKind),
    /// The end.
    End,
}

/// A token of this number of bytes.
pub(crate) fn token(kind: TokenKind, length: usize) -> Step
    ensures { result ≡ Step.Token kind length }
{
    Step::Token { kind, length }
}

/// A fault at this number of bytes.
pub(crate) fn fault(fault: FaultKind, length: usize) -> Step
    ensures { result ≡ Step.Fault fault length }
{
    Step::Fault { fault, length }
}
