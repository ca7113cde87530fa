// The refusals of an unresolved module.

ghost use Rattle.std.specs.Prelude.{IfOk, string_bytes, ◌≡◌};
ghost use Rattle.just_expression.specs.Prelude.{Internal, RefusesWith, name_view, reason_text, refusal};

use just_syntax::name::Name;
use just_syntax::out_of_memory::OutOfMemory;
use just_value::error::Error;
use std::alloc::Global;

/// Why an unresolved module is refused at a name.
#[derive(Clone, Copy, Debug)]
pub enum Reason {
    /// A recipe has another number of parameters than there are arguments.
    Mismatched,
    /// A function takes another number of arguments.
    Miscounted,
    /// A variable has no value.
    Unevaluated,
    /// A name in the order is no assignment's.
    UnknownAssignment,
    /// A called name is no function's.
    UnknownFunction,
    /// A variable has no number.
    Unresolved,
}

impl Reason {
    /// The refusal at a name, or `OutOfMemory` if its message cannot be allocated. Out of line, to keep its frame out
    /// of a form's.
    #[inline(never)]
    pub fn error_at<'src>(self, alloc: Global, name: &Name<'src>) -> Error<'src>
        ensures { RefusesWith (refusal result) (Internal (reason_text self (name_view name.now).lexeme)
            (name_view name.now)) }
    {
        match self.message(alloc, name.lexeme()) {
            Ok(message) => Error::Internal {
                message,
                token: name.token,
            },
            Err(_) => Error::OutOfMemory,
        }
    }

    // The message about a name.
    fn message(self, alloc: Global, name: &str) -> Result<String, OutOfMemory>
        ensures { IfOk result (λ text. string_bytes text ≡ reason_text self name.now) }
    {
        match self {
            Reason::Mismatched => {
                Ok(String::from_str(alloc, "arguments do not match parameter count")?)
            }
            Reason::Miscounted => {
                Ok(format!(in alloc; "function `{name}` called with a wrong number of arguments")?)
            }
            Reason::Unevaluated => {
                Ok(format!(in alloc; "attempted to evaluate unevaluated variable `{name}`")?)
            }
            Reason::UnknownAssignment => Ok(format!(in alloc; "unknown assignment `{name}`")?),
            Reason::UnknownFunction => Ok(format!(in alloc; "unknown function `{name}`")?),
            Reason::Unresolved => {
                Ok(format!(in alloc; "attempted to evaluate unresolved variable `{name}`")?)
            }
        }
    }
}
