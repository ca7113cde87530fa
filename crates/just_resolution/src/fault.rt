// Why a module is not resolved.

ghost use Rattle.std.specs.Prelude.{◌≡◌};
ghost use Rattle.just_resolution.specs.Prelude.{fault_token, module_fault_view, token_view};

use just_syntax::name::Name;
use just_syntax::token::Token;
use just_syntax::unstyled::write_unstyled;
use std::error::Error;
use std::fmt;

/// Why a module is not resolved, with the name where that shows.
#[derive(Clone, Copy, Debug, PartialEq)]
pub enum Fault<'src> {
    /// A call has `found` arguments, which its name does not take.
    ArgumentCountMismatch {
        function: Name<'src>,
        found: usize,
    },
    /// A function's parameter has a number that is bound outside.
    BoundParameter {
        parameter: Name<'src>,
    },
    /// An assignment or a parameter has the number of an earlier one.
    DuplicateNumber {
        variable: Name<'src>,
    },
    /// A called name is not that of a function.
    UndefinedFunction {
        function: Name<'src>,
    },
    /// A variable has no number.
    UndefinedVariable {
        variable: Name<'src>,
    },
    /// A name of the evaluation order is no assignment's.
    UnknownAssignment {
        assignment: Name<'src>,
    },
    /// An assignment reads a variable, by itself or in a body that it reaches, that is neither taken before it nor
    /// bound outside.
    UntakenVariable {
        assignment: Name<'src>,
        variable: Name<'src>,
    },
}

impl<'src> Fault<'src> {
    /// The token where the fault occurs: that of the name that is called, declared, ordered or read.
    pub fn token(&self) -> Token<'src>
        ensures { token_view result ≡ fault_token (module_fault_view self.now) }
    {
        match self {
            Fault::ArgumentCountMismatch { function, found: _ }
            | Fault::UndefinedFunction { function } => function.token,
            Fault::BoundParameter { parameter } => parameter.token,
            Fault::DuplicateNumber { variable }
            | Fault::UndefinedVariable { variable }
            | Fault::UntakenVariable {
                assignment: _,
                variable,
            } => variable.token,
            Fault::UnknownAssignment { assignment } => assignment.token,
        }
    }
}

impl fmt::Display for Fault<'_> {
    ghost use Rattle.std.specs.Prelude.{Some};
    ghost use Rattle.just_resolution.specs.Fault.{module_fault_text};
    ghost use Rattle.just_resolution.specs.Seen.{module_fault_view};

    ghost output = { λ fault. Some (module_fault_text (module_fault_view fault)) };

    ghost styled_output = { λ fault _. Some (module_fault_text (module_fault_view fault)) };

    fn fmt<W: fmt::Write>(&self, f: &mut fmt::Formatter<W>) -> fmt::Result {
        match self {
            Fault::ArgumentCountMismatch { function, found: _ } => write_unstyled(
                f,
                format_args!("function `{function}` called with a wrong number of arguments"),
            ),
            Fault::BoundParameter { parameter } => write_unstyled(
                f,
                format_args!("parameter `{parameter}` has a number that is bound outside"),
            ),
            Fault::DuplicateNumber { variable } => write_unstyled(
                f,
                format_args!("variable `{variable}` has the number of another variable"),
            ),
            Fault::UndefinedFunction { function } => {
                write_unstyled(f, format_args!("unknown function `{function}`"))
            }
            Fault::UndefinedVariable { variable } => write_unstyled(
                f,
                format_args!("attempted to evaluate unresolved variable `{variable}`"),
            ),
            Fault::UnknownAssignment { assignment } => {
                write_unstyled(f, format_args!("unknown assignment `{assignment}`"))
            }
            Fault::UntakenVariable {
                assignment: _,
                variable,
            } => write_unstyled(
                f,
                format_args!("attempted to evaluate unevaluated variable `{variable}`"),
            ),
        }
    }
}

impl Error for Fault<'_> {}
