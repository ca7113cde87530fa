// Why items make up no justfile.

ghost use Rattle.std.specs.Prelude.{option_map, ◌≡◌};
ghost use Rattle.just_syntax.specs.View.{token_view};
ghost use Rattle.just_analyzer.specs.View.{analysis_error_token};

use just_syntax::name::Name;
use just_syntax::out_of_memory::OutOfMemory;
use just_syntax::token::Token;
use just_syntax::unstyled::write_unstyled;
use std::error::Error;
use std::fmt;

/// What is wrong with an item.
#[derive(Clone, Copy, Debug)]
pub enum Fault {
    /// Another function has this name.
    DuplicateFunction,
    /// Another parameter of the recipe has this name.
    DuplicateParameter,
    /// Another recipe or alias has this name.
    DuplicateRecipe,
    /// The setting is set before.
    DuplicateSet,
    /// Another assignment has this name.
    DuplicateVariable,
    /// The variable is unexported before.
    DuplicateUnexport,
    /// An attribute `arg` names no parameter of the recipe.
    UndefinedParameter,
}

/// Why items make up no justfile.
#[derive(Clone, Copy, Debug)]
pub enum AnalysisError<'src> {
    /// The first item that does not fit those before it, by its name.
    Fault { kind: Fault, name: Name<'src> },
    /// An allocation failed.
    OutOfMemory,
}

impl<'src> AnalysisError<'src> {
    /// The token of the item's name; `None` for `OutOfMemory`.
    pub fn token(&self) -> Option<Token<'src>>
        ensures { option_map token_view result ≡ analysis_error_token self.now }
    {
        match self {
            AnalysisError::Fault { name, .. } => Some(name.token),
            AnalysisError::OutOfMemory => None,
        }
    }
}

/// Writes what is wrong, for example ``variable `a` has multiple definitions``.
impl fmt::Display for AnalysisError<'_> {
    fn fmt<W: fmt::Write>(&self, f: &mut fmt::Formatter<W>) -> fmt::Result {
        match self {
            AnalysisError::Fault { kind, name } => match kind {
                Fault::DuplicateFunction => {
                    write_unstyled(
                        f,
                        format_args!("function `{name}` has multiple definitions"),
                    )
                }
                Fault::DuplicateParameter => {
                    write_unstyled(
                        f,
                        format_args!("parameter `{name}` has multiple definitions"),
                    )
                }
                Fault::DuplicateRecipe => {
                    write_unstyled(f, format_args!("recipe `{name}` has multiple definitions"))
                }
                Fault::DuplicateSet => {
                    write_unstyled(f, format_args!("setting `{name}` is set more than once"))
                }
                Fault::DuplicateVariable => {
                    write_unstyled(
                        f,
                        format_args!("variable `{name}` has multiple definitions"),
                    )
                }
                Fault::DuplicateUnexport => {
                    write_unstyled(
                        f,
                        format_args!("variable `{name}` is unexported multiple times"),
                    )
                }
                Fault::UndefinedParameter => {
                    write_unstyled(f, format_args!("attribute `{name}` names no parameter"))
                }
            },
            AnalysisError::OutOfMemory => write_unstyled(f, OutOfMemory),
        }
    }
}

impl Error for AnalysisError<'_> {}
