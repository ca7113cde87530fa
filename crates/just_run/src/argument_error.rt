// Why words are not the arguments of a recipe.
#![tactic(auto, using(just_syntax::proofs::Styled::styled_steps))]

ghost use Rattle.std.specs.Prelude.{Option, codes, ◌++◌, ◌≡◌};
ghost use Rattle.std.specs.Fmt.{WritesStyledOnOk};
ghost use Rattle.just_run.specs.Said.{counted, required};
ghost use Rattle.just_run.specs.declared.argument_error.ArgumentError.TheVariants.{OutOfMemory as Wanted};

use just_syntax::out_of_memory::OutOfMemory;
use just_syntax::unstyled::write_unstyled;
use std::error::Error;
use std::fmt;

/// Why words are not the arguments of a recipe.
#[derive(Clone, Copy, Debug, PartialEq, Eq)]
pub enum ArgumentError<'src> {
    /// There are too few or too many words. Upstream's `ArgumentCountMismatch`.
    Count {
        recipe: &'src str,
        found: usize,
        /// The fewest words that the recipe takes.
        fewest: usize,
        /// The most words that it takes, if there is a limit.
        most: Option<usize>,
    },
    /// An allocation failed.
    OutOfMemory,
}

/// Writes ``recipe `build` got 3 arguments but takes at most 2``, or `out of memory`.
impl fmt::Display for ArgumentError<'_> {
    ghost use Rattle.std.specs.Prelude.{Some};
    ghost use Rattle.just_run.specs.Said.{argument_error_text};
    ghost use Rattle.just_run.specs.View.{miscount};

    ghost output = { λ error. Some (argument_error_text (miscount error)) };

    ghost styled_output = { λ error _. Some (argument_error_text (miscount error)) };

    fn fmt<W: fmt::Write>(&self, f: &mut fmt::Formatter<W>) -> fmt::Result {
        match self {
            ArgumentError::Count {
                recipe,
                found,
                fewest,
                most,
            } => {
                write_unstyled(f, format_args!("recipe `{recipe}` got "))?;
                write_found(f, *found)?;
                f.write_str(" but ")?;
                write_required(f, *found, *fewest, *most)
            }
            ArgumentError::OutOfMemory => write_unstyled(f, OutOfMemory),
        }
    }
}

// The number that there is.
fn write_found<W: fmt::Write>(f: &mut fmt::Formatter<W>, found: usize) -> fmt::Result
    ensures { WritesStyledOnOk W.write_str_gives f.old result (counted found) f.new }
{
    if found == 1 {
        f.write_str("1 argument")
    } else {
        write_unstyled(f, format_args!("{found} arguments"))
    }
}

// The number that is required.
fn write_required<W: fmt::Write>(
    f: &mut fmt::Formatter<W>,
    found: usize,
    fewest: usize,
    most: Option<usize>,
) -> fmt::Result
    ensures { WritesStyledOnOk W.write_str_gives f.old result (required found fewest most) f.new }
{
    match most {
        Some(most) if fewest == most => {
            let takes = if most < found { "only takes" } else { "takes" };
            write_unstyled(f, format_args!("{takes} {most}"))
        }
        Some(most) if fewest <= found => write_unstyled(f, format_args!("takes at most {most}")),
        _ => write_unstyled(f, format_args!("takes at least {fewest}")),
    }
}

impl Error for ArgumentError<'_> {}

impl From<OutOfMemory> for ArgumentError<'_> {
    ghost from_gives = { λ _ e. e ≡ Wanted };

    fn from(_error: OutOfMemory) -> Self {
        ArgumentError::OutOfMemory
    }
}
