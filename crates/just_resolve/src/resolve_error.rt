// Why a module cannot be resolved.

ghost use Rattle.std.specs.Prelude.{map, option_map, slice_get, ◌≡◌};
ghost use Rattle.std.specs.Fmt.{WritesStyledOnOk};
ghost use Rattle.std.specs.List.{flat_map};
ghost use Rattle.just_resolve.specs.Prelude.{arrow_text, cycle_text, name_view, resolve_error_token, ring_text};
ghost use Rattle.just_resolve.specs.Prelude.{token_view};

use just_resolution::fault::Fault;
use just_syntax::name::Name;
use just_syntax::out_of_memory::OutOfMemory;
use just_syntax::token::Token;
use just_syntax::unstyled::write_unstyled;
use std::error::Error;
use std::fmt;

/// Why a module cannot be resolved.
#[derive(Debug, Drop)]
pub enum ResolveError<'src> {
    /// Assignments that form a cycle: each reads the next one, by itself or through functions, and the last one reads
    /// the first. For example `a` and `b` in `a := b`, `b := f()`, `f() := a`.
    Circular(Vec<Name<'src>>),
    /// The first fault of the module with its new numbers: an undefined variable, an undefined function, or a call with
    /// a wrong number of arguments.
    Fault(Fault<'src>),
    /// An allocation failed, or the numbers below 2⁶⁴ - 1 do not suffice.
    OutOfMemory,
}

impl<'src> ResolveError<'src> {
    /// The token where the error occurs: the name of the first assignment of a cycle, or the token of a fault. `None`
    /// for `OutOfMemory`.
    pub fn token(&self) -> Option<Token<'src>>
        ensures { option_map token_view result ≡ resolve_error_token self.now }
    {
        match self {
            ResolveError::Circular(names) => first_token(names),
            ResolveError::Fault(fault) => Some(fault.token()),
            ResolveError::OutOfMemory => None,
        }
    }
}

// The token of the first name.
fn first_token<'src>(names: &[Name<'src>]) -> Option<Token<'src>>
    ensures { option_map token_view result ≡ option_map name_view (slice_get names.now 0) }
{
    match names.first() {
        Some(name) => Some(name.token),
        None => None,
    }
}

/// Writes the message of the fault, `out of memory`, or the cycle, as ``variable `a` depends on itself: `a` -> `b` ->
/// `a` ``. A cycle of one name is not written out.
impl fmt::Display for ResolveError<'_> {
    ghost use Rattle.std.specs.Prelude.{Some};
    ghost use Rattle.just_resolve.specs.Resolve.{resolve_error_text};

    ghost output = { λ error. Some (resolve_error_text error) };

    ghost styled_output = { λ error _. Some (resolve_error_text error) };

    fn fmt<W: fmt::Write>(&self, f: &mut fmt::Formatter<W>) -> fmt::Result {
        match self {
            ResolveError::Circular(names) => write_cycle(f, names),
            ResolveError::Fault(fault) => write_unstyled(f, fault),
            ResolveError::OutOfMemory => write_unstyled(f, OutOfMemory),
        }
    }
}

// Writes the message for a cycle of these names.
fn write_cycle<W: fmt::Write>(f: &mut fmt::Formatter<W>, names: &[Name]) -> fmt::Result
    ensures { WritesStyledOnOk W.write_str_gives f.old result (cycle_text (map name_view names.now)) f.new }
{
    match names {
        [] => Ok(()),
        [first] => write_unstyled(f, format_args!("variable `{first}` depends on itself")),
        [first, ..] => write_ring(f, first, names),
    }
}

// Writes the message for a cycle of several names.
#[tactic(auto, using(just_syntax::proofs::Styled::styled_steps))]
fn write_ring<W: fmt::Write>(f: &mut fmt::Formatter<W>, first: &Name, names: &[Name]) -> fmt::Result
    ensures { WritesStyledOnOk W.write_str_gives f.old result
        (ring_text (name_view first.now) (map name_view names.now)) f.new }
{
    write_unstyled(f, format_args!("variable `{first}` depends on itself"))?;
    f.write_str(": ")?;
    write_arrows(f, names)?;
    write_unstyled(f, format_args!("`{first}`"))
}

// Writes names, an arrow after each.
fn write_arrows<W: fmt::Write>(f: &mut fmt::Formatter<W>, names: &[Name]) -> fmt::Result
    ensures { WritesStyledOnOk W.write_str_gives f.old result (flat_map arrow_text (map name_view names.now)) f.new }
{
    for name in names {
        write_unstyled(f, format_args!("`{name}` -> "))?;
    }
    Ok(())
}

impl Error for ResolveError<'_> {}

impl From<OutOfMemory> for ResolveError<'_> {
    ghost use Rattle.std.specs.Prelude.{◌≡◌};
    ghost use Rattle.just_resolve.specs.Resolve.{no_memory};

    ghost from_gives = { λ _ e. e ≡ no_memory };

    fn from(_error: OutOfMemory) -> Self {
        ResolveError::OutOfMemory
    }
}
