// Values shown in backticks.

ghost use Rattle.std.specs.Prelude.{◌≡◌};
ghost use Rattle.just_syntax.specs.Prelude.{enclosed};

use crate::unstyled::write_unstyled;
use std::fmt;

/// A value shown in backticks.
#[derive(Debug, Drop)]
pub struct Enclosure<T> {
    value: T,
}

impl<T> Enclosure<T> {
    /// Encloses a value in backticks. It allocates nothing. Upstream's `Enclosure::tick`.
    pub fn tick(value: T) -> Enclosure<T>
        ensures { enclosed result ≡ value }
    {
        Enclosure { value }
    }
}

impl<T: fmt::Display> fmt::Display for Enclosure<T> {
    ghost use Rattle.just_syntax.specs.Enclosure.{ticked_output};

    ghost output = { λ enclosure. ticked_output (T.output enclosure.value) };

    ghost styled_output = { λ enclosure _. ticked_output (T.output enclosure.value) };

    fn fmt<W: fmt::Write>(&self, f: &mut fmt::Formatter<W>) -> fmt::Result {
        let value = &self.value;
        write_unstyled(f, format_args!("`{value}`"))
    }
}
