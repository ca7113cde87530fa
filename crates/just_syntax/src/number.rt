// The numbers of variables.

ghost use Rattle.std.specs.Prelude.{◌≡◌};

use crate::unstyled::write_unstyled;
use std::fmt;
use std::marker::Model;

/// The number of a variable, which identifies it in evaluation.
#[derive(Clone, Copy, Debug, PartialEq, Eq, PartialOrd, Ord, Hash)]
pub struct Number(u64);

impl Model for Number {
    ghost use Rattle.std.specs.Prelude.{ℕ};

    ghost Value = { ℕ };

    ghost view = { λ number. number.0 };

    ghost inverse = { λ n. record { 0 = n } };
}

impl Number {
    /// The number with this value.
    pub fn new(number: u64) -> Number
        ensures { result ≡ number }
    {
        Number(number)
    }

    /// The value of the number.
    pub fn get(self) -> u64
        ensures { result ≡ self }
    {
        self.0
    }

    // Its value, as an index.
    pub(crate) fn index(self) -> usize
        ensures { result ≡ self }
    {
        self.get() as usize
    }
}

impl fmt::Display for Number {
    ghost use Rattle.std.specs.Prelude.{Some, decimal};

    ghost output = { λ number. Some (decimal number) };

    ghost styled_output = { λ number _. Some (decimal number) };

    fn fmt<W: fmt::Write>(&self, f: &mut fmt::Formatter<W>) -> fmt::Result {
        write_unstyled(f, self.0)
    }
}
