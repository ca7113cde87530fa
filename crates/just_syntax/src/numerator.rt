// The source of the numbers of constants.

ghost use Rattle.std.specs.Prelude.{◌≡◌};

use crate::number::Number;

/// Gives numbers to constants.
#[derive(Debug, Drop)]
pub struct Numerator;

impl Numerator {
    /// The number of the constant at index `i`, counted from 0: that index. Upstream's `Numerator::constant`.
    pub fn constant(i: usize) -> Number
        ensures { result ≡ i }
    {
        Number::new(i as u64)
    }
}
