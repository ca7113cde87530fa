// Numbers for the variables of an expression.

ghost use Rattle.std.specs.Prelude.{Option, ℕ, ◌≡◌};
ghost use Rattle.just_syntax.specs.Prelude.{Text};

use crate::number::Number;

/// Which numbers the variables of a copy have. `number_of` gives the number of a variable by its name and the number
/// that it had.
pub trait Numbers {
    ghost number_of: { Self → Text → Option ℕ → Option ℕ };

    /// The number of a variable with this name, whose number was `number`.
    fn number(&self, name: &str, number: Option<Number>) -> Option<Number>
        ensures { result ≡ number_of self.now name.now number };
}
