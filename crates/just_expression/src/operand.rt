// Operands that are only read.

ghost use Rattle.std.specs.Prelude.{◌≡◌};
ghost use Rattle.just_expression.specs.Prelude.{operand_view};

use just_syntax::text::Text;
use just_value::value::Value;

/// The texts of an operand: those of a literal or a variable, where they are, or those of a value of its own.
#[derive(Drop)]
pub(crate) enum Operand<'parts> {
    InPlace(&'parts [Text]),
    Own(Value),
}

impl Operand<'_> {
    /// The texts, in order.
    pub(crate) fn elements(&self) -> &[Text]
        ensures { result.now ≡ operand_view self.now }
    {
        match self {
            Operand::InPlace(texts) => texts,
            Operand::Own(value) => value.elements(),
        }
    }
}
