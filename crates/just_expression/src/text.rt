// Values where a single text is required.

ghost use Rattle.std.specs.Prelude.{◌≡◌};
ghost use Rattle.just_expression.specs.Prelude.{ended, string_context_view, text_in};

use just_syntax::string_context::StringContext;
use just_syntax::text::Text;
use just_value::error::Error;
use just_value::value::Value;

/// The element of a value where a single text is required. It does not allocate.
///
/// # Errors
///
/// `ListInStringContext` if the value does not have exactly one element.
pub fn one_text<'src>(value: Value, context: StringContext<'src>) -> Result<Text, Error<'src>>
    ensures { ended (λ text. text) result ≡ text_in (string_context_view context.entry) value }
{
    if value.len() != 1 {
        return Err(Error::ListInStringContext { context, value });
    }
    let mut elements = value.into_elements();
    match elements.pop() {
        Some(text) => Ok(text),
        None => unreachable!(),
    }
}
