// What values are to settings.

ghost use Rattle.std.specs.Prelude.{IfNone, IfSome, [], option_map, ◌==◌, ◌∷◌, ◌≡◌};
ghost use Rattle.std.specs.List.{list_all};
ghost use Rattle.just_syntax.specs.View.{expression_interpreter_view, literal_view, view};
ghost use Rattle.just_parser.specs.Settings.{indentation_of, indentation_of_text, interpreter_of, literal_of_string};

use just_syntax::expression::Expression;
use just_syntax::indentation::Indentation;
use just_syntax::interpreter::Interpreter;
use just_syntax::string_literal::StringLiteral;

/// The command and its first arguments that a list is, if it has an element.
pub(crate) fn interpreter_of<'src>(value: Expression<'src>) -> Option<Interpreter<Expression<'src>>>
    ensures { option_map expression_interpreter_view result ≡ interpreter_of (view value.entry) }
{
    match value {
        Expression::List { elements, .. } => first_and_rest(elements),
        other => {
            drop(other);
            None
        }
    }
}

// The first of some expressions is a command, and the others are its arguments.
fn first_and_rest<T: Drop>(mut elements: Vec<T>) -> Option<Interpreter<T>>
    ensures some { IfSome result (λ i. elements.items ≡ i.command ∷ i.arguments.items) }
    ensures none { IfNone result (elements.items ≡ []) }
{
    if elements.is_empty() {
        return None;
    }
    let command = elements.remove(0);
    Some(Interpreter::new(command, elements))
}

/// The literal that a string is.
pub(crate) fn literal_of<'src>(value: Expression<'src>) -> Option<StringLiteral<'src>>
    ensures { option_map literal_view result ≡ literal_of_string (view value.entry) }
{
    match value {
        Expression::StringLiteral { string_literal } => Some(string_literal),
        other => {
            drop(other);
            None
        }
    }
}

/// The indentation that a string is.
pub(crate) fn indentation_of(value: &Expression) -> Option<Indentation>
    ensures { result ≡ indentation_of (view value.now) }
{
    match value {
        Expression::StringLiteral { string_literal } => indentation_of_text(&string_literal.cooked),
        _ => None,
    }
}

// A tab, or some spaces.
#[tactic(auto, unfolding(crate::specs::Settings::indentation_of_text))]
fn indentation_of_text(text: &str) -> Option<Indentation>
    ensures { result ≡ indentation_of_text text.now }
{
    if text == "\t" {
        Some(Indentation::Tabs)
    } else if !text.is_empty() && are_spaces(text.as_bytes()) {
        Some(Indentation::Spaces(text.len() as u64))
    } else {
        None
    }
}

// Whether all bytes are spaces.
fn are_spaces(bytes: &[u8]) -> bool
    ensures { result ≡ list_all (λ byte. byte == 32) bytes.now }
{
    bytes.iter().all(|byte| *byte == b' ')
}
