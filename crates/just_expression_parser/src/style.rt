// The quotation marks of literals.

ghost use Rattle.std.specs.Prelude.{◌≡◌};
ghost use Rattle.just_expression_parser.specs.Literal.{format_style, style};
ghost use Rattle.just_expression_parser.specs.Parsed.{style_view};

use crate::marks::{begins, without_front};

/// A quotation mark, and whether the text after it has escapes.
#[derive(Clone, Copy, Debug)]
pub(crate) struct Style {
    pub mark: &'static str,
    pub escapes: bool,
}

impl Style {
    /// The style of a literal that begins with this text.
    #[tactic(auto, unfolding(crate::specs::Literal::style))]
    pub(crate) fn of(text: &str) -> Style
        ensures { style_view result ≡ style text.now }
    {
        let mark = if begins(text, "'''") {
            "'''"
        } else if begins(text, "'") {
            "'"
        } else if begins(text, "\"\"\"") {
            "\"\"\""
        } else {
            "\""
        };
        let escapes = begins(mark, "\"");
        Style { mark, escapes }
    }

    /// The style of a format string, whose first letter is `f`.
    pub(crate) fn of_format(lexeme: &str) -> Style
        ensures { style_view result ≡ format_style lexeme.now }
    {
        Style::of(without_front(lexeme, "f"))
    }
}
