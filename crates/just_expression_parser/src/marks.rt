// Marks at the front and at the end of a text.

ghost use Rattle.std.specs.Prelude.{nat_eq, ◌≡◌};
ghost use Rattle.std.specs.List.{starts_with};
ghost use Rattle.just_expression_parser.specs.Literal as spec;

/// Whether a text begins with a mark.
pub(crate) fn begins(text: &str, mark: &str) -> bool
    ensures { result ≡ starts_with nat_eq text.now mark.now }
{
    text.starts_with(mark)
}

/// A text without a mark at its front, if it has it.
pub(crate) fn without_front<'a>(text: &'a str, mark: &str) -> &'a str
    ensures { result.now ≡ spec.without_front mark.now text.now }
{
    text.strip_prefix(mark).unwrap_or(text)
}

/// A text without a mark at its end, if it has it.
pub(crate) fn without_end<'a>(text: &'a str, mark: &str) -> &'a str
    ensures { result.now ≡ spec.without_end_mark mark.now text.now }
{
    text.strip_suffix(mark).unwrap_or(text)
}
