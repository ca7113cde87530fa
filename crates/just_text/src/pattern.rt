// Texts without a pattern at their ends. Nothing here allocates.

ghost use Rattle.std.specs.Prelude.{◌≡◌};
ghost use Rattle.just_text.specs.Pattern as spec;

/// The text without the pattern at its start, if it begins with it. Upstream's `trim_start_match`.
pub fn trim_start_match<'a>(text: &'a str, pattern: &str) -> &'a str
    ensures { result.now ≡ spec.without_start pattern.now text.now }
{
    text.strip_prefix(pattern).unwrap_or(text)
}

/// The text without the pattern at its start, removed as often as it occurs there. An empty pattern removes nothing.
/// Upstream's `trim_start_matches`.
pub fn trim_start_matches<'a>(text: &'a str, pattern: &str) -> &'a str
    ensures { result.now ≡ spec.without_starts pattern.now text.now }
{
    text.trim_start_matches(pattern)
}

/// The text without the pattern at its end, if it ends with it. Upstream's `trim_end_match`.
pub fn trim_end_match<'a>(text: &'a str, pattern: &str) -> &'a str
    ensures { result.now ≡ spec.without_end pattern.now text.now }
{
    text.strip_suffix(pattern).unwrap_or(text)
}

/// The text without the pattern at its end, removed as often as it occurs there. An empty pattern removes nothing.
/// Upstream's `trim_end_matches`.
pub fn trim_end_matches<'a>(text: &'a str, pattern: &str) -> &'a str
    ensures { result.now ≡ spec.without_ends pattern.now text.now }
{
    text.trim_end_matches(pattern)
}
