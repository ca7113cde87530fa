// Quotation marks.

ghost use Rattle.std.specs.Prelude.{None, Some, if◌then◌else◌, length, ◌<◌, ◌≡◌};
ghost use Rattle.just_lexer.specs.Quote.{delimiter, is_cooked, quote_at, string_kind, unterminated};

use crate::fault::FaultKind;
use crate::front::begins;
use crate::kind::TokenKind;

/// The mark before and after a string or a backtick.
#[derive(Clone, Copy, Debug)]
pub(crate) enum Quote {
    Backtick,
    Cooked,
    IndentedBacktick,
    IndentedCooked,
    IndentedRaw,
    Raw,
}

impl Quote {
    /// The mark that a text begins with. Three marks are one mark of an indented string.
    #[tactic(auto, unfolding(crate::specs::Quote::quote_at))]
    pub(crate) fn at(text: &[u8]) -> Option<Quote>
        ensures { result ≡ quote_at text.now }
    {
        if begins(text, b"```") {
            Some(Quote::IndentedBacktick)
        } else if begins(text, b"`") {
            Some(Quote::Backtick)
        } else if begins(text, b"\"\"\"") {
            Some(Quote::IndentedCooked)
        } else if begins(text, b"\"") {
            Some(Quote::Cooked)
        } else if begins(text, b"'''") {
            Some(Quote::IndentedRaw)
        } else if begins(text, b"'") {
            Some(Quote::Raw)
        } else {
            None
        }
    }

    /// The bytes of the mark.
    pub(crate) fn delimiter(self) -> &'static [u8]
        ensures value { result.now ≡ delimiter self }
        ensures small { length result.now < 4 }
    {
        match self {
            Quote::Backtick => b"`",
            Quote::Cooked => b"\"",
            Quote::IndentedBacktick => b"```",
            Quote::IndentedCooked => b"\"\"\"",
            Quote::IndentedRaw => b"'''",
            Quote::Raw => b"'",
        }
    }

    /// Whether a backslash takes the next character along.
    pub(crate) fn is_cooked(self) -> bool
        ensures { result ≡ is_cooked self }
    {
        matches!(self, Quote::Cooked | Quote::IndentedCooked)
    }

    /// The kind of a token between two of these marks.
    pub(crate) fn string_kind(self) -> TokenKind
        ensures { result ≡ string_kind self }
    {
        match self {
            Quote::Backtick | Quote::IndentedBacktick => TokenKind::Backtick,
            _ => TokenKind::StringToken,
        }
    }

    /// What is wrong if the second mark is missing.
    pub(crate) fn unterminated(self) -> FaultKind
        ensures { result ≡ unterminated self }
    {
        match self {
            Quote::Backtick | Quote::IndentedBacktick => FaultKind::UnterminatedBacktick,
            _ => FaultKind::UnterminatedString,
        }
    }
}
