// What can be wrong with the text of a justfile.

ghost use Rattle.std.specs.Prelude.{◌≡◌};
ghost use Rattle.just_lexer.specs.Said.{fault_words, names_token};

use crate::inside::Delimiter;

/// What is wrong at a token.
#[derive(Clone, Copy, Debug)]
pub enum FaultKind {
    /// A line of a recipe's body does not begin with the white space of the body's first line.
    InconsistentIndentation,
    /// A backslash that is not at the end of a line.
    InvalidEscape,
    /// A closing delimiter after an opening one of another kind, which is in this line, counted from 0.
    MismatchedClosingDelimiter { open: Delimiter, line: usize },
    /// White space at the beginning of a line has both spaces and tabs.
    MixedIndentation,
    /// A shell-expanded string, which is not supported.
    ShellExpandedString,
    /// A delimiter that is not closed before the end of the text.
    UnclosedDelimiter,
    /// A closing delimiter where no delimiter is open.
    UnexpectedClosingDelimiter,
    /// An indented line that belongs to no recipe.
    UnexpectedIndentation,
    /// A character that begins no token.
    UnknownStart,
    /// A carriage return without a newline.
    UnpairedCarriageReturn,
    /// A backtick that is not closed before the end of the text.
    UnterminatedBacktick,
    /// A format string that is not closed before the end of the text.
    UnterminatedFormatString,
    /// An interpolation that is not closed before the end of its line or of the text.
    UnterminatedInterpolation,
    /// A string that is not closed before the end of the text.
    UnterminatedString,
}

impl FaultKind {
    // What is wrong, in words.
    pub(crate) fn words(self) -> &'static str
        ensures { result.now ≡ fault_words self }
    {
        match self {
            FaultKind::InconsistentIndentation => "recipe line has inconsistent leading whitespace",
            FaultKind::InvalidEscape => "backslash before the end of a line",
            FaultKind::MismatchedClosingDelimiter { .. } => "mismatched closing delimiter",
            FaultKind::MixedIndentation => "found a mix of tabs and spaces in leading whitespace",
            FaultKind::ShellExpandedString => "shell-expanded strings are not supported",
            FaultKind::UnclosedDelimiter => "unclosed delimiter",
            FaultKind::UnexpectedClosingDelimiter => "unexpected closing delimiter",
            FaultKind::UnexpectedIndentation => "unexpected indentation",
            FaultKind::UnknownStart => "unknown start of token",
            FaultKind::UnpairedCarriageReturn => "unpaired carriage return",
            FaultKind::UnterminatedBacktick => "unterminated backtick",
            FaultKind::UnterminatedFormatString => "unterminated format string",
            FaultKind::UnterminatedInterpolation => "unterminated interpolation",
            FaultKind::UnterminatedString => "unterminated string",
        }
    }

    // Whether the text of the token follows these words.
    pub(crate) fn names_token(self) -> bool
        ensures { result ≡ names_token self }
    {
        matches!(
            self,
            FaultKind::MismatchedClosingDelimiter { .. }
                | FaultKind::UnclosedDelimiter
                | FaultKind::UnexpectedClosingDelimiter
                | FaultKind::UnknownStart
        )
    }
}
