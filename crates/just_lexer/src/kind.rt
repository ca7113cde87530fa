// The kinds of tokens.

use std::fmt;

/// The kind of a token, by upstream's name.
#[derive(Clone, Copy, Debug, PartialEq, Eq)]
pub enum TokenKind {
    AmpersandAmpersand,
    Asterisk,
    At,
    Backtick,
    Bang,
    BangEquals,
    BangTilde,
    BarBar,
    BraceL,
    BraceR,
    BracketL,
    BracketR,
    ByteOrderMark,
    Colon,
    ColonColon,
    ColonEquals,
    Comma,
    Comment,
    Dedent,
    Dollar,
    Eof,
    Eol,
    Equals,
    EqualsEquals,
    EqualsTilde,
    FormatStringContinue,
    FormatStringEnd,
    FormatStringStart,
    Identifier,
    Indent,
    InterpolationEnd,
    InterpolationStart,
    ParenL,
    ParenR,
    Plus,
    PlusPlus,
    QuestionMark,
    Slash,
    StringToken,
    Text,
    Whitespace,
}

/// Writes the kind as upstream's messages name it, for example `end of line` or `':='`.
impl fmt::Display for TokenKind {
    ghost use Rattle.std.specs.Prelude.{Some};
    ghost use Rattle.just_lexer.specs.Said.{kind_text};

    ghost output = { λ kind. Some (kind_text kind) };

    ghost styled_output = { λ kind _. Some (kind_text kind) };

    fn fmt<W: fmt::Write>(&self, f: &mut fmt::Formatter<W>) -> fmt::Result {
        f.write_str(match self {
            TokenKind::AmpersandAmpersand => "'&&'",
            TokenKind::Asterisk => "'*'",
            TokenKind::At => "'@'",
            TokenKind::Backtick => "backtick",
            TokenKind::Bang => "'!'",
            TokenKind::BangEquals => "'!='",
            TokenKind::BangTilde => "'!~'",
            TokenKind::BarBar => "'||'",
            TokenKind::BraceL => "'{'",
            TokenKind::BraceR => "'}'",
            TokenKind::BracketL => "'['",
            TokenKind::BracketR => "']'",
            TokenKind::ByteOrderMark => "byte order mark",
            TokenKind::Colon => "':'",
            TokenKind::ColonColon => "'::'",
            TokenKind::ColonEquals => "':='",
            TokenKind::Comma => "','",
            TokenKind::Comment => "comment",
            TokenKind::Dedent => "dedent",
            TokenKind::Dollar => "'$'",
            TokenKind::Eof => "end of file",
            TokenKind::Eol => "end of line",
            TokenKind::Equals => "'='",
            TokenKind::EqualsEquals => "'=='",
            TokenKind::EqualsTilde => "'=~'",
            TokenKind::FormatStringContinue => "format string continue",
            TokenKind::FormatStringEnd => "format string end",
            TokenKind::FormatStringStart => "format string start",
            TokenKind::Identifier => "identifier",
            TokenKind::Indent => "indent",
            TokenKind::InterpolationEnd => "'}}'",
            TokenKind::InterpolationStart => "'{{'",
            TokenKind::ParenL => "'('",
            TokenKind::ParenR => "')'",
            TokenKind::Plus => "'+'",
            TokenKind::PlusPlus => "'++'",
            TokenKind::QuestionMark => "'?'",
            TokenKind::Slash => "'/'",
            TokenKind::StringToken => "string",
            TokenKind::Text => "command text",
            TokenKind::Whitespace => "whitespace",
        })
    }
}
