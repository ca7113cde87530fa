// How items begin.

ghost use Rattle.std.specs.Prelude.{◌≡◌};
ghost use Rattle.just_expression_parser.specs.Parsed.{tokens};
ghost use Rattle.just_parser.specs.Start.{ends_with_name, gives_name, is_unsupported, start_of_item, start_of_keyword};
ghost use Rattle.just_parser.specs.Start.{start_of_name, takes_attributes};

use just_expression_parser::cursor::Cursor;
use just_lexer::kind::TokenKind;

/// How an item begins.
#[derive(Clone, Copy)]
pub(crate) enum Start {
    /// `alias`
    Alias,
    /// A name and `:=`.
    Assignment,
    /// `eager`, and then an assignment.
    Eager,
    /// `export`, and then an assignment.
    Export,
    /// A name and a parenthesis.
    Function,
    /// In no other way.
    Other,
    /// `@`, or a name in any other way.
    Recipe,
    /// `set`
    Set,
    /// `unexport`
    Unexport,
    /// `import` or `mod`, which are not read.
    Unsupported,
}

impl Start {
    /// Whether what begins so may have attributes before it.
    pub(crate) fn takes_attributes(self) -> bool
        ensures { result ≡ takes_attributes self }
    {
        matches!(
            self,
            Start::Alias | Start::Assignment | Start::Eager | Start::Export | Start::Recipe
        )
    }
}

/// How the next item begins.
#[tactic(auto, unfolding(crate::specs::Start::start_of_item))]
pub(crate) fn start_of_item(cursor: &Cursor) -> Start
    ensures { result ≡ start_of_item (tokens cursor.now) }
{
    if cursor.is_at(0, TokenKind::Identifier) {
        start_of_name(cursor)
    } else if cursor.is_at(0, TokenKind::At) {
        Start::Recipe
    } else {
        Start::Other
    }
}

// What begins with a name.
#[tactic(auto, unfolding(crate::specs::Start::start_of_name))]
fn start_of_name(cursor: &Cursor) -> Start
    ensures { result ≡ start_of_name (tokens cursor.now) }
{
    if cursor.is_at(1, TokenKind::ColonEquals) {
        Start::Assignment
    } else if cursor.is_at(1, TokenKind::ParenL) {
        Start::Function
    } else {
        start_of_keyword(cursor)
    }
}

// What begins with a keyword.
#[tactic(auto, unfolding(crate::specs::Start::start_of_keyword))]
fn start_of_keyword(cursor: &Cursor) -> Start
    ensures { result ≡ start_of_keyword (tokens cursor.now) }
{
    if gives_name(cursor, "alias") {
        Start::Alias
    } else if gives_name(cursor, "eager") {
        Start::Eager
    } else if gives_name(cursor, "export") {
        Start::Export
    } else if gives_name(cursor, "set") || ends_with_name(cursor, "set") {
        Start::Set
    } else if ends_with_name(cursor, "unexport") {
        Start::Unexport
    } else if is_unsupported(cursor) {
        Start::Unsupported
    } else {
        Start::Recipe
    }
}

// A keyword, a name and `:=`.
fn gives_name(cursor: &Cursor, keyword: &str) -> bool
    ensures { result ≡ gives_name keyword.now (tokens cursor.now) }
{
    cursor.is_at_word(keyword)
        && cursor.is_at(1, TokenKind::Identifier)
        && cursor.is_at(2, TokenKind::ColonEquals)
}

// A keyword, a name and the end of the line.
fn ends_with_name(cursor: &Cursor, keyword: &str) -> bool
    ensures { result ≡ ends_with_name keyword.now (tokens cursor.now) }
{
    cursor.is_at_word(keyword)
        && cursor.is_at(1, TokenKind::Identifier)
        && (cursor.is_at(2, TokenKind::Eol) || cursor.is_at(2, TokenKind::Eof))
}

// `import` with a path, or `mod` with a name.
fn is_unsupported(cursor: &Cursor) -> bool
    ensures { result ≡ is_unsupported (tokens cursor.now) }
{
    if cursor.is_at_word("import") {
        return cursor.is_at(1, TokenKind::StringToken) || cursor.is_at(1, TokenKind::QuestionMark);
    }
    cursor.is_at_word("mod")
        && (cursor.is_at(1, TokenKind::QuestionMark)
            || ends_with_name(cursor, "mod")
            || cursor.is_at(1, TokenKind::Identifier) && cursor.is_at(2, TokenKind::StringToken))
}
