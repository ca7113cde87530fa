// The lines of a case, each parsed by itself.

ghost use Rattle.std.specs.Prelude.{IfOk, Some, [], if◌then◌else◌, length, map, position, ◌++◌, ◌<◌};
ghost use Rattle.std.specs.Prelude.{◌==◌, ◌∷◌, ◌≡◌};
ghost use Rattle.std.specs.List.{after_first, before_first};
ghost use Rattle.just_case_reader.specs.Prelude.{Assign, Bad, Call, Dotenv, Fail, ListOf, Override, bare_line};
ghost use Rattle.just_case_reader.specs.Prelude.{case_line_of, case_line_view, first_name_line, is_skipped, limit};
ghost use Rattle.just_case_reader.specs.Prelude.{line_of_text, line_of_word, lines_of, name_line, number, number_line};
ghost use Rattle.just_case_reader.specs.Prelude.{operator_line, rare_line, rest_of, says_nothing, word_of};

use crate::operator::{BinaryOperator, UnaryOperator};
use crate::rest::{is_name, parse_names, parse_number, split_word};
use bumpalo::Bump;
use bumpalo::collections::into_bump_str;
use just_syntax::out_of_memory::OutOfMemory;
use std::alloc::Global;
use std::str;

/// A line of a case. Its texts are slices of the case's bytes, and its lexemes are in an arena.
#[derive(Debug, Drop)]
pub enum Line<'case> {
    /// An empty line, or one that begins with `#`.
    Skipped,
    /// Not a valid line.
    Bad,
    /// `str T`: a literal is pushed.
    Literal {
        text: &'case str,
        lexeme: &'case str,
    },
    /// `cmd T`: a command is pushed.
    Command {
        text: &'case str,
        lexeme: &'case str,
    },
    /// `var N`: a variable is pushed.
    Variable {
        name: &'case str,
    },
    /// The expression on top becomes a part of another one.
    Unary(UnaryOperator),
    /// The two expressions on top are combined.
    Binary(BinaryOperator),
    /// `if`: a condition, a consequence and an `otherwise` are combined.
    If,
    /// `list K`: K expressions become a list.
    List {
        count: u16,
    },
    /// `call N K`: K expressions become the arguments of a call.
    Call {
        name: &'case str,
        count: u16,
    },
    /// `assign N` or `export N`: the expression on top is assigned.
    Assign {
        name: &'case str,
        export: bool,
    },
    /// `fun N P ..`: the expression on top is a function's body.
    Function {
        names: &'case str,
    },
    /// `override N T`: overrides a variable's value.
    Override {
        name: &'case str,
        text: &'case str,
    },
    /// `dotenv N T`: a variable of the dotenv map.
    Dotenv {
        name: &'case str,
        text: &'case str,
    },
    /// `order N ..`: the order of evaluation.
    Order {
        names: &'case str,
    },
    /// `only N ..`: the referenced variables.
    Only {
        names: &'case str,
    },
    /// `reply T`: the next command outputs a text.
    Reply {
        text: &'case str,
    },
    /// `fail K`: the next command ends with a status.
    Fail {
        code: u16,
    },
    /// `always T`: the last command outputs a text, whenever it is run.
    Always {
        text: &'case str,
    },
    /// `lists`: enables lists.
    Lists,
    /// `dry`: commands are shown instead of run.
    Dry,
    /// `limit K`: the recursion limit, which is one more than the number of calls that may be pending.
    Limit {
        limit: u16,
    },
    /// `run`: the assignments are evaluated.
    Run,
    /// `const`: the assignments are evaluated before any run.
    Const,
    /// `blocks N ..`: the assignments are evaluated in two runs, the second in this order.
    Blocks {
        names: &'case str,
    },
}

impl<'case> Line<'case> {
    /// Whether the line is skipped.
    pub(crate) fn is_skipped(&self) -> bool
        ensures { result ≡ says_nothing (case_line_view self.now) }
    {
        matches!(self, Line::Skipped)
    }
}

/// The lines of a case. Each ends with a newline, which the last may lack. The lexemes of literals and commands, which
/// have marks that the case does not have, are put into the arena.
///
/// # Errors
///
/// `OutOfMemory`, if an allocation fails.
pub fn parse_lines<'case>(
    alloc: Global,
    arena: &'case Bump,
    case: &'case [u8],
) -> Result<Vec<Line<'case>>, OutOfMemory>
    ensures { IfOk result (λ lines. map case_line_view lines.items ≡ map case_line_of (lines_of case.now)) }
{
    // Most lines have eight bytes or more.
    let mut lines = Vec::with_capacity(alloc, case.len() / 8)?;
    let mut rest = case;
    while !rest.is_empty() {
        let (line, after) = split_line(rest);
        lines.push(parse_line(alloc, arena, line)?)?;
        rest = after;
    }
    Ok(lines)
}

// One line, without its newline.
pub(crate) fn parse_line<'case>(
    alloc: Global,
    arena: &'case Bump,
    bytes: &'case [u8],
) -> Result<Line<'case>, OutOfMemory>
    ensures { IfOk result (λ line. case_line_view line ≡ case_line_of bytes.now) }
{
    match str::from_utf8(bytes) {
        Ok(text) => parse_text(alloc, arena, text),
        Err(_) => Ok(Line::Bad),
    }
}

// One line, given as text.
fn parse_text<'case>(
    alloc: Global,
    arena: &'case Bump,
    text: &'case str,
) -> Result<Line<'case>, OutOfMemory>
    ensures { IfOk result (λ line. case_line_view line ≡ line_of_text text.now) }
{
    if is_skipped(text) {
        return Ok(Line::Skipped);
    }
    let (word, rest) = split_word(text);
    parse_word(alloc, arena, word, rest)
}

// Whether a line is empty or a comment.
fn is_skipped(text: &str) -> bool
    ensures { result ≡ is_skipped text.now }
{
    match text.as_bytes().split_first() {
        Some((first, _)) => *first == b'#',
        None => true,
    }
}

// A line by its word and the text after it. The most frequent words come first.
fn parse_word<'case>(
    alloc: Global,
    arena: &'case Bump,
    word: &str,
    rest: &'case str,
) -> Result<Line<'case>, OutOfMemory>
    ensures { IfOk result (λ line. case_line_view line ≡ line_of_word word.now rest.now) }
{
    Ok(match word {
        "var" => name_line(rest, Line::Variable { name: rest }),
        "assign" => assign_line(rest, false),
        "str" => Line::Literal {
            text: rest,
            lexeme: enclosed(arena, '\'', rest)?,
        },
        "cmd" => Line::Command {
            text: rest,
            lexeme: enclosed(arena, '`', rest)?,
        },
        "call" => call_line(rest),
        "list" => list_line(rest),
        "reply" => Line::Reply { text: rest },
        "always" => Line::Always { text: rest },
        "dotenv" => dotenv_line(rest),
        "override" => override_line(rest),
        "export" => assign_line(rest, true),
        _ => parse_rare(alloc, word, rest)?,
    })
}

// A text between two marks, which are ASCII characters.
fn enclosed<'case>(arena: &'case Bump, mark: char, text: &str) -> Result<&'case str, OutOfMemory>
    requires { mark < 128 }
    ensures { IfOk result (λ lexeme. lexeme.now ≡ mark ∷ text.now ++ mark ∷ []) }
{
    let mut lexeme = String::with_capacity(arena, text.len().saturating_add(2))?;
    lexeme.push(mark)?;
    lexeme.push_str(text)?;
    lexeme.push(mark)?;
    Ok(into_bump_str(lexeme))
}

// A line with a rarer word.
fn parse_rare<'case>(
    alloc: Global,
    word: &str,
    rest: &'case str,
) -> Result<Line<'case>, OutOfMemory>
    ensures { IfOk result (λ line. case_line_view line ≡ rare_line word.now rest.now) }
{
    Ok(match word {
        "fun" => match parse_names(alloc, rest)? {
            Some(names) => led_line(&names, Line::Function { names: rest }),
            None => Line::Bad,
        },
        "order" => match parse_names(alloc, rest)? {
            Some(_) => Line::Order { names: rest },
            None => Line::Bad,
        },
        "only" => match parse_names(alloc, rest)? {
            Some(_) => Line::Only { names: rest },
            None => Line::Bad,
        },
        "blocks" => match parse_names(alloc, rest)? {
            Some(names) => led_line(&names, Line::Blocks { names: rest }),
            None => Line::Bad,
        },
        "fail" => fail_line(rest),
        "limit" => limit_line(rest),
        _ => closed_line(word, rest),
    })
}

// A line with these names, which is bad if there are none.
fn led_line<'case>(names: &[&str], line: Line<'case>) -> Line<'case>
    ensures { case_line_view result ≡ first_name_line (Some (map (λ name. name.now) names.now))
        (case_line_view line.entry) }
{
    if names.is_empty() { Line::Bad } else { line }
}

// A line that is bad if there is any text after its word.
fn closed_line<'case>(word: &str, rest: &str) -> Line<'case>
    ensures { case_line_view result ≡ (if length rest.now == 0 then bare_line word.now else Bad) }
{
    if rest.is_empty() {
        bare_line(word)
    } else {
        Line::Bad
    }
}

// A line with this name, which is bad if it is not a name.
fn name_line<'case>(name: &str, line: Line<'case>) -> Line<'case>
    ensures { case_line_view result ≡ name_line name.now (case_line_view line.entry) }
{
    if is_name(name) { line } else { Line::Bad }
}

// `assign`, or `export`, with the text after it.
fn assign_line(rest: &str, export: bool) -> Line<'_>
    ensures { case_line_view result ≡ name_line rest.now (Assign rest.now export) }
{
    name_line(rest, Line::Assign { name: rest, export })
}

// `list` with the text after it.
fn list_line(rest: &str) -> Line<'_>
    ensures { case_line_view result ≡ number_line (number rest.now) ListOf }
{
    match parse_number(rest) {
        Some(count) => Line::List { count },
        None => Line::Bad,
    }
}

// `call` with the text after it.
fn call_line(rest: &str) -> Line<'_>
    ensures { case_line_view result ≡ name_line (word_of rest.now)
        (number_line (number (rest_of rest.now)) (Call (word_of rest.now))) }
{
    let (name, count) = split_word(rest);
    match parse_number(count) {
        Some(count) if is_name(name) => Line::Call { name, count },
        _ => Line::Bad,
    }
}

// `override` with the text after it.
fn override_line(rest: &str) -> Line<'_>
    ensures { case_line_view result ≡ name_line (word_of rest.now) (Override (word_of rest.now) (rest_of rest.now)) }
{
    let (name, text) = split_word(rest);
    name_line(name, Line::Override { name, text })
}

// `dotenv` with the text after it.
fn dotenv_line(rest: &str) -> Line<'_>
    ensures { case_line_view result ≡ name_line (word_of rest.now) (Dotenv (word_of rest.now) (rest_of rest.now)) }
{
    let (name, text) = split_word(rest);
    name_line(name, Line::Dotenv { name, text })
}

// `limit` with the text after it.
fn limit_line(rest: &str) -> Line<'_>
    ensures { case_line_view result ≡ number_line (number rest.now) limit }
{
    match parse_number(rest) {
        None | Some(0) => Line::Bad,
        Some(limit) => Line::Limit { limit },
    }
}

// `fail` with the text after it.
fn fail_line(rest: &str) -> Line<'_>
    ensures { case_line_view result ≡ number_line (number rest.now) Fail }
{
    match parse_number(rest) {
        Some(code) => Line::Fail { code },
        None => Line::Bad,
    }
}

// A line of a single word.
fn bare_line<'case>(word: &str) -> Line<'case>
    ensures { case_line_view result ≡ bare_line word.now }
{
    match word {
        "if" => Line::If,
        "lists" => Line::Lists,
        "dry" => Line::Dry,
        "run" => Line::Run,
        "const" => Line::Const,
        _ => operator_line(word),
    }
}

// A line that combines the expressions on top.
fn operator_line<'case>(word: &str) -> Line<'case>
    ensures { case_line_view result ≡ operator_line word.now }
{
    match word {
        "root" => Line::Unary(UnaryOperator::Root),
        "not" => Line::Unary(UnaryOperator::Not),
        "group" => Line::Unary(UnaryOperator::Group),
        "assert" => Line::Unary(UnaryOperator::Assert),
        "add" => Line::Binary(BinaryOperator::Add),
        "join" => Line::Binary(BinaryOperator::Join),
        "cat" => Line::Binary(BinaryOperator::Cat),
        "and" => Line::Binary(BinaryOperator::And),
        "or" => Line::Binary(BinaryOperator::Or),
        "eq" => Line::Binary(BinaryOperator::Equal),
        "ne" => Line::Binary(BinaryOperator::NotEqual),
        "match" => Line::Binary(BinaryOperator::Match),
        "mismatch" => Line::Binary(BinaryOperator::Mismatch),
        "assertm" => Line::Binary(BinaryOperator::AssertMessage),
        "when" => Line::Binary(BinaryOperator::When),
        _ => Line::Bad,
    }
}

// The bytes before and after the first newline. Without a newline the second part is empty.
pub(crate) fn split_line(bytes: &[u8]) -> (&[u8], &[u8])
    ensures line { result.0.now ≡ before_first (λ byte. byte == 10) bytes.now }
    ensures rest { result.1.now ≡ after_first (λ byte. byte == 10) bytes.now }
{
    match newline_place(bytes) {
        Some(end) => (&bytes[..end], &bytes[end + 1..]),
        None => (bytes, &[]),
    }
}

// The index of the first newline.
#[tactic(auto, using(crate::proofs::Split::first_place))]
fn newline_place(bytes: &[u8]) -> Option<usize>
    ensures { result ≡ position (λ byte. byte == 10) bytes.now }
{
    memchr::memchr(b'\n', bytes)
}
