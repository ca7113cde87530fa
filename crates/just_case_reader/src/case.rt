// The contents of a case.

ghost use Rattle.std.specs.Prelude.{IfOk, OnOk, [], length, map, ◌+◌, ◌≡◌, ◌≤◌};
ghost use Rattle.just_case_reader.specs.Prelude.{BadLine, Describes, case_line_view, case_view, described};
ghost use Rattle.just_case_reader.specs.Prelude.{case_line_of, described_from, lines_of, nothing, reading_view};

use crate::builder::Builder;
use crate::evaluation::Evaluation;
use crate::line::{Line, parse_line, split_line};
use crate::line_error::LineError;
use bumpalo::Bump;
use just_syntax::assignment::Assignment;
use just_syntax::function_definition::FunctionDefinition;
use just_syntax::name::Name;
use just_syntax::number::Number;
use just_syntax::out_of_memory::OutOfMemory;
use just_syntax::table::Table;
use just_syntax::unstyled::write_unstyled;
use just_value::error::CommandFault;
use std::alloc::Global;
use std::collections::{BTreeMap, HashMap, HashSet};
use std::error::Error;
use std::fmt;

// The recursion limit of a case that does not set it: one more than the number of calls that may be pending.
const RECURSION_LIMIT: usize = 100;

/// The contents of a case.
#[derive(Debug, Drop)]
pub struct Case<'src> {
    pub assignments: Table<Assignment<'src>>,
    /// The names of assignments, in the order in which they are evaluated.
    pub evaluation_order: Vec<Name<'src>>,
    pub functions: Table<FunctionDefinition<'src>>,
    pub overrides: HashMap<Number, String>,
    /// The numbers of the referenced variables, if the case lists them.
    pub references: Option<HashSet<Number>>,
    pub dotenv: BTreeMap<String, String>,
    /// Commands, and the texts that always answer them. For each command the last pair counts.
    pub always: Vec<(String, String)>,
    /// The answers to other commands, in order.
    pub replies: Vec<Result<String, CommandFault>>,
    pub lists: bool,
    pub dry_run: bool,
    /// One more than the number of calls that may be pending.
    pub recursion_limit: usize,
    /// The kind of evaluation that ends the case: `run`, `const` or `blocks`.
    pub evaluation: Evaluation<'src>,
}

impl<'src> Case<'src> {
    /// An empty case, with memory for this number of names in its order.
    ///
    /// # Errors
    ///
    /// `OutOfMemory`, if an allocation fails.
    pub(crate) fn with_capacity(alloc: Global, names: usize) -> Result<Case<'src>, OutOfMemory>
        ensures { IfOk result (λ case. case_view case ≡ nothing.case) }
    {
        Ok(Case {
            assignments: Table::new(alloc),
            evaluation_order: Vec::with_capacity(alloc, names)?,
            functions: Table::new(alloc),
            overrides: HashMap::new(alloc),
            references: None,
            dotenv: BTreeMap::new(alloc),
            always: Vec::new(alloc),
            replies: Vec::new(alloc),
            lists: false,
            dry_run: false,
            recursion_limit: RECURSION_LIMIT,
            evaluation: Evaluation::Run,
        })
    }
}

/// Why there is no case.
#[derive(Debug, Drop)]
pub enum CaseError {
    /// The number of the first bad line, counted from 1.
    BadLine(usize),
    /// An allocation failed, or an expression has more than 19,000 levels of nesting, so that it could not be dropped
    /// on a stack of 8 MiB.
    OutOfMemory,
}

/// Writes `bad line N`, where N is the line's number, counted from 1, or `out of memory`.
impl fmt::Display for CaseError {
    ghost use Rattle.std.specs.Prelude.{Some};
    ghost use Rattle.just_case_reader.specs.Said.{case_error_text};

    ghost output = { λ error. Some (case_error_text error) };

    ghost styled_output = { λ error _. Some (case_error_text error) };

    fn fmt<W: fmt::Write>(&self, f: &mut fmt::Formatter<W>) -> fmt::Result {
        match self {
            CaseError::BadLine(place) => write_unstyled(f, format_args!("bad line {place}")),
            CaseError::OutOfMemory => write_unstyled(f, OutOfMemory),
        }
    }
}

impl Error for CaseError {}

/// The case that a text describes. Each line is executed as soon as it is parsed. The arena holds the lexemes of
/// literals and commands, which have marks that the text does not have.
///
/// # Errors
///
/// `BadLine` with the number of the first bad line. A case that does not end with `run`, `const` or `blocks` is bad at
/// the line after its last. `OutOfMemory`, if an allocation fails, or if an expression nests too deeply for the stack.
pub fn parse<'case>(
    alloc: Global,
    arena: &'case Bump,
    text: &'case [u8],
) -> Result<Case<'case>, CaseError>
    ensures case { IfOk result (λ case. described (map case_line_of (lines_of text.now)) ≡ Describes (case_view case)) }
    ensures bad { (place : _) → result ≡ Err (CaseError.BadLine place)
        → described (map case_line_of (lines_of text.now)) ≡ BadLine place }
{
    // Most lines have eight bytes or more.
    let Ok(mut builder) = Builder::new(alloc, text.len() / 8) else {
        return Err(CaseError::OutOfMemory);
    };
    let count = take_text(&mut builder, alloc, arena, text)?;
    builder
        .finished()
        .ok_or(CaseError::BadLine(count.saturating_add(1)))
}

// Executes the lines of a text up to the first bad one, and returns their number.
fn take_text<'case>(
    builder: &mut Builder<'case>,
    alloc: Global,
    arena: &'case Bump,
    text: &'case [u8],
) -> Result<usize, CaseError>
    ensures ok { IfOk result
        (λ count. described_from 1 (reading_view builder.old) (map case_line_of (lines_of text.now))
        ≡ described_from (count + 1) (reading_view builder.new) []) }
    ensures few { IfOk result (λ count. count ≤ length text.now) }
    ensures bad { (place : _) → result ≡ Err (CaseError.BadLine place)
        → described_from 1 (reading_view builder.old) (map case_line_of (lines_of text.now)) ≡ BadLine place }
{
    let mut rest = text;
    let mut count: usize = 0;
    while !rest.is_empty() {
        let (line, after) = split_line(rest);
        let Ok(line) = parse_line(alloc, arena, line) else {
            return Err(CaseError::OutOfMemory);
        };
        count += 1;
        match builder.take(alloc, &line) {
            Ok(()) => {}
            Err(LineError::Bad) => return Err(CaseError::BadLine(count)),
            Err(LineError::OutOfMemory) => return Err(CaseError::OutOfMemory),
        }
        rest = after;
    }
    Ok(count)
}

/// The case that lines describe.
///
/// # Errors
///
/// `BadLine` with the number of the first bad line. A case that does not end with `run`, `const` or `blocks` is bad at
/// the line after its last. `OutOfMemory`, if an allocation fails, or if an expression nests too deeply for the stack.
pub fn build<'src>(alloc: Global, lines: &'src [Line<'src>]) -> Result<Case<'src>, CaseError>
    ensures case { IfOk result (λ case. described (map case_line_view lines.now) ≡ Describes (case_view case)) }
    ensures bad { (place : _) → result ≡ Err (CaseError.BadLine place)
        → described (map case_line_view lines.now) ≡ BadLine place }
{
    let Ok(mut builder) = Builder::new(alloc, lines.len()) else {
        return Err(CaseError::OutOfMemory);
    };
    take_all(&mut builder, alloc, lines)?;
    builder
        .finished()
        .ok_or(CaseError::BadLine(lines.len().saturating_add(1)))
}

// Executes lines, up to the first bad one.
fn take_all<'src>(
    builder: &mut Builder<'src>,
    alloc: Global,
    lines: &'src [Line<'src>],
) -> Result<(), CaseError>
    ensures ok { OnOk result (described_from 1 (reading_view builder.old) (map case_line_view lines.now)
        ≡ described_from (length lines.now + 1) (reading_view builder.new) []) }
    ensures bad { (place : _) → result ≡ Err (CaseError.BadLine place)
        → described_from 1 (reading_view builder.old) (map case_line_view lines.now) ≡ BadLine place }
{
    for (index, line) in lines.iter().enumerate() {
        match builder.take(alloc, line) {
            Ok(()) => {}
            Err(LineError::Bad) => return Err(CaseError::BadLine(index.saturating_add(1))),
            Err(LineError::OutOfMemory) => return Err(CaseError::OutOfMemory),
        }
    }
    Ok(())
}
