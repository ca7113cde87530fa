// The program: it reads a case from a reader, and writes its answer to a writer.

ghost use Rattle.std.specs.Prelude.{IfOk, IfSome, IsErr, [], length, string_bytes, ◌<◌, ◌∷◌, ◌≡◌, ◌≤◌};
ghost use Rattle.just_bench.specs.Prelude.{Added, AnswersCase, Evaluated, LIMIT, MadeOf, PassesOrFails, Written};
ghost use Rattle.just_bench.specs.Prelude.{by_script, case_view, frames_view, or_one};

use crate::around::{Around, Bare, Failing};
use crate::blocks::evaluate_blocks;
use crate::run::evaluate_run;
use crate::settled::evaluate_const;
use crate::stream::{StreamError, read_case, write_text};
use bumpalo::Bump;
use just_case_reader::case::{Case, CaseError, parse};
use just_case_reader::evaluation::Evaluation;
use just_script::fail_at::How;
use just_syntax::out_of_memory::OutOfMemory;
use just_value::scope::Scope;
use std::alloc::Global;
use std::io::{Read, Write};
use std::mem;

/// Reads a case, evaluates it, prints its answer, and returns the exit status: 0 for bindings; 2 for a refusal,
/// including `OutOfMemory` in the evaluation; 1 for a case that is bad or longer than `LIMIT` bytes, a failed read or
/// write, or a failed allocation outside the evaluation. The answer is written only once it is complete. So nothing is
/// written if a read fails, the case is too long, or an allocation outside the evaluation fails.
pub fn run<R: Read, W: Write>(alloc: Global, reader: &mut R, writer: &mut W) -> u8
    ensures answer { IfSome (R.remaining reader.old)
        (λ case. Written (W.contents writer.old) (W.contents writer.new) result (
        AnswersCase by_script (λ script state. state ≡ script) case)) }
    ensures too_long { IfSome (R.remaining reader.old) (λ case. LIMIT < length case → result ≡ 1) }
    ensures unwritten { IfSome (R.remaining reader.old) (λ case. LIMIT < length case → writer.new ≡ writer.old) }
    ensures status { result ≤ 2 }
{
    exit_status(answer_stream(alloc, reader, writer, &Bare {}))
}

/// As [`run`], but the host passes on only the first `passed` questions of a run, and fails at each later one in the
/// way `how` says.
pub fn run_failing<R: Read, W: Write>(
    alloc: Global,
    reader: &mut R,
    writer: &mut W,
    passed: usize,
    how: How,
) -> u8
    ensures answer { IfSome (R.remaining reader.old)
        (λ case. Written (W.contents writer.old) (W.contents writer.new) result (
        AnswersCase (PassesOrFails by_script)
        (λ script state. state ≡ record { host = script; left = passed; how = how }) case)) }
    ensures too_long { IfSome (R.remaining reader.old) (λ case. LIMIT < length case → result ≡ 1) }
    ensures unwritten { IfSome (R.remaining reader.old) (λ case. LIMIT < length case → writer.new ≡ writer.old) }
    ensures status { result ≤ 2 }
{
    exit_status(answer_stream(alloc, reader, writer, &Failing { passed, how }))
}

/// Evaluates a case that is already built, in a scope whose bindings it can read. Adds what [`run`] would write for it,
/// and returns the exit status: 0 or 2, as there.
///
/// # Errors
///
/// `OutOfMemory`, if an allocation outside the evaluation fails. The text added by then remains.
pub fn evaluate_in_scope<'src>(
    alloc: Global,
    text: &mut String,
    case: Case<'src>,
    parent: &Scope<'src, '_>,
) -> Result<u8, OutOfMemory>
    ensures status { IfOk result (λ status. status ≤ 2) }
    ensures answer { let c = case_view case.entry in
        IfOk result (λ status. Added (string_bytes text.old) (string_bytes text.new) (λ printed.
        Evaluated by_script (λ script state. state ≡ script) c c.evaluation (frames_view parent.entry.now) printed
        status)) }
{
    evaluate_in(alloc, text, case, parent, &Bare {})
}

// The exit status, or 1 if there is no answer.
fn exit_status(answered: Result<u8, StreamError>) -> u8
    ensures { result ≡ or_one answered }
{
    match answered {
        Ok(status) => status,
        Err(_) => 1,
    }
}

// The bytes, which the texts of a case's expressions borrow, outlive them here.
fn answer_stream<R: Read, W: Write, A: Around>(
    alloc: Global,
    reader: &mut R,
    writer: &mut W,
    around: &A,
) -> Result<u8, StreamError>
    ensures status { IfOk result (λ status. status ≤ 2) }
    ensures written { IfSome (R.remaining reader.old)
        (λ case. Written (W.contents writer.old) (W.contents writer.new) (or_one result) (
        AnswersCase A.Made.step (MadeOf (A.gives around.now)) case)) }
    ensures too_long { IfSome (R.remaining reader.old) (λ case. LIMIT < length case → IsErr result) }
    ensures unwritten { IfSome (R.remaining reader.old) (λ case. LIMIT < length case → writer.new ≡ writer.old) }
{
    let bytes = read_case(alloc, reader)?;
    // Most answers are at most twice as long as their cases.
    let mut text = String::with_capacity(alloc, bytes.len().saturating_mul(2))?;
    let status = answer_case(alloc, &mut text, &bytes, around)?;
    write_text(writer, &text)?;
    Ok(status)
}

// Adds the answer to a case, and returns the exit status.
fn answer_case<A: Around>(
    alloc: Global,
    text: &mut String,
    bytes: &[u8],
    around: &A,
) -> Result<u8, OutOfMemory>
    ensures status { IfOk result (λ status. status ≤ 2) }
    ensures answer { IfOk result (λ status. Added (string_bytes text.old) (string_bytes text.new) (λ printed.
        AnswersCase A.Made.step (MadeOf (A.gives around.now)) bytes.now printed status)) }
{
    let arena = Bump::new(alloc);
    match parse(alloc, &arena, bytes) {
        Ok(case) => evaluate(alloc, text, case, around),
        Err(CaseError::BadLine(place)) => {
            writeln!(text, "bad line {place}")?;
            Ok(1)
        }
        Err(CaseError::OutOfMemory) => Err(OutOfMemory),
    }
}

// Evaluates a case in an empty scope, adds its output, and returns the exit status.
fn evaluate<A: Around>(
    alloc: Global,
    text: &mut String,
    case: Case,
    around: &A,
) -> Result<u8, OutOfMemory>
    ensures status { IfOk result (λ status. status ≤ 2) }
    ensures answer { let c = case_view case.entry in
        IfOk result (λ status. Added (string_bytes text.old) (string_bytes text.new) (λ printed.
        Evaluated A.Made.step (MadeOf (A.gives around.now)) c c.evaluation ([] ∷ []) printed status)) }
{
    let parent = Scope::root(alloc, &[])?;
    evaluate_in(alloc, text, case, &parent, around)
}

// The same in a scope, whose bindings the case can read.
fn evaluate_in<'src, A: Around>(
    alloc: Global,
    text: &mut String,
    mut case: Case<'src>,
    parent: &Scope<'src, '_>,
    around: &A,
) -> Result<u8, OutOfMemory>
    ensures status { IfOk result (λ status. status ≤ 2) }
    ensures answer { let c = case_view case.entry in
        IfOk result (λ status. Added (string_bytes text.old) (string_bytes text.new) (λ printed.
        Evaluated A.Made.step (MadeOf (A.gives around.now)) c c.evaluation (frames_view parent.entry.now) printed
        status)) }
{
    match mem::replace(&mut case.evaluation, Evaluation::Run) {
        Evaluation::Run => evaluate_run(alloc, text, case, parent, around),
        Evaluation::Const => evaluate_const(alloc, text, case, parent),
        Evaluation::Blocks { order } => evaluate_blocks(alloc, text, case, order, parent, around),
    }
}
