// The assignments of cases, evaluated before any run, and reports on them.

ghost use Rattle.std.specs.Prelude.{IfOk};
ghost use Rattle.just_eval_tests.specs.Prelude.{IsConst};

use crate::bindings::with_flags;
use crate::recipes::around::expression_of;
use crate::{constants, interpreters, kept, settings};
use bumpalo::Bump;
use just_case_reader::case::{Case, build};
use just_case_reader::line::{Line, parse_lines};
use just_eval::evaluator::Evaluator;
use just_syntax::assignment::Assignment;
use just_syntax::expression::Expression;
use just_syntax::set::Set;
use just_syntax::table::Table;
use just_value::compile_error::CompileError;
use just_value::scope::Scope;
use std::alloc::Global;
use std::process::Abort;

/// What a report on a case is about.
#[derive(Clone, Copy)]
pub(crate) enum Subject {
    /// The expression of the assignment `e`.
    Expression,
    /// The interpreter of the assignment `e`.
    Interpreter,
    /// The settings of the assignments.
    Settings,
    /// The settings that turn on each flag but one.
    FlagsBut(&'static str),
    /// Settings, some of which are set twice.
    SetTwice,
}

/// The report on a case whose outer scope binds the numbers from 0 on to names and values.
pub(crate) fn reported(
    rt: &impl Abort,
    alloc: Global,
    case: &str,
    outside: &[(&'static str, &'static str)],
    subject: Subject,
) -> String {
    let arena = Bump::new(alloc);
    let lines = parse_lines(alloc, &arena, case.as_bytes()).expect(rt, "no memory");
    reported_of(rt, alloc, &lines, outside, subject)
}

// The report on a case of these lines.
fn reported_of<'src>(
    rt: &impl Abort,
    alloc: Global,
    lines: &'src [Line<'src>],
    outside: &[(&'static str, &'static str)],
    subject: Subject,
) -> String {
    let case = flagged(rt, alloc, build(alloc, lines).expect(rt, "no case"));
    let scope = Scope::root(alloc, outside).expect(rt, "no memory");
    let reported = reported_in(&case, rt, alloc, lines, &scope, subject);
    drop(scope);
    drop(case);
    reported
}

// A case whose assignments have the flags that their names give.
fn flagged<'src>(rt: &impl Abort, alloc: Global, case: Case<'src>) -> Case<'src> {
    let assignments = with_flags(rt, alloc, case.assignments);
    Case {
        assignments,
        ..case
    }
}

// The report on a case of these lines, in a scope.
fn reported_in<'src>(
    case: &Case<'src>,
    rt: &impl Abort,
    alloc: Global,
    lines: &'src [Line<'src>],
    scope: &Scope<'src, '_>,
    subject: Subject,
) -> String {
    let outcome = evaluated(case, alloc, scope);
    let reported = match &outcome {
        Ok(evaluator) => reported_by(evaluator, rt, alloc, case, lines, subject),
        Err(error) => said(rt, alloc, error),
    };
    drop(outcome);
    reported
}

// Evaluates the referenced assignments of a case.
fn evaluated<'src, 'run>(
    case: &'run Case<'src>,
    alloc: Global,
    scope: &'run Scope<'src, 'run>,
) -> Result<Evaluator<'src, 'run>, CompileError<'src>>
    ensures before_runs { IfOk result IsConst }
{
    Evaluator::evaluate_const_assignments(
        alloc,
        &case.assignments,
        &case.evaluation_order,
        &case.overrides,
        scope,
        case.references.as_ref(),
        case.lists,
    )
}

fn reported_by<'src>(
    evaluator: &Evaluator<'src, '_>,
    rt: &impl Abort,
    alloc: Global,
    case: &Case<'src>,
    lines: &'src [Line<'src>],
    subject: Subject,
) -> String
    requires before_runs { IsConst evaluator.now }
{
    match subject {
        Subject::Expression => match case.assignments.get("e") {
            Some(assignment) => reported_of_both(evaluator, rt, alloc, &assignment.value, lines),
            None => panic!(rt; "no expression"),
        },
        Subject::Interpreter => {
            interpreters::reported_by(evaluator, rt, alloc, assignments_of(rt, alloc, lines))
        }
        _ => settings::reported_by(evaluator, rt, alloc, sets_of(rt, alloc, lines, subject)),
    }
}

// The report on an expression, that of the assignment `e` of these lines, and on a line of it.
fn reported_of_both<'src>(
    evaluator: &Evaluator<'src, '_>,
    rt: &impl Abort,
    alloc: Global,
    expression: &Expression<'src>,
    lines: &'src [Line<'src>],
) -> String
    requires before_runs { IsConst evaluator.now }
{
    let again = expression_of(rt, alloc, lines, "", "e").expect(rt, "no expression");
    let line = constants::line_of(rt, alloc, again);
    let reported = constants::reported_by(evaluator, rt, alloc, expression, &line);
    drop(line);
    reported
}

// The settings of a case of these lines, or those that the subject names.
fn sets_of<'src>(
    rt: &impl Abort,
    alloc: Global,
    lines: &'src [Line<'src>],
    subject: Subject,
) -> Table<Set<'src>> {
    match subject {
        Subject::FlagsBut(left_out) => kept::flags_but(rt, alloc, kept::FLAGS, left_out),
        Subject::SetTwice => kept::set_twice(rt, alloc),
        _ => settings::sets_of(rt, alloc, assignments_of(rt, alloc, lines)),
    }
}

// The assignments of a case of these lines. The case is built again, since its parts are moved out.
fn assignments_of<'src>(
    rt: &impl Abort,
    alloc: Global,
    lines: &'src [Line<'src>],
) -> Table<Assignment<'src>> {
    build(alloc, lines).expect(rt, "no case").assignments
}

/// The message of a refusal.
pub(crate) fn said(rt: &impl Abort, alloc: Global, error: &CompileError) -> String {
    let mut text = String::new(alloc);
    add_said(rt, &mut text, error);
    text
}

/// Adds the message of a refusal.
pub(crate) fn add_said(rt: &impl Abort, text: &mut String, error: &CompileError) {
    match error {
        CompileError::ConstEval { error, token: _ } => {
            write!(text, "{error}").expect(rt, "no memory");
        }
        CompileError::OutOfMemory => panic!(rt; "no memory"),
    }
}
