// Lines of recipes.

ghost use Rattle.std.specs.Prelude.{◌<◌};

use crate::recipes::around::{Around, expressions_of};
use crate::recipes::called::{Called, parameter};
use crate::recipes::evaluated::{Evaluated, report_evaluated};
use crate::recipes::failing::{Failing, WAYS, questions, reported_failing};
use crate::recipes::hosts::{ReportingHost, refusal};
use crate::recipes::parameters::add_attributes;
use crate::recipes::texts::{push, same_failing};
use bumpalo::Bump;
use just_case_reader::line::{Line as CaseLine, parse_lines};
use just_case_reader::token::{name, token};
use just_eval::resolved_here;
use just_host::execution_context::ExecutionContext;
use just_syntax::expression::Expression;
use just_syntax::fragment::Fragment;
use just_syntax::line::Line;
use just_value::scope::Scope;
use just_value::value::Value;
use std::alloc::Global;
use std::process::Abort;
use std::vec;

// A line of a recipe with the parameter `p`, whose argument is `z`. The fields are: the case that gives its
// interpolations; its pieces, each after `~`; whether it is continued; whether the recipe runs as a dependency; and
// what the line evaluates to, after the questions asked. A piece is a text, or `@` for the value of the case's next
// assignment, in the byte order of their names.
type Row = (&'static str, &'static str, bool, bool, &'static str);

const LINES: &[Row] = &[
    ("run", "", false, false, ""),
    ("run", "", true, false, ""),
    ("run", "~  {{{{x", false, false, "  {{x"),
    ("run", "~  {{{{x", true, false, "{{x"),
    ("run", "~ \t\u{a0}x  ", true, false, "x  "),
    ("run", "~{{{{{{{{", false, false, "{{{{"),
    ("run", "~{{{~{{{{{", false, false, "{{{{{{"),
    // White space stays after the first piece.
    ("str a\nassign a\nrun", "~@~  x", true, false, "a  x"),
    ("str \nassign a\nrun", "~@~ x", true, false, " x"),
    ("str  a\nassign a\nrun", "~@", true, false, " a"),
    (
        "str a\nstr b\nlist 2\nassign a\nstr c\nassign b\nrun",
        "~<~@~|~@~>",
        false,
        false,
        "<a b|c>",
    ),
    ("list 0\nassign a\nrun", "~<~@~>", false, false, "<>"),
    // The interpolations are evaluated in order, and the first refusal ends the line.
    (
        "cmd a\nassign a\ncmd b\nassign b\nrun",
        "~@~@",
        false,
        false,
        "? a () (p = \"z\") ();? b () (p = \"z\") ();<a><b>",
    ),
    (
        "cmd a\nassign a\nlist 0\nassert\nassign b\ncmd c\nassign c\nrun",
        "~@~@~@",
        false,
        false,
        "? a () (p = \"z\") ();refused",
    ),
    // A body that a line calls has the context's scope below it: it is shown its callers' frames and no recipe's, and
    // can read the recipe's name. `g` runs a command, `f` appends the output of one to a parameter, and `r` evaluates
    // to the recipe's name.
    (
        "cmd who\nfun g\nvar n\ncall g 0\nadd\nfun f n\ncall recipe_name 0\nfun r\nstr z\ncall f 1\nassign a\nrun",
        "~@",
        false,
        false,
        "? who () (n = \"z\") ();z<who>",
    ),
    (
        "cmd who\nfun g\nvar n\ncall g 0\nadd\nfun f n\ncall recipe_name 0\nfun r\ncall r 0\nassign a\nrun",
        "~@",
        false,
        false,
        "build",
    ),
    // The recipe's attribute sets `K` to `v`, which the commands of such a body can read.
    (
        "str v\nassign e-1\nstr K\nassign k-1\ncmd who\nfun g\ncall g 0\nassign c\nrun",
        "~@",
        false,
        false,
        "? who K=v () ();<who>",
    ),
    (
        "str v\nassign e-1\nstr K\nassign k-1\ncmd who\nfun g\ncall g 0\nfun f n\nstr z\ncall f 1\nassign c\nrun",
        "~@",
        false,
        false,
        "? who K=v () (n = \"z\") ();<who>",
    ),
    (
        "str v\nassign e-1\nstr K\nassign k-1\nstr who\ncall shell 1\nfun g\ncall g 0\nassign c\nrun",
        "~@",
        false,
        false,
        "? who [] K=v () ();<who>",
    ),
    (
        "str echo\nstr a b\nstr c\ncall shell 3\nassign a\nrun",
        "~@",
        false,
        false,
        "? echo [\"a b\"\"c\"] () (p = \"z\") ();<echo>",
    ),
    // A line, and a body that it calls, can read whether the recipe runs as a dependency.
    (
        "call is_dependency 0\nassign a\ncall is_dependency 0\nfun f\ncall f 0\nassign b\nrun",
        "~@~ ~@",
        false,
        false,
        "false false",
    ),
    (
        "call is_dependency 0\nassign a\ncall is_dependency 0\nfun f\ncall f 0\nassign b\nrun",
        "~@~ ~@",
        false,
        true,
        "true true",
    ),
];

// Each line evaluates to what is expected, also if its questions fail.
#[test]
fn lines_of_fragments(rt: HostRuntime) {
    for row in LINES {
        row_fails_each_way(&rt, rt.alloc(), row);
    }
}

fn row_fails_each_way(rt: &impl Abort, alloc: Global, row: &Row) {
    let (_, _, _, _, whole) = *row;
    for passed in 0..=questions(whole) {
        for how in WAYS {
            row_fails(rt, alloc, row, (passed, *how));
        }
    }
}

// With a host that fails in some way, the report on a line is as expected.
fn row_fails(rt: &impl Abort, alloc: Global, row: &Row, failing: Failing) {
    let (case, _, _, _, whole) = *row;
    let mut host = ReportingHost::new(alloc, failing);
    report_case(rt, alloc, &mut host, row);
    let wanted = reported_failing(rt, alloc, whole, failing);
    same_failing(rt, case, failing, &host.reported, &wanted);
    drop(wanted);
    drop(host);
}

// Reports a line of pieces, after the questions asked.
fn report_case(rt: &impl Abort, alloc: Global, host: &mut ReportingHost, row: &Row) {
    let (case, _, _, _, _) = *row;
    let arena = Bump::new(alloc);
    let lines = parse_lines(alloc, &arena, case.as_bytes()).expect(rt, "no memory");
    report_pieces(rt, alloc, &lines, host, row);
    drop(lines);
}

fn report_pieces<'src>(
    rt: &impl Abort,
    alloc: Global,
    lines: &'src [CaseLine<'src>],
    host: &mut ReportingHost,
    row: &Row,
) {
    let (_, pieces, continued, is_dependency, _) = *row;
    let around = Around::of_lines(rt, alloc, lines);
    let mut called = called(rt, alloc);
    called.is_dependency = is_dependency;
    add_attributes(&mut called, rt, alloc, lines);
    let line = line_of(rt, alloc, expressions_of(rt, alloc, lines), pieces);
    report_in(
        &around.context(),
        rt,
        alloc,
        host,
        &called,
        &line,
        continued,
    );
    drop(line);
    drop(called);
    drop(around);
}

/// Reports a line that calls no function of a file, after the questions asked.
pub(crate) fn report<'src>(
    line: &Line<'src>,
    rt: &impl Abort,
    alloc: Global,
    source: &'src str,
    host: &mut ReportingHost,
) {
    let around = Around::of_nothing(rt, alloc, source);
    let called = called(rt, alloc);
    report_in(&around.context(), rt, alloc, host, &called, line, false);
    drop(called);
    drop(around);
}

// The recipe. No name of a case has the number of its parameter `p`.
fn called<'src>(rt: &impl Abort, alloc: Global) -> Called<'src> {
    let mut called = Called::new(alloc);
    let argument = Value::from_text(alloc, "z").expect(rt, "no memory");
    called.push(rt, parameter("p", 1000, None), argument);
    called
}

// Evaluates the recipe's attributes and parameters, and reports a line there.
fn report_in<'src>(
    context: &ExecutionContext<'src, '_>,
    rt: &impl Abort,
    alloc: Global,
    host: &mut ReportingHost,
    called: &Called<'src>,
    line: &Line<'src>,
    continued: bool,
)
    requires may_call { 0 < context.now.recursion_limit }
{
    match called.evaluate(alloc, host, context) {
        Ok((scope, words, env)) => {
            drop(words);
            is_resolved(context, rt, alloc, host, &scope, line);
            let is_dependency = called.is_dependency;
            let line = Evaluated::Line(line, continued);
            report_evaluated(context, rt, alloc, host, env, is_dependency, &scope, line);
            drop(scope);
        }
        Err(error) => {
            host.report(rt, refusal(&error));
            drop(error);
        }
    }
}

// Reports it if a line is not resolved in a scope.
fn is_resolved<'src>(
    context: &ExecutionContext<'src, '_>,
    rt: &impl Abort,
    alloc: Global,
    host: &mut ReportingHost,
    scope: &Scope<'src, '_>,
    line: &Line<'src>,
) {
    let expressions = interpolated(rt, alloc, line);
    if !resolved_here(alloc, context, scope, None, &[], expressions).expect(rt, "no memory") {
        host.report(rt, "unresolved;");
    }
}

/// A line of pieces. Each interpolated piece takes the next expression, and `?` is a variable without a number.
pub(crate) fn line_of<'src>(
    rt: &impl Abort,
    alloc: Global,
    expressions: Vec<Expression<'src>>,
    pieces: &'static str,
) -> Line<'src> {
    let mut fragments = Vec::new(alloc);
    let mut left = expressions.into_iter();
    let mut texts = pieces.split('~');
    texts.next();
    for text in texts {
        let fragment = fragment_of(&mut left, rt, text);
        push(rt, &mut fragments, fragment);
    }
    drop(left);
    Line::new(fragments)
}

// A piece of a line.
fn fragment_of<'src>(
    left: &mut vec::IntoIter<Expression<'src>>,
    rt: &impl Abort,
    text: &'static str,
) -> Fragment<'src> {
    match text {
        "@" => Fragment::Interpolation {
            expression: left.next().expect(rt, "no expression"),
        },
        "?" => Fragment::Interpolation {
            expression: Expression::Variable {
                name: name("v"),
                number: None,
            },
        },
        _ => Fragment::Text { token: token(text) },
    }
}

/// The interpolations of a line.
pub(crate) fn interpolated<'a, 'src>(
    rt: &impl Abort,
    alloc: Global,
    line: &'a Line<'src>,
) -> Vec<&'a Expression<'src>> {
    let mut expressions = Vec::new(alloc);
    for fragment in &line.fragments {
        if let Fragment::Interpolation { expression } = fragment {
            expressions.push(expression).expect(rt, "no memory");
        }
    }
    expressions
}
