// Parameters and attributes of recipes.

ghost use Rattle.std.specs.Prelude.{◌<◌};

use crate::bindings::report_frame;
use crate::compared::same;
use crate::recipes::around::{Around, expression_of};
use crate::recipes::called::{Called, Check, Given};
use crate::recipes::failing::{Failing, NEVER, WAYS, questions, reported_failing};
use crate::recipes::hosts::{ReportingHost, refusal, report_environment};
use crate::recipes::parameter_rows::{ROWS, Row};
use crate::recipes::texts::{push, same_failing};
use bumpalo::Bump;
use just_case_reader::line::{Line as CaseLine, parse_lines};
use just_case_reader::token::name;
use just_eval::resolved_here;
use just_host::execution_context::ExecutionContext;
use just_syntax::attribute::Attribute;
use just_syntax::expression::Expression;
use just_syntax::number::Number;
use just_syntax::out_of_memory::OutOfMemory;
use just_syntax::parameter::Parameter;
use just_syntax::parameter_kind::ParameterKind;
use just_value::element::Element;
use just_value::error::Error;
use just_value::scope::Scope;
use just_value::value::Value;
use std::alloc::Global;
use std::collections::BTreeMap;
use std::process::Abort;

// The report if a check refuses the first parameter.
const REFUSED: &str = "argument of parameter `p` was refused: no";

// Defaults and values evaluate to what is expected, also if questions fail and if the module exports all its variables.
// A check that refuses all, or runs out of memory, ends each recipe at its first parameter, which is `p`. Each value is
// checked once.
#[test]
fn defaults_and_values(rt: HostRuntime) {
    for row in ROWS {
        row_fails_each_way(&rt, rt.alloc(), row);
        ends_at_first(&rt, rt.alloc(), row, Check::RefusesAll, REFUSED);
        ends_at_first(&rt, rt.alloc(), row, Check::OutOfMemory, "no memory");
        exports_by_itself(&rt, rt.alloc(), row);
    }
}

// Compares the report on a recipe with the expected one, also if its questions fail.
fn row_fails_each_way(rt: &impl Abort, alloc: Global, row: &Row) {
    let (_, _, _, _, _, _, whole) = *row;
    for passed in 0..=questions(whole) {
        for how in WAYS {
            row_fails(rt, alloc, row, (passed, *how));
        }
    }
}

// With a host that fails in some way, the report on a recipe is as expected.
fn row_fails(rt: &impl Abort, alloc: Global, row: &Row, failing: Failing) {
    let (case, _, _, _, _, checks, whole) = *row;
    let mut host = ReportingHost::new(alloc, failing);
    let checked = report_row(rt, alloc, &mut host, row, Check::RefusesNo, false);
    let wanted = reported_failing(rt, alloc, whole, failing);
    same_failing(rt, case, failing, &host.reported, &wanted);
    if failing.0 < questions(whole) {
        assert!(rt; checks.starts_with(&checked), "{case}: {checked}");
    } else {
        same(rt, case, &checked, checks);
    }
    drop(wanted);
    drop(host);
}

// With a check that refuses, a recipe ends at its first check with this end, after the questions before it. If no
// parameter is checked, the report is the usual one.
fn ends_at_first(rt: &impl Abort, alloc: Global, row: &Row, check: Check, end: &str) {
    let (case, _, _, _, before, checks, whole) = *row;
    let mut host = ReportingHost::new(alloc, NEVER);
    let checked = report_row(rt, alloc, &mut host, row, check, false);
    match checks.split_once(';') {
        Some((first, _)) => {
            same(rt, case, checked.trim_end_matches(';'), first);
            same(rt, case, after(&host.reported, before), end);
        }
        None => same(rt, case, &host.reported, whole),
    }
    drop(host);
}

// If the module's setting exports each variable, the report on a recipe is the usual one: only its own mark exports a
// parameter.
fn exports_by_itself(rt: &impl Abort, alloc: Global, row: &Row) {
    let (case, _, _, _, _, _, whole) = *row;
    let mut host = ReportingHost::new(alloc, NEVER);
    drop(report_row(rt, alloc, &mut host, row, Check::RefusesNo, true));
    same(rt, case, &host.reported, whole);
    drop(host);
}

// The report after the questions asked.
fn after<'reported>(reported: &'reported str, asked: &str) -> &'reported str {
    match reported.strip_prefix(asked) {
        Some(rest) => rest,
        None => "something else is asked",
    }
}

// Reports what a recipe's parameters evaluate to with this check, after the questions asked, and returns what was
// checked.
fn report_row(
    rt: &impl Abort,
    alloc: Global,
    host: &mut ReportingHost,
    row: &Row,
    check: Check,
    exports_all: bool,
) -> String {
    let (case, _, _, _, _, _, _) = *row;
    let arena = Bump::new(alloc);
    let lines = parse_lines(alloc, &arena, case.as_bytes()).expect(rt, "no memory");
    let checked = report_lines(rt, alloc, &lines, host, row, check, exports_all);
    drop(lines);
    checked
}

fn report_lines<'src>(
    rt: &impl Abort,
    alloc: Global,
    lines: &'src [CaseLine<'src>],
    host: &mut ReportingHost,
    row: &Row,
    check: Check,
    exports_all: bool,
) -> String {
    let mut around = Around::of_lines(rt, alloc, lines);
    if exports_all {
        around.export_all();
    }
    let called = called_of(rt, alloc, lines, row, check);
    report_in(&around.context(), rt, alloc, host, &called);
    let checked = called.checked(rt, alloc);
    drop(called);
    drop(around);
    checked
}

/// Reports what the parameters of a recipe that calls no function of a file evaluate to.
pub(crate) fn report<'src>(
    called: &Called<'src>,
    rt: &impl Abort,
    alloc: Global,
    source: &'src str,
    host: &mut ReportingHost,
) {
    let around = Around::of_nothing(rt, alloc, source);
    report_in(&around.context(), rt, alloc, host, called);
    drop(around);
}

// The recipe of a row.
fn called_of<'src>(
    rt: &impl Abort,
    alloc: Global,
    lines: &'src [CaseLine<'src>],
    row: &Row,
    check: Check,
) -> Called<'src> {
    let (_, parameters, arguments, is_dependency, _, _, _) = *row;
    let mut called = Called::new(alloc);
    called.check = check;
    called.is_dependency = is_dependency;
    add_arguments(&mut called, rt, alloc, arguments);
    add_parameters(&mut called, rt, alloc, parameters, lines);
    add_attributes(&mut called, rt, alloc, lines);
    called
}

// Adds an argument for each text after a `;`.
fn add_arguments(called: &mut Called, rt: &impl Abort, alloc: Global, arguments: &str) {
    let mut texts = arguments.split(';');
    texts.next();
    for text in texts {
        let argument = argument_of(rt, alloc, text);
        push(rt, &mut called.arguments, argument);
    }
}

// An argument that is written with `|` between its elements, or as `[]`.
fn argument_of(rt: &impl Abort, alloc: Global, text: &str) -> Value {
    let mut argument = Value::new(alloc);
    if text != "[]" {
        for element in text.split('|') {
            argument.push(element).expect(rt, "no memory");
        }
    }
    argument
}

/// Adds the parameters that words describe. Their numbers are their indices.
pub(crate) fn add_parameters<'src>(
    called: &mut Called<'src>,
    rt: &impl Abort,
    alloc: Global,
    words: &'static str,
    lines: &'src [CaseLine<'src>],
) {
    for (place, word) in words.split_whitespace().enumerate() {
        let parameter = parameter_of(rt, alloc, place, word, lines);
        push(rt, &mut called.parameters, parameter);
    }
}

fn parameter_of<'src>(
    rt: &impl Abort,
    alloc: Global,
    place: usize,
    word: &'static str,
    lines: &'src [CaseLine<'src>],
) -> Parameter<'src> {
    let (word, marks) = match word.split_once('/') {
        Some(parts) => parts,
        None => (word, ""),
    };
    let (kind, lexeme) = match (word.strip_prefix('+'), word.strip_prefix('*')) {
        (Some(lexeme), _) => (ParameterKind::Plus, lexeme),
        (_, Some(lexeme)) => (ParameterKind::Star, lexeme),
        _ => (ParameterKind::Singular, word),
    };
    Parameter {
        default: expression_of(rt, alloc, lines, "d-", lexeme),
        export: marks.contains('x'),
        flag: marks.contains('f'),
        kind,
        multiple: marks.contains('m'),
        name: name(lexeme),
        number: Number::new(place as u64),
        value: expression_of(rt, alloc, lines, "v-", lexeme),
    }
}

/// Adds at most two attributes that set an environment variable.
pub(crate) fn add_attributes<'src>(
    called: &mut Called<'src>,
    rt: &impl Abort,
    alloc: Global,
    lines: &'src [CaseLine<'src>],
) {
    for place in ["1", "2"] {
        if let Some(key) = expression_of(rt, alloc, lines, "k-", place) {
            let value = expression_of(rt, alloc, lines, "e-", place);
            push_pair(called, rt, key, value.expect(rt, "no value"));
        }
    }
}

// Adds an attribute of a key and a value, and one of another kind before it.
fn push_pair<'src>(
    called: &mut Called<'src>,
    rt: &impl Abort,
    key: Expression<'src>,
    value: Expression<'src>,
) {
    let attributes = &mut called.recipe.attributes;
    let pushed = attributes.push(Attribute::Other, name("other"));
    pushed.expect(rt, "no memory");
    let pushed = attributes.push(Attribute::Env(key, value), name("env"));
    pushed.expect(rt, "no memory");
}

// The recipe must be resolved.
fn is_resolved<'src>(
    alloc: Global,
    context: &ExecutionContext<'src, '_>,
    called: &Called<'src>,
) -> Result<bool, OutOfMemory> {
    let lines = Vec::new(alloc);
    resolved_here(
        alloc,
        context,
        context.scope,
        Some(&called.recipe),
        &called.parameters,
        lines,
    )
}

// Reports what a recipe's parameters evaluate to in a context. The recipe must be resolved.
fn report_in<'src>(
    context: &ExecutionContext<'src, '_>,
    rt: &impl Abort,
    alloc: Global,
    host: &mut ReportingHost,
    called: &Called<'src>,
)
    requires may_call { 0 < context.now.recursion_limit }
{
    if !is_resolved(alloc, context, called).expect(rt, "no memory") {
        host.report(rt, "unresolved;");
    }
    let given = called.evaluate(alloc, host, context);
    report_outcome(&given, &mut host.reported).expect(rt, "no memory");
    drop(given);
}

fn report_outcome(given: &Given, reported: &mut String) -> Result<(), OutOfMemory> {
    match given {
        Ok((scope, words, env)) => report_given(scope, reported, words, env),
        Err(error) => report_refusal(reported, error),
    }
}

fn report_given(
    scope: &Scope,
    reported: &mut String,
    words: &[String],
    env: &BTreeMap<String, String>,
) -> Result<(), OutOfMemory> {
    reported.push_str("words")?;
    for word in words {
        let word = Element(word);
        write!(reported, " {word}")?;
    }
    reported.push(';')?;
    report_frame(scope.frame(), reported)?;
    reported.push_str(" env")?;
    report_environment(reported, env)?;
    reported.push(';')?;
    Ok(())
}

// Adds the message of a refusal. A command that fails is reported as everywhere.
fn report_refusal(reported: &mut String, error: &Error) -> Result<(), OutOfMemory> {
    match error {
        Error::Backtick { .. } | Error::OutOfMemory => reported.push_str(refusal(error))?,
        _ => write!(reported, "{error}")?,
    }
    Ok(())
}
