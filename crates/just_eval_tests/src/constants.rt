// Expressions before any run: that of the assignment `e` of a case, which is not referenced.

ghost use Rattle.just_eval_tests.specs.Prelude.{IsConst};

use crate::bindings::report_frame;
use crate::cases::{Subject, add_said, reported};
use crate::compared::reports;
use just_case_reader::token::{name, token};
use just_eval::evaluator::Evaluator;
use just_host::no_host::NoHost;
use just_host::recorder::Recorder;
use just_syntax::expression::Expression;
use just_syntax::fragment::Fragment;
use just_syntax::line::Line;
use just_syntax::number::Number;
use just_syntax::string_context::StringContext;
use just_value::compile_error::CompileError;
use just_value::error::Error;
use just_value::value::Value;
use std::alloc::Global;
use std::process::Abort;

// An expression, and what it evaluates to: as a value, as a text in the setting `set`, and in a line between `<` and
// `>`.
const EXPRESSIONS: &[(&str, &str, &str, &str)] = &[
    ("str x\nstr y\nadd", "\"xy\"", "xy", "<xy>"),
    (
        "str x\nstr y\nlist 2",
        "[\"x\", \"y\"]",
        "list value [\"x\", \"y\"] in setting `set`",
        "<x y>",
    ),
    ("list 0", "[]", "list value [] in setting `set`", "<>"),
    ("cmd c", BACKTICK, BACKTICK, BACKTICK),
    ("str a\nstr a\neq\nstr y\ncmd c\nif", "\"y\"", "y", "<y>"),
    (
        "str a\nstr b\neq\nstr y\ncmd c\nif",
        BACKTICK,
        BACKTICK,
        BACKTICK,
    ),
    ("str x\ncall trim 1", CALL, CALL, CALL),
    // Neither the called name nor the arguments are evaluated.
    ("cmd c\ncall f 1", CALL, CALL, CALL),
    ("var o", OPEN, OPEN, OPEN),
    ("var s", "\"sh\"", "sh", "<sh>"),
    ("var p", UNEVALUATED, UNEVALUATED, UNEVALUATED),
];

const BACKTICK: &str = "cannot call backticks in const context";

const CALL: &str = "cannot call functions in const context";

const OPEN: &str = "cannot access non-const variable `o` in const context";

const UNEVALUATED: &str = "internal error: attempted to evaluate unevaluated variable `p`";

// The lines before an expression: `s` is settled, and `o` is open.
const STAGE: &str = "str sh\nassign s\ncmd c\nassign o\n";

// The own bindings there.
const OWN: &str = "own (s = \"sh\")";

const LAST_LINES: &str = "\nassign e\nonly s o\nconst";

#[test]
fn const_expressions(rt: HostRuntime) {
    for (expression, value, text, line) in EXPRESSIONS {
        evaluates_to(&rt, rt.alloc(), expression, value, text, line);
    }
}

/// An expression evaluates to this value, to this text and, in a line, to this one, also when a host is given.
pub(crate) fn evaluates_to(
    rt: &impl Abort,
    alloc: Global,
    expression: &str,
    value: &str,
    text: &str,
    line: &str,
) {
    let both = format!(in alloc; "{value}; {text}; ").expect(rt, "no memory");
    let wanted = format!(in alloc; "{both}{both}{line}; 0; \"sh\" open - - - {OWN}");
    let wanted = wanted.expect(rt, "no memory");
    reports(rt, expression, staged(rt, alloc, expression), &wanted);
}

// The report on an expression, with `s` settled and `o` open.
fn staged(rt: &impl Abort, alloc: Global, expression: &str) -> String {
    let case = format!(in alloc; "{STAGE}{expression}{LAST_LINES}").expect(rt, "no memory");
    reported(rt, alloc, &case, NOTHING, Subject::Expression)
}

// The assignments `a`, `b`, `d` and `e` have the numbers 0 to 3, and `e` is not referenced.
const NUMBERED: &str =
    "str x\nassign a\ncmd c\nassign b\nvar b\nassign d\nstr y\nassign e\nonly a b d\noverride e z\nconst";

// What `e` evaluates to there.
const Y: &str = "\"y\"; y; \"y\"; y; <y>; 0; ";

// The bindings of the outer scope: the numbers from 0 on, each with a name of its own there.
const NOTHING: &[(&str, &str)] = &[];

const TWO_NUMBERS: &[(&str, &str)] = &[("k", "v"), ("l", "w")];

// Settled numbers are bound within the outer scope; open ones and those that are not referenced are not. A binding has
// the flags of its assignment.
#[test]
fn settled_and_open(rt: HostRuntime) {
    let numbers = "\"x\" open open - - own (a = \"x\")";
    settles(&rt, rt.alloc(), NUMBERED, NOTHING, numbers);
    let numbers =
        "\"x\" \"y\" open \"v\" - own (export a = \"x\"eager eager-b = \"y\"export private private-e = \"v\")";
    settles(&rt, rt.alloc(), FLAGGED, NOTHING, numbers);
}

const FLAGGED: &str =
    "str x\nexport a\nstr y\nassign eager-b\ncmd c\nassign d\nstr y\nexport private-e\noverride private-e v\nstr y\nassign e\nonly a eager-b d private-e\nconst";

// With these outer bindings, the first five numbers of a case and its own bindings are these, and `e` is the text `y`.
fn settles(
    rt: &impl Abort,
    alloc: Global,
    case: &str,
    outside: &[(&'static str, &'static str)],
    numbers: &str,
) {
    let wanted = format!(in alloc; "{Y}{numbers}").expect(rt, "no memory");
    reports(
        rt,
        case,
        reported(rt, alloc, case, outside, Subject::Expression),
        &wanted,
    );
}

// A number that the outer scope binds is skipped: it keeps its outer value, even if its expression is a command.
#[test]
fn bound_outside(rt: HostRuntime) {
    let numbers = "\"v\" \"w\" \"w\" - - own (d = \"w\")";
    settles(&rt, rt.alloc(), NUMBERED, TWO_NUMBERS, numbers);
}

/// The line of an expression, between `<` and `>`.
pub(crate) fn line_of<'src>(
    rt: &impl Abort,
    alloc: Global,
    expression: Expression<'src>,
) -> Line<'src> {
    let start = Fragment::Text { token: token("<") };
    let end = Fragment::Text { token: token(">") };
    let fragments = vec![in alloc; start, Fragment::Interpolation { expression }, end];
    Line::new(fragments.expect(rt, "no memory"))
}

/// What an expression evaluates to: as a value, as a text, as both with a host, and in a line with that host; then how
/// many questions the host was asked, the values of the first five numbers, and the own bindings.
pub(crate) fn reported_by<'src>(
    evaluator: &Evaluator<'src, '_>,
    rt: &impl Abort,
    alloc: Global,
    expression: &Expression<'src>,
    line: &Line<'src>,
) -> String
    requires before_runs { IsConst evaluator.now }
{
    let mut text = String::new(alloc);
    let value = evaluator.evaluate_value_const(alloc, expression);
    add_value(rt, &mut text, &value);
    drop(value);
    add_text(evaluator, rt, alloc, &mut text, expression);
    add_asked(evaluator, rt, alloc, &mut text, expression, line);
    add_numbers(evaluator, rt, &mut text);
    text
}

// Adds a value, or the message of its refusal.
fn add_value(rt: &impl Abort, text: &mut String, outcome: &Result<Value, CompileError>) {
    match outcome {
        Ok(value) => write!(text, "{value}").expect(rt, "no memory"),
        Err(error) => add_said(rt, text, error),
    }
    text.push_str("; ").expect(rt, "no memory");
}

// Adds what an expression evaluates to as a text.
fn add_text<'src>(
    evaluator: &Evaluator<'src, '_>,
    rt: &impl Abort,
    alloc: Global,
    text: &mut String,
    expression: &Expression<'src>,
)
    requires before_runs { IsConst evaluator.now }
{
    let setting = StringContext::Setting(name("set"));
    match evaluator.evaluate_string_const(alloc, expression, setting) {
        Ok(string) => text.push_str(&string).expect(rt, "no memory"),
        Err(error) => add_said(rt, text, &error),
    }
    text.push_str("; ").expect(rt, "no memory");
}

// Adds what an expression evaluates to with a host, as a value and as a text, then a line, and how many questions the
// host was asked.
fn add_asked<'src>(
    evaluator: &Evaluator<'src, '_>,
    rt: &impl Abort,
    alloc: Global,
    text: &mut String,
    expression: &Expression<'src>,
    line: &Line<'src>,
)
    requires before_runs { IsConst evaluator.now }
{
    let mut host = Recorder::new(alloc, NoHost);
    let value = value_with(evaluator, alloc, &mut host, expression);
    add_value(rt, text, &value);
    drop(value);
    let setting = StringContext::Setting(name("set"));
    add_string(
        rt,
        text,
        evaluator.evaluate_string(alloc, &mut host, expression, setting),
    );
    add_string(
        rt,
        text,
        evaluator.evaluate_line(alloc, &mut host, line, false),
    );
    let asked = host.questions().len();
    drop(host);
    write!(text, "{asked}; ").expect(rt, "no memory");
}

// Adds a text, or the message of its refusal.
fn add_string(rt: &impl Abort, text: &mut String, outcome: Result<String, Error>) {
    match outcome {
        Ok(string) => text.push_str(&string).expect(rt, "no memory"),
        Err(error) => write!(text, "{error}").expect(rt, "no memory"),
    }
    text.push_str("; ").expect(rt, "no memory");
}

// What an expression evaluates to as a value, with this host.
fn value_with<'src>(
    evaluator: &Evaluator<'src, '_>,
    alloc: Global,
    host: &mut Recorder<NoHost>,
    expression: &Expression<'src>,
) -> Result<Value, CompileError<'src>>
    requires before_runs { IsConst evaluator.now }
{
    match evaluator.evaluate_value(alloc, host, expression) {
        Ok(value) => Ok(value),
        Err(error) => Err(error.unwrap_const()),
    }
}

// Adds the values of the first five numbers, and the own bindings.
fn add_numbers(evaluator: &Evaluator, rt: &impl Abort, text: &mut String) {
    for number in 0..5u64 {
        add_number(evaluator, rt, text, Number::new(number));
    }
    text.push_str("own").expect(rt, "no memory");
    let reported = report_frame(evaluator.scope().frame(), text);
    reported.expect(rt, "no memory");
}

fn add_number(evaluator: &Evaluator, rt: &impl Abort, text: &mut String, number: Number) {
    let unsettled = if evaluator.is_open(number) {
        "open "
    } else {
        "- "
    };
    match evaluator.scope().value(number) {
        Some(value) => write!(text, "{value} ").expect(rt, "no memory"),
        None => text.push_str(unsettled).expect(rt, "no memory"),
    }
}
