// Assignments that are evaluated one at a time.

ghost use Rattle.std.specs.Prelude.{◌<◌};

use crate::bindings::report_frame;
use crate::compared::reports;
use crate::recipes::around::Around;
use crate::recipes::texts::{add, push};
use bumpalo::Bump;
use just_case_reader::line::{Line as CaseLine, parse_lines};
use just_case_reader::token::name;
use just_eval::evaluator::Evaluator;
use just_eval::steps::Steps;
use just_host::command_host::{CommandHost, Commands};
use just_host::command_question::CommandQuestion;
use just_host::execution_context::ExecutionContext;
use just_host::no_host::NoHost;
use just_host::recorder::Recorder;
use just_syntax::number::Number;
use just_syntax::variables::set_of;
use just_value::error::{CommandFault, Error};
use just_value::scope::Scope;
use std::alloc::Global;
use std::collections::HashSet;
use std::process::Abort;

// Answers each command with its own text in angle brackets, but fails `no`.
#[derive(Drop)]
struct Willing {}

impl Commands for Willing {
    ghost answers = { λ _ _ _ _. Unit {0} };

    fn answer(
        &mut self,
        alloc: Global,
        question: &CommandQuestion,
    ) -> Result<String, CommandFault> {
        let command = question.command;
        if command == "no" {
            return Err(CommandFault::Code(1));
        }
        Ok(format!(in alloc; "<{command}>")?)
    }
}

type Recording = Recorder<CommandHost<Willing, NoHost>>;

fn recording(alloc: Global) -> Recording {
    Recorder::new(alloc, CommandHost::new(Willing {}))
}

// A case, the names of steps, the digits of the numbers that are overridden by `x`, and of those that are referenced or
// `-`; and the report: for each step its name, its questions, how it ends and what is bound then; then what is bound at
// the end, and what a run in the order of the case binds.
type Row = (
    &'static str,
    &'static str,
    &'static str,
    &'static str,
    &'static str,
);

const TWO: &str = "cmd who\nassign a\nvar a\ncmd when\nadd\nassign b\nrun";

const APART: &str = "cmd who\nassign a\ncmd when\nassign b\nrun";

const ROWS: &[Row] = &[
    ("run", "", "", "-", "end () run ()"),
    // The steps of an order make a run.
    (
        TWO,
        "a b",
        "",
        "-",
        "a: command \"who\"; ok (a = \"<who>\")\n\
        b: command \"when\"; ok (a = \"<who>\"b = \"<who><when>\")\n\
        end (a = \"<who>\"b = \"<who><when>\") run (a = \"<who>\"b = \"<who><when>\")",
    ),
    // A step of a name that is bound already asks nothing.
    (
        APART,
        "b b a",
        "",
        "-",
        "b: command \"when\"; ok (b = \"<when>\")\n\
        b: ok (b = \"<when>\")\n\
        a: command \"who\"; ok (a = \"<who>\"b = \"<when>\")\n\
        end (a = \"<who>\"b = \"<when>\") run (a = \"<who>\"b = \"<when>\")",
    ),
    // An override asks nothing.
    (
        TWO,
        "a b",
        "0",
        "-",
        "a: ok (a = \"x\")\n\
        b: command \"when\"; ok (a = \"x\"b = \"x<when>\")\n\
        end (a = \"x\"b = \"x<when>\") run (a = \"x\"b = \"x<when>\")",
    ),
    // A name that is not referenced is skipped, overridden or not.
    (
        APART,
        "a b",
        "",
        "1",
        "a: ok ()\n\
        b: command \"when\"; ok (b = \"<when>\")\n\
        end (b = \"<when>\") run (b = \"<when>\")",
    ),
    (
        APART,
        "a b",
        "1",
        "0",
        "a: command \"who\"; ok (a = \"<who>\")\n\
        b: ok (a = \"<who>\")\n\
        end (a = \"<who>\") run (a = \"<who>\")",
    ),
    (APART, "b a", "0", "", "b: ok ()\na: ok ()\nend () run ()"),
    // No assignment has the name. The next step may follow.
    (
        APART,
        "z a",
        "",
        "-",
        "z: internal ()\n\
        a: command \"who\"; ok (a = \"<who>\")\n\
        end (a = \"<who>\") run (a = \"<who>\"b = \"<when>\")",
    ),
    // A variable that is read too early is refused, and can be evaluated again.
    (
        TWO,
        "b a b",
        "",
        "-",
        "b: internal ()\n\
        a: command \"who\"; ok (a = \"<who>\")\n\
        b: command \"when\"; ok (a = \"<who>\"b = \"<who><when>\")\n\
        end (a = \"<who>\"b = \"<who><when>\") run (a = \"<who>\"b = \"<who><when>\")",
    ),
    // A refused step keeps the bindings, and what it asked before. A run is refused as a whole.
    (
        "cmd who\nassign a\ncmd when\ncmd no\nadd\nassign b\nvar a\nassign c\nrun",
        "a b c b",
        "",
        "-",
        "a: command \"who\"; ok (a = \"<who>\")\n\
        b: command \"when\"; command \"no\"; command (a = \"<who>\")\n\
        c: ok (a = \"<who>\"c = \"<who>\")\n\
        b: command \"when\"; command \"no\"; command (a = \"<who>\"c = \"<who>\")\n\
        end (a = \"<who>\"c = \"<who>\") run refused",
    ),
    // A branch that is not taken asks nothing, and the body of a function asks in the step that calls it.
    (
        "cmd who\ncmd when\nor\nassign a\ncmd how\nfun f n\nvar a\ncall f 1\nassign b\nrun",
        "a b",
        "",
        "-",
        "a: command \"who\"; ok (a = \"<who>\")\n\
        b: command \"how\"; ok (a = \"<who>\"b = \"<how>\")\n\
        end (a = \"<who>\"b = \"<how>\") run (a = \"<who>\"b = \"<how>\")",
    ),
];

#[test]
fn steps_and_a_run(rt: HostRuntime) {
    for row in ROWS {
        let (case, _, _, _, wanted) = *row;
        let arena = Bump::new(rt.alloc());
        let lines = parse_lines(rt.alloc(), &arena, case.as_bytes()).expect(&rt, "no memory");
        let reported = reported(&rt, rt.alloc(), &lines, row);
        drop(lines);
        reports(&rt, case, reported, wanted);
    }
}

// The report on a row whose case has these lines.
fn reported<'src>(
    rt: &impl Abort,
    alloc: Global,
    lines: &'src [CaseLine<'src>],
    row: &Row,
) -> String {
    let (_, names, overridden, referenced, _) = *row;
    let mut around = Around::of_lines(rt, alloc, lines);
    for number in numbers(rt, alloc, overridden) {
        around.override_with(rt, alloc, number, "x");
    }
    let references = references(rt, alloc, referenced);
    let mut reported = String::new(alloc);
    step_through(
        &around.context(),
        rt,
        alloc,
        references.as_ref(),
        names,
        &mut reported,
    );
    run(
        &around.context(),
        rt,
        alloc,
        references.as_ref(),
        &mut reported,
    );
    drop(references);
    drop(around);
    reported
}

// Numbers, a digit each.
fn numbers(rt: &impl Abort, alloc: Global, digits: &str) -> Vec<Number> {
    let mut numbers = Vec::new(alloc);
    for digit in digits.bytes() {
        let number = Number::new(u64::from(digit.saturating_sub(b'0')));
        push(rt, &mut numbers, number);
    }
    numbers
}

// References, a digit each; none for `-`.
fn references(rt: &impl Abort, alloc: Global, digits: &str) -> Option<HashSet<Number>> {
    if digits == "-" {
        return None;
    }
    let references = set_of(alloc, &numbers(rt, alloc, digits));
    Some(references.expect(rt, "no memory"))
}

// Reports each step and, at the end, the bindings.
fn step_through<'src, 'run>(
    context: &ExecutionContext<'src, 'run>,
    rt: &impl Abort,
    alloc: Global,
    references: Option<&'run HashSet<Number>>,
    names: &'src str,
    reported: &mut String,
) {
    let mut host = recording(alloc);
    let mut steps = Steps::new(alloc, *context, references).expect(rt, "no memory");
    for lexeme in names.split_whitespace() {
        step(&mut steps, rt, alloc, &mut host, lexeme, reported);
    }
    add(rt, reported, "end");
    report_own(&steps.into_scope(), rt, reported);
    drop(host);
}

// Reports a step: its name, its questions, how it ends, and the bindings.
fn step<'src>(
    steps: &mut Steps<'src, '_>,
    rt: &impl Abort,
    alloc: Global,
    host: &mut Recording,
    lexeme: &'src str,
    reported: &mut String,
) {
    let outcome = steps.evaluate(alloc, host, &name(lexeme));
    write!(reported, "{lexeme}:").expect(rt, "no memory");
    report_questions(rt, alloc, host, reported);
    add(rt, reported, ending(&outcome));
    drop(outcome);
    report_own(steps.scope(), rt, reported);
    add(rt, reported, "\n");
}

// Adds the questions since the last step.
fn report_questions(rt: &impl Abort, alloc: Global, host: &mut Recording, reported: &mut String) {
    for question in &host.take_questions(alloc) {
        write!(reported, " {question};").expect(rt, "no memory");
    }
}

// How a step ends.
fn ending(outcome: &Result<(), Error>) -> &'static str {
    match outcome {
        Ok(()) => " ok",
        Err(Error::Backtick { .. }) => " command",
        Err(Error::Internal { .. }) => " internal",
        Err(_) => " refused",
    }
}

// Adds the own bindings of a scope.
fn report_own(scope: &Scope, rt: &impl Abort, reported: &mut String) {
    report_frame(scope.frame(), reported).expect(rt, "no memory");
}

// Adds what a run binds, or that it is refused.
fn run<'src>(
    context: &ExecutionContext<'src, '_>,
    rt: &impl Abort,
    alloc: Global,
    references: Option<&HashSet<Number>>,
    reported: &mut String,
)
    requires may_call { 0 < context.now.recursion_limit }
{
    let mut host = recording(alloc);
    let outcome = Evaluator::evaluate_assignments(
        alloc,
        &mut host,
        context.config,
        context.dotenv,
        context.module,
        context.overrides,
        context.scope,
        context.search,
        context.recursion_limit,
        references,
    );
    add(rt, reported, " run");
    match &outcome {
        Ok(scope) => report_own(scope, rt, reported),
        Err(_error) => add(rt, reported, " refused"),
    }
    drop(outcome);
    drop(host);
}

#[test]
fn a_thousand_steps(rt: HostRuntime) {
    let alloc = rt.alloc();
    let mut case = String::new(alloc);
    let mut wanted = String::new(alloc);
    for i in 1000..2000u64 {
        write!(case, "cmd c{i}\nassign x{i}\n").expect(&rt, "no memory");
        write!(wanted, "x{i} = \"<c{i}>\"").expect(&rt, "no memory");
    }
    add(&rt, &mut case, "run");
    let arena = Bump::new(alloc);
    let lines = parse_lines(alloc, &arena, case.as_bytes()).expect(&rt, "no memory");
    let reported = reported_at_once(&rt, alloc, &lines);
    drop(lines);
    let wanted = format!(in alloc; " ({wanted})").expect(&rt, "no memory");
    reports(&rt, "a thousand steps", reported, &wanted);
}

// The bindings after the steps of a case.
fn reported_at_once<'src>(rt: &impl Abort, alloc: Global, lines: &'src [CaseLine<'src>]) -> String {
    let around = Around::of_lines(rt, alloc, lines);
    let mut reported = String::new(alloc);
    step_at_once(&around.context(), rt, alloc, &mut reported);
    drop(around);
    reported
}

fn step_at_once<'src>(
    context: &ExecutionContext<'src, '_>,
    rt: &impl Abort,
    alloc: Global,
    reported: &mut String,
) {
    let mut host = recording(alloc);
    let mut steps = Steps::new(alloc, *context, None).expect(rt, "no memory");
    for name in &context.module.evaluation_order {
        let outcome = steps.evaluate(alloc, &mut host, name);
        add(rt, reported, if outcome.is_ok() { "" } else { "refused" });
        drop(outcome);
    }
    report_own(steps.scope(), rt, reported);
    drop(steps);
    drop(host);
}
