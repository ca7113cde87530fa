// Evaluations in a scope that binds something, and of expressions that no lines describe.

use crate::texts::{ends, is_so, owned, same};
use bumpalo::Bump;
use just_bench::module_run::ModuleRun;
use just_bench::program::evaluate_in_scope;
use just_case_reader::case::{Case, build};
use just_case_reader::evaluation::Evaluation;
use just_case_reader::line::parse_lines;
use just_case_reader::token::{name, token};
use just_host::no_host::NoHost;
use just_host::recorder::Recorder;
use just_syntax::assignment::Assignment;
use just_syntax::expression::Expression;
use just_syntax::number::Number;
use just_syntax::string_literal::StringLiteral;
use just_syntax::table::Table;
use just_value::binding::Binding;
use just_value::error::{CommandFault, Error};
use just_value::scope::Scope;
use just_value::value::Value;
use std::alloc::Global;
use std::collections::{BTreeMap, HashMap};
use std::process::Abort;

/// A scope that binds the first name of a case to a value.
pub(crate) fn outer<'src, 'run>(
    rt: &impl Abort,
    alloc: Global,
    first: &'src str,
    value: Value,
) -> Scope<'src, 'run> {
    let mut scope = Scope::root(alloc, &[]).expect(rt, "no memory");
    let bound = scope.bind(binding(alloc, first, value));
    bound.expect(rt, "no memory");
    scope
}

// The binding of a name, whose number is 0, to a value.
fn binding<'src>(alloc: Global, lexeme: &'src str, value: Value) -> Binding<'src> {
    Binding::new(alloc, name(lexeme), Number::new(0), value)
}

// In a scope a case has this answer and this status.
fn answers_in<'src>(
    rt: &impl Abort,
    alloc: Global,
    case: Case<'src>,
    parent: &Scope<'src, '_>,
    answer: &str,
    status: u8,
) {
    let mut text = String::new(alloc);
    let answered = evaluate_in_scope(alloc, &mut text, case, parent).expect(rt, "no memory");
    ends(rt, answer, answered, status);
    same(rt, "answer", &text, answer);
}

/// In a scope that binds `o` to no element, a case has this answer and this status.
pub(crate) fn answers_outside_nothing(
    rt: &impl Abort,
    alloc: Global,
    case: &str,
    answer: &str,
    status: u8,
) {
    let arena = Bump::new(alloc);
    let lines = parse_lines(alloc, &arena, case.as_bytes()).expect(rt, "no memory");
    let case = build(alloc, &lines).expect(rt, "no case");
    let parent = outer(rt, alloc, "o", Value::new(alloc));
    answers_in(rt, alloc, case, &parent, answer, status);
    drop(parent);
}

// A case of an operator on an empty list, its answer and its status.
const OPERATORS: &[(&str, &str, u8)] = &[
    (
        "var o\nstr d\nadd\nassign a\nrun",
        "refused 10 ListOperation [] + \"d\"\n",
        2,
    ),
    ("var o\nvar o\nadd\nassign a\nrun", "a = []\n", 0),
    ("var o\ncmd c\nand\nassign a\nrun", "a = []\n", 0),
    ("var o\nstr d\nor\nassign a\nrun", "a = \"d\"\n", 0),
];

#[test]
fn operators_on_lists(rt: HostRuntime) {
    for (case, answer, status) in OPERATORS {
        answers_outside_nothing(&rt, rt.alloc(), case, answer, *status);
    }
}

// If the host runs out of memory for an answer, the questions are printed all the same.
#[test]
fn host_out_of_memory(rt: HostRuntime) {
    let alloc = rt.alloc();
    let case = b"cmd one\ncmd two\nand\nassign a\nreply x\nrun";
    let arena = Bump::new(alloc);
    let lines = parse_lines(alloc, &arena, case).expect(&rt, "no memory");
    let case = build(alloc, &lines).expect(&rt, "no case");
    answers_without_memory(
        &rt,
        alloc,
        case,
        "? command \"one\"\n? command \"two\"\nrefused 12 OutOfMemory\n",
    );
}

// A case is refused like this if the host runs out of memory after the case's replies.
fn answers_without_memory(rt: &impl Abort, alloc: Global, mut case: Case, answer: &str) {
    let pushed = case.replies.push(Err(CommandFault::OutOfMemory));
    pushed.expect(rt, "no memory");
    answers_outside(rt, alloc, case, answer, 2);
}

// In a scope that binds nothing a case has this answer and this status.
fn answers_outside(rt: &impl Abort, alloc: Global, case: Case, answer: &str, status: u8) {
    let parent = Scope::root(alloc, &[]).expect(rt, "no memory");
    answers_in(rt, alloc, case, &parent, answer, status);
    drop(parent);
}

// A number that is bound outside is neither evaluated nor overridden.
#[test]
fn bound_outside(rt: HostRuntime) {
    let alloc = rt.alloc();
    let case = b"cmd c\nassign o\noverride o 5\nrun";
    let arena = Bump::new(alloc);
    let lines = parse_lines(alloc, &arena, case).expect(&rt, "no memory");
    let case = build(alloc, &lines).expect(&rt, "no case");
    let value = Value::from_text(alloc, "o").expect(&rt, "no memory");
    let parent = outer(&rt, alloc, "o", value);
    keeps_the_outer_value(&rt, alloc, case, &parent);
    drop(parent);
}

// The same before any run: a number that is bound outside has its outer value.
#[test]
fn bound_outside_before_a_run(rt: HostRuntime) {
    answers_outside_nothing(
        &rt,
        rt.alloc(),
        "cmd c\nassign o\noverride o 5\nconst",
        "o = []\n",
        0,
    );
}

// A case's assignments ask nothing and bind nothing, and the first number still has the value `o`.
fn keeps_the_outer_value<'src>(
    rt: &impl Abort,
    alloc: Global,
    case: Case<'src>,
    parent: &Scope<'src, '_>,
) {
    let run = ModuleRun::of_case(alloc, case).expect(rt, "no memory");
    let mut host = Recorder::new(alloc, NoHost);
    let outcome = run.evaluate(alloc, &mut host, parent);
    has_the_outer_value_alone(rt, alloc, &outcome);
    drop(outcome);
    drop(run);
    is_so(rt, "asks nothing", host.questions().is_empty());
}

// A run returns a scope with no bindings of its own, in which the first number has the value `o`.
fn has_the_outer_value_alone<'call>(
    rt: &'call impl Abort,
    alloc: Global,
    outcome: &'call Result<Scope, Error>,
) {
    let Ok(scope) = outcome else {
        panic!(rt; "a refusal");
    };
    assert_eq!(rt; scope.bindings().count(), 0);
    match scope.value(Number::new(0)) {
        Some(value) => prints(rt, alloc, value, "\"o\""),
        None => panic!(rt; "no value"),
    }
}

// A value is printed like this.
fn prints(rt: &impl Abort, alloc: Global, value: &Value, printed: &str) {
    let text = format!(in alloc; "{value}").expect(rt, "no memory");
    same(rt, "value", &text, printed);
}

// A format string, whether its start is indented, and the answer of a case that assigns it to `x`. The case's commands
// are answered first by `1` and then by `2`. A format string is written as its start, then each interpolation and the
// text after it, with `@` between all of these. An interpolation is a list, with `|` between its elements, or a command
// in backticks.
const FORMAT_STRINGS: &[(&str, bool, &str)] = &[
    ("<@a|b@>", false, "x = \"<a b>\"\n"),
    (
        "@`c`@-@a@+@`d`@!",
        false,
        "? command \"c\"\n? command \"d\"\nx = \"1-a+2!\"\n",
    ),
    // The whole text, with its interpolations, is unindented if its start is indented. Whether the other texts are does
    // not matter.
    ("\n  x @a|b@\n    y\n", true, "x = \"x a b\\n  y\\n\"\n"),
    (
        "\n  x @a|b@\n    y\n",
        false,
        "x = \"\\n  x a b\\n    y\\n\"\n",
    ),
    ("\n  x@\ny@", true, "x = \"  x\\ny\"\n"),
    ("\n  x@\n  y@\n  z", true, "x = \"x\\ny\\nz\"\n"),
    ("\n  @`c`@\n  ", true, "? command \"c\"\nx = \"1\\n\"\n"),
];

#[test]
fn format_strings(rt: HostRuntime) {
    for (written, is_indented, answer) in FORMAT_STRINGS {
        let value = format_string(&rt, rt.alloc(), written, *is_indented);
        answers_assigned(&rt, rt.alloc(), value, answer, 0);
    }
}

// The format string in this notation. Each text after an interpolation has the opposite mark of the start.
fn format_string(
    rt: &impl Abort,
    alloc: Global,
    written: &'static str,
    is_indented: bool,
) -> Expression<'static> {
    let mut expressions = Vec::new(alloc);
    let mut pieces = written.split('@');
    let start = literal(rt, alloc, pieces.next().expect(rt, "no start"), is_indented);
    while let Some(interpolation) = pieces.next() {
        let text = pieces.next().expect(rt, "no text");
        let interpolated = interpolated(rt, alloc, interpolation);
        let pushed = expressions.push((interpolated, literal(rt, alloc, text, !is_indented)));
        pushed.expect(rt, "no memory");
    }
    Expression::FormatString { start, expressions }
}

// A literal of this text.
fn literal(
    rt: &impl Abort,
    alloc: Global,
    text: &'static str,
    indented: bool,
) -> StringLiteral<'static> {
    let mut literal = StringLiteral::new(alloc, text, "'..'").expect(rt, "no memory");
    literal.indented = indented;
    literal
}

// A command in backticks, or a list of the parts between `|`.
fn interpolated(rt: &impl Abort, alloc: Global, written: &'static str) -> Expression<'static> {
    if written.starts_with('`') {
        let command = Expression::backtick(alloc, written.trim_matches('`'), token(written));
        return command.expect(rt, "no memory");
    }
    let mut elements = Vec::new(alloc);
    for text in written.split('|') {
        let string_literal = literal(rt, alloc, text, false);
        let pushed = elements.push(Expression::StringLiteral { string_literal });
        pushed.expect(rt, "no memory");
    }
    Expression::list(elements, token("["))
}

#[test]
fn variable_without_a_number(rt: HostRuntime) {
    let variable = Expression::Variable {
        name: name("y"),
        number: None,
    };
    answers_assigned(
        &rt,
        rt.alloc(),
        variable,
        "unresolved\nrefused 6 Internal \"attempted to evaluate unresolved variable `y`\"\n",
        2,
    );
}

// A case that assigns an expression to `x`, and has two replies, has this answer and this status.
fn answers_assigned(
    rt: &impl Abort,
    alloc: Global,
    value: Expression<'static>,
    answer: &str,
    status: u8,
) {
    let case = case_of(rt, alloc, assignments_of(rt, alloc, value));
    answers_outside(rt, alloc, case, answer, status);
}

// A table with `x`, whose number is 1, and an expression.
fn assignments_of(
    rt: &impl Abort,
    alloc: Global,
    value: Expression<'static>,
) -> Table<Assignment<'static>> {
    let mut assignments = Table::new(alloc);
    let inserted = assignments.insert(Assignment::new(name("x"), Number::new(1), value));
    inserted.expect(rt, "no memory");
    assignments
}

// A run of `x`, with these assignments and the replies `1` and `2`.
fn case_of(
    rt: &impl Abort,
    alloc: Global,
    assignments: Table<Assignment<'static>>,
) -> Case<'static> {
    Case {
        assignments,
        evaluation_order: vec![in alloc; name("x")].expect(rt, "no memory"),
        functions: Table::new(alloc),
        overrides: HashMap::new(alloc),
        references: None,
        dotenv: BTreeMap::new(alloc),
        always: Vec::new(alloc),
        replies: replies(rt, alloc),
        lists: false,
        dry_run: false,
        recursion_limit: 100,
        evaluation: Evaluation::Run,
    }
}

fn replies(rt: &impl Abort, alloc: Global) -> Vec<Result<String, CommandFault>> {
    vec![in alloc; Ok(owned(rt, alloc, "1")), Ok(owned(rt, alloc, "2"))].expect(rt, "no memory")
}
