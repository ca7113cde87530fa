// Expression contexts, scopes and their bindings.

use crate::compared::{equal, reports};
use crate::modules::Variable;
use crate::parts::{name, numbered, owned, push, value};
use just_syntax::number::Number;
use just_syntax::parameter::Parameter;
use just_syntax::parameter_kind::ParameterKind;
use just_value::binding::Binding;
use just_value::bindings::Bindings;
use just_value::expression_context::ExpressionContext;
use just_value::scope::Scope;
use just_value::value::Value;
use std::alloc::Global;
use std::process::Abort;

// Whether a context gives a name this number.
pub(crate) fn gives(rt: &impl Abort, context: &ExpressionContext, name: &str, number: Option<u64>) {
    equal(rt, name, context.lookup(name), numbered(number));
}

// Whether a context gives each name its number.
fn gives_all(rt: &impl Abort, context: &ExpressionContext, wanted: &[(&str, Option<u64>)]) {
    for (name, number) in wanted {
        gives(rt, context, name, *number);
    }
}

// Variables, and the numbers of names in a context of them.
type Context = (
    &'static [Variable<'static>],
    &'static [(&'static str, Option<u64>)],
);

const OF_NONE: &[(&str, Option<u64>)] = &[("n", None), ("m", None), ("x", None), ("", None)];

const CONTEXTS: &[Context] = &[
    (&[], OF_NONE),
    (
        &[("n", 1, &[]), ("m", 3, &[]), ("n", 2, &[])],
        &[("n", Some(2)), ("m", Some(3)), ("x", None), ("", None)],
    ),
    (
        &[("n", 7, &[]), ("n", 9, &[]), ("n", 8, &[])],
        &[("n", Some(8)), ("m", None)],
    ),
    (
        &[("x", 5, &[]), ("y", 6, &[]), ("x", 7, &[])],
        &[("x", Some(7)), ("y", Some(6)), ("n", None)],
    ),
];

#[test]
fn names_and_numbers(rt: HostRuntime) {
    let alloc = rt.alloc();
    gives_all(&rt, &ExpressionContext::new(alloc), OF_NONE);
    for (variables, wanted) in CONTEXTS {
        gives_all(&rt, &from_pairs(&rt, alloc, variables), wanted);
        gives_all(&rt, &from_parameters(&rt, alloc, variables), wanted);
    }
}

// The context of these pairs of names and numbers.
pub(crate) fn from_pairs<'a>(
    rt: &impl Abort,
    alloc: Global,
    variables: &[Variable<'a>],
) -> ExpressionContext<'a> {
    let mut pairs = Vec::new(alloc);
    for (lexeme, number, _) in variables {
        let added = pairs.extend_from_slice(&[(name(lexeme), Number::new(*number))]);
        added.expect(rt, "no memory");
    }
    ExpressionContext::from_pairs(alloc, &pairs).expect(rt, "no memory")
}

// The context of parameters with these names and numbers.
pub(crate) fn from_parameters<'a>(
    rt: &impl Abort,
    alloc: Global,
    variables: &[Variable<'a>],
) -> ExpressionContext<'a> {
    let mut parameters = Vec::new(alloc);
    for (lexeme, number, _) in variables {
        push(rt, &mut parameters, parameter(lexeme, *number));
    }
    let context = ExpressionContext::from_parameters(alloc, &parameters);
    drop(parameters);
    context.expect(rt, "no memory")
}

fn parameter(lexeme: &str, number: u64) -> Parameter<'_> {
    Parameter::new(name(lexeme), Number::new(number), ParameterKind::Singular)
}

// Binds a number to a text.
pub(crate) fn bind<'src>(
    scope: &mut Scope<'src, '_>,
    rt: &impl Abort,
    alloc: Global,
    lexeme: &'src str,
    number: u64,
    text: &str,
) {
    let value = value(rt, alloc, &[text]);
    let binding = Binding::new(alloc, name(lexeme), Number::new(number), value);
    scope.bind(binding).expect(rt, "no memory");
}

// Names, numbers and texts, bound one after the other.
type Bound = &'static [(&'static str, u64, &'static str)];

fn bind_all(scope: &mut Scope, rt: &impl Abort, alloc: Global, all: Bound) {
    for (lexeme, number, text) in all {
        bind(scope, rt, alloc, lexeme, *number, text);
    }
}

// A value, joined.
fn joined(rt: &impl Abort, alloc: Global, value: &Value) -> String {
    value.join(alloc).expect(rt, "no memory")
}

// The value of a number in a scope, joined, or `-`.
fn reported_value(scope: &Scope, rt: &impl Abort, alloc: Global, number: u64) -> String {
    match scope.value(Number::new(number)) {
        Some(value) => joined(rt, alloc, value),
        None => owned(rt, alloc, "-"),
    }
}

// The name that a number is bound to, or `-`.
pub(crate) fn name_of<'src>(scope: &Scope<'src, '_>, number: u64) -> &'src str {
    if let Some(binding) = scope.binding(Number::new(number)) {
        return binding.name.lexeme();
    }
    "-"
}

// Whether a scope itself binds a number.
fn binds_itself(scope: &Scope, number: u64) -> bool {
    scope.frame().binding(Number::new(number)).is_some()
}

// How many frames are around a scope's own; -1 for a root.
fn reported_outer(scope: &Scope, rt: &impl Abort, alloc: Global) -> i64 {
    if scope.parent().is_none() {
        return -1;
    }
    scope.outer_frames(alloc).expect(rt, "no memory").len() as i64
}

// Whether a number has this value in a scope.
pub(crate) fn holds(scope: &Scope, rt: &impl Abort, alloc: Global, number: u64, wanted: &str) {
    reports(rt, reported_value(scope, rt, alloc, number), wanted);
}

// Adds the name and the joined value of each binding.
pub(crate) fn walk(mut bindings: Bindings, rt: &impl Abort, alloc: Global, reported: &mut String) {
    while let Some(binding) = bindings.next() {
        report_binding(binding, rt, alloc, reported);
    }
}

fn report_binding(binding: &Binding, rt: &impl Abort, alloc: Global, reported: &mut String) {
    let name = binding.name.lexeme();
    let mark = mark(binding);
    let value = joined(rt, alloc, &binding.value);
    write!(reported, "{name}={value}{mark};").expect(rt, "no memory");
}

// Nothing for a binding that `bind` makes, `!` for that of a constant, and `?` for any other.
fn mark(binding: &Binding) -> &'static str {
    let says_more = binding.eager || binding.export || binding.private;
    let path = binding.name.token.path;
    if says_more || binding.file_depth != 0 {
        return "?";
    }
    if binding.prelude && path == "PRELUDE" {
        return "!";
    }
    if !binding.prelude && path == "justfile" {
        ""
    } else {
        "?"
    }
}

// Adds the own bindings of a scope, twice: from the scope, and from its frame.
pub(crate) fn report_own(scope: &Scope, rt: &impl Abort, alloc: Global, reported: &mut String) {
    walk(scope.bindings(), rt, alloc, reported);
    walk(scope.frame().bindings(), rt, alloc, reported);
}

// Adds what the numbers below 8 mean in a scope: for each its name, its value and, if the scope itself binds it, `!`.
// Then it adds the scope's own bindings and how many frames are around it.
fn report(scope: &Scope, rt: &impl Abort, alloc: Global, reported: &mut String) {
    for number in 0..8 {
        let name = name_of(scope, number);
        let value = reported_value(scope, rt, alloc, number);
        let own = if binds_itself(scope, number) { "!" } else { "" };
        write!(reported, "{number} {name} {value}{own}; ").expect(rt, "no memory");
    }
    report_own(scope, rt, alloc, reported);
    let outer = reported_outer(scope, rt, alloc);
    write!(reported, " {outer}").expect(rt, "no memory");
}

const CONSTANTS: &[(&str, &str)] = &[("HEX", "0123"), ("RED", "\u{1b}[31m")];

const REPORTED_CONSTANTS: &str =
    "0 HEX 0123; 1 RED \u{1b}[31m; 2 - -; 3 - -; 4 - -; 5 - -; 6 - -; 7 - -;  1\n\
    0 HEX 0123!; 1 RED \u{1b}[31m!; 2 - -; 3 - -; 4 - -; 5 - -; 6 - -; 7 - -; \
    HEX=0123!;RED=\u{1b}[31m!;HEX=0123!;RED=\u{1b}[31m!; -1";

// The bindings of a root, those of its child, and the reports on the child and then on the root.
const SCOPES: &[(Bound, Bound, &str)] = &[
    // With nothing bound.
    (
        &[],
        &[],
        "0 - -; 1 - -; 2 - -; 3 - -; 4 - -; 5 - -; 6 - -; 7 - -;  1\n\
        0 - -; 1 - -; 2 - -; 3 - -; 4 - -; 5 - -; 6 - -; 7 - -;  -1",
    ),
    // A child gives 1 the value of its parent, until it binds it itself.
    (
        &[("x", 2, "two"), ("y", 1, "one")],
        &[],
        "0 - -; 1 y one; 2 x two; 3 - -; 4 - -; 5 - -; 6 - -; 7 - -;  1\n\
        0 - -; 1 y one!; 2 x two!; 3 - -; 4 - -; 5 - -; 6 - -; 7 - -; y=one;x=two;y=one;x=two; -1",
    ),
    (
        &[("x", 2, "two"), ("y", 1, "one")],
        &[("y", 1, "own"), ("z", 3, "three")],
        "0 - -; 1 y own!; 2 x two; 3 z three!; 4 - -; 5 - -; 6 - -; 7 - -; y=own;z=three;y=own;z=three; 1\n\
        0 - -; 1 y one!; 2 x two!; 3 - -; 4 - -; 5 - -; 6 - -; 7 - -; y=one;x=two;y=one;x=two; -1",
    ),
    // Numbers that are bound again.
    (
        &[("x", 2, "two")],
        &[("z", 3, "first"), ("y", 1, "own"), ("z", 3, "three")],
        "0 - -; 1 y own!; 2 x two; 3 z three!; 4 - -; 5 - -; 6 - -; 7 - -; y=own;z=three;y=own;z=three; 1\n\
        0 - -; 1 - -; 2 x two!; 3 - -; 4 - -; 5 - -; 6 - -; 7 - -; x=two;x=two; -1",
    ),
    // Bound in any order, and iterated in increasing order.
    (
        &[
            ("x", 5, "five"),
            ("y", 1, "first"),
            ("z", 3, "three"),
            ("y", 1, "second"),
        ],
        &[],
        "0 - -; 1 y second; 2 - -; 3 z three; 4 - -; 5 x five; 6 - -; 7 - -;  1\n\
        0 - -; 1 y second!; 2 - -; 3 z three!; 4 - -; 5 x five!; 6 - -; 7 - -; y=second;z=three;x=five;y=second;z=three;x=five; -1",
    ),
    // Looked up between and next to the numbers that the parent binds.
    (
        &[
            ("o", 6, "outer"),
            ("o", 2, "outer"),
            ("o", 1, "outer"),
            ("o", 0, "outer"),
        ],
        &[
            ("x", 5, "five"),
            ("y", 1, "first"),
            ("z", 3, "three"),
            ("y", 1, "second"),
        ],
        "0 o outer; 1 y second!; 2 o outer; 3 z three!; 4 - -; 5 x five!; 6 o outer; 7 - -; y=second;z=three;x=five;y=second;z=three;x=five; 1\n\
        0 o outer!; 1 o outer!; 2 o outer!; 3 - -; 4 - -; 5 - -; 6 o outer!; 7 - -; o=outer;o=outer;o=outer;o=outer;o=outer;o=outer;o=outer;o=outer; -1",
    ),
];

#[test]
fn child_binds_its_own(rt: HostRuntime) {
    are_reported(&rt, rt.alloc(), CONSTANTS, (&[], &[], REPORTED_CONSTANTS));
    for scopes in SCOPES {
        are_reported(&rt, rt.alloc(), &[], *scopes);
    }
}

// The reports on a child of a root of these constants, and then on its parent, are as expected, on a line each.
fn are_reported(
    rt: &impl Abort,
    alloc: Global,
    constants: &[(&'static str, &'static str)],
    (outer, own, wanted): (Bound, Bound, &str),
) {
    let mut root = Scope::root(alloc, constants).expect(rt, "no memory");
    bind_all(&mut root, rt, alloc, outer);
    let mut reported = String::new(alloc);
    report_child(&root, rt, alloc, own, &mut reported);
    drop(root);
    reports(rt, reported, wanted);
}

fn report_child(root: &Scope, rt: &impl Abort, alloc: Global, own: Bound, reported: &mut String) {
    let mut child = root.child(alloc).expect(rt, "no memory");
    bind_all(&mut child, rt, alloc, own);
    report(&child, rt, alloc, reported);
    reported.push('\n').expect(rt, "no memory");
    report(child.parent().expect(rt, "no parent"), rt, alloc, reported);
    drop(child);
}
