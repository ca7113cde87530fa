// Whether recipes and lines are resolved in their frames.

use crate::compared::equal;
use crate::recipes::around::{Around, expressions_of};
use crate::recipes::called::Called;
use crate::recipes::lines::{interpolated, line_of};
use crate::recipes::parameters::{add_attributes, add_parameters};
use bumpalo::Bump;
use just_case_reader::line::{Line as CaseLine, parse_lines};
use just_case_reader::token::name;
use just_eval::resolved_here;
use just_host::execution_context::ExecutionContext;
use just_syntax::line::Line;
use just_syntax::number::Number;
use just_value::binding::Binding;
use just_value::scope::Scope;
use just_value::value::Value;
use std::alloc::Global;
use std::process::Abort;

// A case and parameters, as in the table of parameters; the pieces of a line, as in the table of lines; the numbers
// that the module's scope binds, and those that the recipe's own frame binds, each a digit; and whether all is
// resolved. The recipe's frame is put on the module's scope or, after `/`, on nothing.
type Row = (
    &'static str,
    &'static str,
    &'static str,
    &'static str,
    &'static str,
    bool,
);

const ROWS: &[Row] = &[
    ("run", "p", "", "", "", true),
    // Two variables have the same number: a parameter of the recipe and an assignment, or a parameter of a function;
    // parameters of two functions; a parameter of a function and an assignment.
    ("str x\nassign a\nrun", "p", "", "", "", false),
    ("only p\nstr x\nassign a\nrun", "p", "", "", "", true),
    ("var n\nfun f n\nrun", "p", "", "", "", false),
    ("only p\nvar n\nfun f n\nrun", "p", "", "", "", true),
    (
        "only p\nvar n\nfun f n\nvar n\nfun g n\nrun",
        "p",
        "",
        "",
        "",
        false,
    ),
    (
        "only p\nvar n\nfun f n\nstr x\nassign n\nrun",
        "p",
        "",
        "",
        "",
        false,
    ),
    // A parameter of the recipe or of a function is bound outside: in the module's scope or in the recipe's frame.
    ("run", "p", "", "0", "", false),
    ("run", "p", "", "", "0", false),
    ("run", "p", "", "0", "/", false),
    ("run", "p", "", "12", "34", true),
    ("only p\nvar n\nfun f n\nrun", "p", "", "1", "", false),
    ("only p\nvar n\nfun f n\nrun", "p", "", "", "1", false),
    // A variable has no number.
    ("run", "p", "~?", "", "", false),
    // A call has a number of arguments that its name does not take.
    (
        "only p\ncall trim 0\nassign d-p\nrun",
        "p",
        "",
        "",
        "",
        false,
    ),
    (
        "only p\nstr x\ncall trim 1\nassign d-p\nrun",
        "p",
        "",
        "",
        "",
        true,
    ),
    (
        "only p\nstr x\nfun f\nstr y\ncall f 1\nassign e-1\nstr K\nassign k-1\nrun",
        "p",
        "",
        "",
        "",
        false,
    ),
    (
        "only p\nstr x\nfun f\ncall f 0\nassign e-1\nstr K\nassign k-1\nrun",
        "p",
        "",
        "",
        "",
        true,
    ),
    ("call shell 0\nassign a\nrun", "", "~@", "", "", false),
    // A called name is unknown. One that is left out is known.
    (
        "only p\ncall nope 0\nassign v-p\nrun",
        "p",
        "",
        "",
        "",
        false,
    ),
    (
        "only p\ncall uuid 0\nassign v-p\nrun",
        "p",
        "",
        "",
        "",
        true,
    ),
    ("call nope 0\nassign a\nrun", "", "~@", "", "", false),
    // A body is not known, even if nothing calls it.
    ("only p\ncall nope 0\nfun f\nrun", "p", "", "", "", false),
    ("only p\ncall trim 0\nfun f\nrun", "p", "", "", "", false),
    // What is read is bound nowhere: by a line, also in an argument, and by the key or the value of an attribute. An
    // assignment that is not bound does not count, nor does a parameter.
    ("only p z\nvar z\nassign a\nrun", "p", "~@", "", "", false),
    ("only p z\nvar z\nassign a\nrun", "p", "~@", "1", "", true),
    ("only p z\nvar z\nassign a\nrun", "p", "~@", "", "1", true),
    ("only p z\nvar z\nassign a\nrun", "p", "~@", "1", "/", false),
    ("only p z\nvar z\nassign d-p\nrun", "p", "", "1", "/", false),
    ("only p z\nvar z\nassign d-p\nrun", "p", "", "", "/1", true),
    (
        "only p z\nvar z\ncall trim 1\nassign a\nrun",
        "p",
        "~x~@",
        "",
        "",
        false,
    ),
    (
        "only p\nvar z\nassign a\nstr x\nassign z\nrun",
        "p",
        "~@",
        "",
        "",
        false,
    ),
    ("only p\nvar p\nassign a\nrun", "p", "~@", "", "", false),
    (
        "only p\nstr K\nassign k-1\nvar p\nassign e-1\nrun",
        "p",
        "",
        "",
        "",
        false,
    ),
    (
        "only p\nvar p\nassign k-1\nstr x\nassign e-1\nrun",
        "p",
        "",
        "",
        "",
        false,
    ),
    // A default or a value reads its own parameter, or a later one.
    ("only p\nvar p\nassign d-p\nrun", "p", "", "", "", false),
    ("only p\nvar p\nassign v-p\nrun", "p", "", "", "", false),
    ("only p q\nvar q\nassign d-p\nrun", "p q", "", "", "", false),
    ("only p q\nvar q\nassign v-p\nrun", "p q", "", "", "", false),
    ("only p q\nvar p\nassign d-q\nrun", "p q", "", "", "", true),
    ("only p q\nvar p\nassign v-q\nrun", "p q", "", "", "", true),
    // A called body reads what the module's scope does not bind, though the recipe's frame does or a parameter is
    // earlier; or it reads another function's parameter.
    (
        "only p z\nvar z\nfun g\ncall g 0\nassign d-p\nrun",
        "p",
        "",
        "",
        "",
        false,
    ),
    (
        "only p z\nvar z\nfun g\ncall g 0\nassign d-p\nrun",
        "p",
        "",
        "",
        "1",
        false,
    ),
    (
        "only p z\nvar z\nfun g\ncall g 0\nassign d-p\nrun",
        "p",
        "",
        "1",
        "",
        true,
    ),
    (
        "only p z\nvar z\nfun g\ncall g 0\nfun f\ncall f 0\nassign a\nrun",
        "p",
        "~@",
        "",
        "1",
        false,
    ),
    (
        "only p z\nvar z\nfun g\ncall g 0\nfun f\ncall f 0\nassign a\nrun",
        "p",
        "~@",
        "1",
        "",
        true,
    ),
    (
        "only p q\nvar p\nfun g\ncall g 0\nassign d-q\nrun",
        "p q",
        "",
        "",
        "",
        false,
    ),
    (
        "only p n\nvar n\nfun g\ncall g 0\nfun f n\nstr x\ncall f 1\nassign d-p\nrun",
        "p",
        "",
        "",
        "",
        false,
    ),
    (
        "only p n\nvar n\nfun f n\nstr x\ncall f 1\nassign d-p\nrun",
        "p",
        "",
        "",
        "",
        true,
    ),
    // What a body reads does not count if nothing calls it.
    ("only p z\nvar z\nfun g\nrun", "p", "", "", "", true),
];

#[test]
fn resolved_or_not(rt: HostRuntime) {
    for row in ROWS {
        let (case, _, _, _, _, _) = *row;
        let arena = Bump::new(rt.alloc());
        let lines = parse_lines(rt.alloc(), &arena, case.as_bytes()).expect(&rt, "no memory");
        is_as_reported(&rt, rt.alloc(), &lines, row);
        drop(lines);
    }
}

fn is_as_reported<'src>(rt: &impl Abort, alloc: Global, lines: &'src [CaseLine<'src>], row: &Row) {
    let (_, parameters, pieces, base, _, _) = *row;
    let mut around = Around::of_lines(rt, alloc, lines);
    bind_all(&mut around.scope, rt, alloc, base);
    let mut called = Called::new(alloc);
    add_parameters(&mut called, rt, alloc, parameters, lines);
    add_attributes(&mut called, rt, alloc, lines);
    let line = line_of(rt, alloc, expressions_of(rt, alloc, lines), pieces);
    is_so_in(&around.context(), rt, alloc, &called, &line, row);
    drop(line);
    drop(called);
    drop(around);
}

// Whether a recipe and a line are resolved, as expected, in a frame of their own that binds the row's numbers.
fn is_so_in<'src>(
    context: &ExecutionContext<'src, '_>,
    rt: &impl Abort,
    alloc: Global,
    called: &Called<'src>,
    line: &Line<'src>,
    row: &Row,
) {
    let (case, _, _, _, frame, wanted) = *row;
    let mut scope = frame_on(context, rt, alloc, frame);
    bind_all(&mut scope, rt, alloc, frame.trim_start_matches('/'));
    let given = resolved_here(
        alloc,
        context,
        &scope,
        Some(&called.recipe),
        &called.parameters,
        interpolated(rt, alloc, line),
    );
    drop(scope);
    equal(rt, case, given.expect(rt, "no memory"), wanted);
}

// A frame on the module's scope or, if its bindings begin with `/`, on nothing.
fn frame_on<'src, 'run>(
    context: &ExecutionContext<'src, 'run>,
    rt: &impl Abort,
    alloc: Global,
    frame: &str,
) -> Scope<'src, 'run> {
    if frame.starts_with('/') {
        return Scope::root(alloc, &[]).expect(rt, "no memory");
    }
    context.scope.child(alloc).expect(rt, "no memory")
}

// Binds each of these numbers, a digit each, to no element.
fn bind_all<'src>(scope: &mut Scope<'src, '_>, rt: &impl Abort, alloc: Global, digits: &str) {
    for digit in digits.bytes() {
        bind(scope, rt, alloc, u64::from(digit.saturating_sub(b'0')));
    }
}

fn bind<'src>(scope: &mut Scope<'src, '_>, rt: &impl Abort, alloc: Global, number: u64) {
    let binding = Binding::new(alloc, name("bound"), Number::new(number), Value::new(alloc));
    scope.bind(binding).expect(rt, "no memory");
}
