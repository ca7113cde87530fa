// Resolved and unresolved modules, as decided by `resolved`, `first_fault` and `resolved_const`.

use crate::compared::{equal, is_so};
use crate::faults::Short::{
    self, Bound, Duplicate, Miscounted, Uncallable, Undefined, Unknown, Untaken,
};
use crate::faults::in_full;
use crate::modules::Part::{Call, Read, Unnumbered};
use crate::modules::{Function, OUTER, Variable, module, references};
use crate::scope::bind;
use just_host::justfile::Justfile;
use just_resolution::fault::Fault;
use just_resolution::first_fault::first_fault;
use just_resolution::resolved::resolved;
use just_resolution::resolved_const::resolved_const;
use just_syntax::number::Number;
use just_value::scope::Scope;
use std::alloc::Global;
use std::collections::HashSet;
use std::process::Abort;

// An order; the referenced numbers, or `None` for all; the first fault of a module with this order, if it is not
// resolved; and whether its assignments are resolved before any run, or `None` if that is not tested, because each
// number is referenced.
type Case<'a> = (
    &'a [&'a str],
    Option<&'a [u64]>,
    Option<Short<'a>>,
    Option<bool>,
);

// Functions and assignments, and the expected answers for a module of them in several cases.
pub(crate) type Group<'a> = (&'a [Function<'a>], &'a [Variable<'a>], &'a [Case<'a>]);

// The modules of these groups are resolved as expected. They are below a scope that is below another.
pub(crate) fn expect_all<'a>(rt: &impl Abort, alloc: Global, groups: &[Group<'a>]) {
    let mut outer = Scope::root(alloc, &[]).expect(rt, "no memory");
    bind(&mut outer, rt, alloc, "outer", OUTER, "");
    let parent = outer.child(alloc).expect(rt, "no memory");
    expect_below(&parent, rt, alloc, groups);
    drop(parent);
    drop(outer);
}

fn expect_below<'a>(parent: &Scope<'a, '_>, rt: &impl Abort, alloc: Global, groups: &[Group<'a>]) {
    for (functions, variables, cases) in groups {
        for case in *cases {
            let module = module(rt, alloc, &(functions, variables, case.0));
            answers(&module, rt, alloc, parent, case);
            drop(module);
        }
    }
}

fn answers<'a>(
    module: &Justfile<'a>,
    rt: &impl Abort,
    alloc: Global,
    parent: &Scope<'a, '_>,
    case: &Case<'a>,
) {
    let (order, referenced, short, before) = *case;
    let of = format!(in alloc; "{order:?} {referenced:?}").expect(rt, "no memory");
    match referenced {
        Some(numbers) => {
            let referenced = references(rt, alloc, numbers);
            same_before(module, rt, alloc, parent, &referenced, &of, before);
            same_fault(module, rt, alloc, parent, Some(&referenced), &of, short);
        }
        None => same_fault(module, rt, alloc, parent, None, &of, short),
    }
}

// The assignments of a module are resolved before any run, or not, as expected.
fn same_before<'a>(
    module: &Justfile<'a>,
    rt: &impl Abort,
    alloc: Global,
    parent: &Scope<'a, '_>,
    referenced: &HashSet<Number>,
    of: &str,
    wanted: Option<bool>,
) {
    let order = &module.evaluation_order;
    let given = resolved_const(alloc, &module.assignments, order, parent, Some(referenced));
    equal(rt, of, Some(given.expect(rt, "no memory")), wanted);
}

// A module has this fault or, with none given, is resolved.
fn same_fault<'a>(
    module: &Justfile<'a>,
    rt: &impl Abort,
    alloc: Global,
    parent: &Scope<'a, '_>,
    referenced: Option<&HashSet<Number>>,
    of: &str,
    wanted: Option<Short<'a>>,
) {
    let fault = first_fault(alloc, module, parent, referenced).expect(rt, "no memory");
    let is_resolved = resolved(alloc, module, parent, referenced).expect(rt, "no memory");
    is_so(rt, of, is_resolved == wanted.is_none());
    equal(rt, of, fault, fault_of(wanted));
}

fn fault_of(short: Option<Short<'_>>) -> Option<Fault<'_>> {
    Some(in_full(short?))
}

const IN_ORDER: &[&str] = &["a", "b"];

const BACKWARDS: &[&str] = &["b", "a"];

const BOTH: Option<&[u64]> = Some(&[1, 2]);

const CHAIN: &[Variable] = &[
    ("a", 1, &[Read(OUTER)]),
    ("b", 2, &[Read(1)]),
    ("c", 3, &[Read(2), Read(1)]),
];

const CYCLE: &[Variable] = &[("a", 1, &[Read(2)]), ("b", 2, &[Read(1)])];

const ITSELF: &[Variable] = &[("a", 1, &[Read(1)])];

const SAME_NUMBER: &[Variable] = &[("a", 1, &[]), ("b", 1, &[])];

const UNNUMBERED: &[Variable] = &[("a", 1, &[Unnumbered])];

const READS_FIRST: &[Function] = &[
    ("f", &[9], &[Read(9), Call("g", &[])]),
    ("g", &[], &[Read(1)]),
];

const FOREVER: &[Function] = &[("f", &[], &[Call("g", &[])]), ("g", &[], &[Call("f", &[])])];

const CALLERS: &[Function] = &[("f", &[9], &[Call("g", &[])]), ("g", &[], &[Read(9)])];

const BOUND: &[Function] = &[("f", &[OUTER], &[])];

const ONE_ARGUMENT: &[Variable] = &[("a", 1, &[]), ("b", 2, &[Call("f", &[1])])];

const NO_ARGUMENT: &[Variable] = &[("a", 1, &[]), ("b", 2, &[Call("f", &[])])];

const PLAIN: &[Variable] = &[("a", 1, &[])];

const READER: &[Function] = &[("f", &[], &[Read(1)])];

const READERS: &[Variable] = &[
    ("a", 1, &[]),
    ("b", 2, &[Read(1)]),
    ("c", 3, &[Call("f", &[])]),
];

const HIDDEN: &[Function] = &[("len", &[8, 9], &[])];

const LEN: &[Variable] = &[("a", 1, &[]), ("b", 2, &[Call("len", &[1])])];

const LEN_OF_TWO: &[Variable] = &[("a", 1, &[]), ("b", 2, &[Call("len", &[1, 1])])];

const OTHER_NAME: &[Variable] = &[("a", 1, &[]), ("b", 2, &[Call("justfile_dir", &[])])];

const SHELL_OF_THREE: &[Variable] = &[("a", 1, &[]), ("b", 2, &[Call("shell", &[1, 1, 1])])];

const SHELL_OF_NONE: &[Variable] = &[("a", 1, &[]), ("b", 2, &[Call("shell", &[])])];

const LEFT_OUT: &[Variable] = &[("a", 1, &[]), ("b", 2, &[Call("sha256", &[1, 1])])];

const NOPE: &[Variable] = &[("a", 1, &[]), ("b", 2, &[Call("nope", &[])])];

const READS_OUTER: &[Variable] = &[("a", 1, &[Read(OUTER)])];

const UNKNOWN: &[Variable] = &[("a", 1, &[Call("nope", &[OUTER])])];

const CALLED: &[Variable] = &[("a", 1, &[Call("len", &[2])]), ("b", 2, &[])];

const PAIR: &[Variable] = &[("a", 1, &[]), ("b", 2, &[Read(1)])];

const ORDERS: &[Group] = &[
    (
        &[],
        CHAIN,
        &[
            (&["a", "b", "c"], None, None, None),
            (&["a", "b", "a", "c", "b"], None, None, None),
            (&["a"], None, None, None),
            (&[], None, None, None),
            (&["b", "a", "c"], None, Some(Untaken("b", 0)), None),
            (&["a", "c", "b"], None, Some(Untaken("c", 0)), None),
            (&["a", "d"], None, Some(Unknown("d")), None),
        ],
    ),
    (
        &[],
        CYCLE,
        &[
            (IN_ORDER, None, Some(Untaken("a", 0)), None),
            (BACKWARDS, None, Some(Untaken("b", 0)), None),
        ],
    ),
    (
        &[],
        ITSELF,
        &[
            (&["a"], None, Some(Untaken("a", 0)), None),
            (&["a"], Some(&[1]), Some(Untaken("a", 0)), Some(false)),
        ],
    ),
    (
        &[],
        SAME_NUMBER,
        &[
            (&[], None, Some(Duplicate("b")), None),
            (&[], Some(&[]), Some(Duplicate("b")), Some(false)),
        ],
    ),
    (
        &[],
        UNNUMBERED,
        &[
            (&[], None, Some(Undefined(0)), None),
            // Each variable needs a number, even if nothing is taken.
            (&["a"], Some(&[1]), Some(Undefined(0)), Some(false)),
            (&["a"], Some(&[]), Some(Undefined(0)), Some(false)),
            (&[], Some(&[]), Some(Undefined(0)), Some(false)),
        ],
    ),
    // Functions and orders.
    (&[], PLAIN, &[(&["a"], None, None, None)]),
    (
        READS_FIRST,
        ONE_ARGUMENT,
        &[
            (IN_ORDER, None, None, None),
            (BACKWARDS, None, Some(Untaken("b", 0)), None),
        ],
    ),
    (
        READS_FIRST,
        NO_ARGUMENT,
        &[(IN_ORDER, None, Some(Miscounted("f", 0, 0)), None)],
    ),
    (
        &[],
        NO_ARGUMENT,
        &[(IN_ORDER, None, Some(Uncallable("f", 0)), None)],
    ),
    (FOREVER, NO_ARGUMENT, &[(IN_ORDER, None, None, None)]),
    (
        CALLERS,
        ONE_ARGUMENT,
        &[(IN_ORDER, None, Some(Untaken("b", 0)), None)],
    ),
    (BOUND, PLAIN, &[(&["a"], None, Some(Bound("p")), None)]),
];

#[test]
fn orders_and_functions(rt: HostRuntime) {
    expect_all(&rt, rt.alloc(), ORDERS);
}

// Calls of names that the file does not define, and of a built-in function's name that it defines.
const BUILT_IN_NAMES: &[Group] = &[
    (&[], LEN, &[(IN_ORDER, None, None, None)]),
    (
        &[],
        LEN_OF_TWO,
        &[(IN_ORDER, None, Some(Miscounted("len", 0, 2)), None)],
    ),
    (
        HIDDEN,
        LEN,
        &[(IN_ORDER, None, Some(Miscounted("len", 0, 1)), None)],
    ),
    (HIDDEN, LEN_OF_TWO, &[(IN_ORDER, None, None, None)]),
    (&[], OTHER_NAME, &[(IN_ORDER, None, None, None)]),
    (&[], SHELL_OF_THREE, &[(IN_ORDER, None, None, None)]),
    (
        &[],
        SHELL_OF_NONE,
        &[(IN_ORDER, None, Some(Miscounted("shell", 0, 0)), None)],
    ),
    (&[], LEFT_OUT, &[(IN_ORDER, None, None, None)]),
    (
        &[],
        NOPE,
        &[(IN_ORDER, None, Some(Uncallable("nope", 0)), None)],
    ),
];

#[test]
fn built_in_names(rt: HostRuntime) {
    expect_all(&rt, rt.alloc(), BUILT_IN_NAMES);
}

const REFERENCED: &[Group] = &[
    (
        READER,
        READERS,
        &[
            // What is not referenced may read what is not taken, by itself or through a function.
            (BACKWARDS, Some(&[1]), None, Some(true)),
            (BACKWARDS, BOTH, Some(Untaken("b", 0)), Some(false)),
            (BACKWARDS, Some(&[]), None, Some(true)),
            (&["c", "a"], Some(&[1]), None, Some(true)),
            // Before any run no function is entered.
            (
                &["c", "a"],
                Some(&[1, 3]),
                Some(Untaken("c", 0)),
                Some(true),
            ),
            // It is not taken, so what is referenced may not read it.
            (IN_ORDER, BOTH, None, Some(true)),
            (IN_ORDER, Some(&[2]), Some(Untaken("b", 0)), Some(false)),
            (&["a", "c"], Some(&[1, 3]), None, Some(true)),
            (&["a", "c"], Some(&[3]), Some(Untaken("c", 0)), Some(true)),
            // All other conditions apply to it too.
            (&["d"], Some(&[]), Some(Unknown("d")), Some(false)),
        ],
    ),
    (
        READER,
        UNNUMBERED,
        &[(&["a"], Some(&[]), Some(Undefined(0)), Some(false))],
    ),
    // Assignments before any run.
    (
        &[],
        &[],
        &[
            (&[], Some(&[]), None, Some(true)),
            (&["a"], Some(&[]), Some(Unknown("a")), Some(false)),
        ],
    ),
    (&[], READS_OUTER, &[(&["a"], Some(&[1]), None, Some(true))]),
    // There is no condition on called names; there are conditions on all of their arguments.
    (
        &[],
        UNKNOWN,
        &[(&["a"], Some(&[1]), Some(Uncallable("nope", 0)), Some(true))],
    ),
    (
        &[],
        CALLED,
        &[
            (BACKWARDS, BOTH, None, Some(true)),
            (IN_ORDER, BOTH, Some(Untaken("a", 0)), Some(false)),
        ],
    ),
    (
        &[],
        PAIR,
        &[
            (IN_ORDER, BOTH, None, Some(true)),
            (&["a", "b", "a"], BOTH, None, Some(true)),
            (BACKWARDS, BOTH, Some(Untaken("b", 0)), Some(false)),
            (BACKWARDS, Some(&[1]), None, Some(true)),
            (IN_ORDER, Some(&[2]), Some(Untaken("b", 0)), Some(false)),
            (&["a", "c"], BOTH, Some(Unknown("c")), Some(false)),
        ],
    ),
];

#[test]
fn referenced_assignments(rt: HostRuntime) {
    expect_all(&rt, rt.alloc(), REFERENCED);
}
