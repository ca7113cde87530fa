// Why modules are not resolved: the message and the place of each fault.

use crate::compared::equal;
use crate::modules::Part::{Call, Read, Unnumbered};
use crate::modules::{Function, OUTER, Variable, name_at};
use crate::parts::{name, prints};
use crate::resolution::{Group, expect_all};
use just_resolution::fault::Fault;

// A fault in short: assignments, functions and parameters by name, and parts of an expression by index.
#[derive(Clone, Copy)]
pub(crate) enum Short<'a> {
    // A parameter that is bound outside.
    Bound(&'a str),
    // A variable with the number of another.
    Duplicate(&'a str),
    // A call of this name, at this index, and the number of its arguments.
    Miscounted(&'a str, usize, usize),
    // A call of this name, at this index, which nothing defines.
    Uncallable(&'a str, usize),
    // A variable without a number, at this index.
    Undefined(usize),
    // A name of the order that is no assignment's.
    Unknown(&'a str),
    // An assignment, and the index of the variable that it reads too early.
    Untaken(&'a str, usize),
}

use Short::{Bound, Duplicate, Miscounted, Uncallable, Undefined, Unknown, Untaken};

pub(crate) fn in_full(short: Short<'_>) -> Fault<'_> {
    match short {
        Bound(lexeme) => Fault::BoundParameter {
            parameter: name(lexeme),
        },
        Duplicate(lexeme) => Fault::DuplicateNumber {
            variable: name(lexeme),
        },
        Miscounted(lexeme, offset, found) => Fault::ArgumentCountMismatch {
            function: name_at(lexeme, offset),
            found,
        },
        Uncallable(lexeme, offset) => Fault::UndefinedFunction {
            function: name_at(lexeme, offset),
        },
        Undefined(offset) => Fault::UndefinedVariable {
            variable: name_at("v", offset),
        },
        Unknown(lexeme) => Fault::UnknownAssignment {
            assignment: name(lexeme),
        },
        Untaken(lexeme, offset) => Fault::UntakenVariable {
            assignment: name(lexeme),
            variable: name_at("v", offset),
        },
    }
}

// Faults, and the message, the name and the offset of each.
const SAID: &[(Short, &str, &str, usize)] = &[
    (
        Miscounted("f", 3, 2),
        "function `f` called with a wrong number of arguments",
        "f",
        3,
    ),
    (
        Bound("v"),
        "parameter `v` has a number that is bound outside",
        "v",
        7,
    ),
    (
        Duplicate("v"),
        "variable `v` has the number of another variable",
        "v",
        7,
    ),
    (Uncallable("f", 3), "unknown function `f`", "f", 3),
    (
        Undefined(5),
        "attempted to evaluate unresolved variable `v`",
        "v",
        5,
    ),
    (Unknown("a"), "unknown assignment `a`", "a", 7),
    (
        Untaken("a", 5),
        "attempted to evaluate unevaluated variable `v`",
        "v",
        5,
    ),
];

#[test]
fn faults_say(rt: HostRuntime) {
    for (short, text, lexeme, offset) in SAID {
        let fault = in_full(*short);
        prints(&rt, rt.alloc(), &fault, text);
        equal(&rt, text, fault.token(), name_at(lexeme, *offset).token);
    }
}

const ONE_PARAMETER: &[Function] = &[("f", &[9], &[])];

const PLAIN: &[Variable] = &[("a", 1, &[]), ("b", 2, &[])];

const SAME_NUMBER: &[Variable] = &[("a", 1, &[]), ("b", 1, &[])];

const OF_ASSIGNMENT: &[Function] = &[("f", &[2], &[])];

const OF_PARAMETER: &[Function] = &[("f", &[8], &[]), ("g", &[9, 8], &[])];

const BOUND: &[Function] = &[("f", &[9, OUTER], &[])];

const UNNUMBERED_BODY: &[Function] = &[("f", &[9], &[Read(9), Unnumbered])];

const KNOWN: &[Variable] = &[("a", 1, &[Call("f", &[OUTER]), Call("sha256", &[])])];

const UNNUMBERED: &[Variable] = &[("a", 1, &[Read(OUTER), Unnumbered, Call("nope", &[])])];

const UNKNOWN: &[Variable] = &[("a", 1, &[Call("nope", &[]), Unnumbered])];

const MISCOUNTED: &[Variable] = &[("a", 1, &[Call("f", &[OUTER, OUTER])])];

const BUILT_IN: &[Variable] = &[("a", 1, &[]), ("b", 2, &[Read(1), Call("len", &[])])];

const READS_SECOND: &[Function] = &[
    ("f", &[9], &[Read(9), Call("g", &[])]),
    ("g", &[], &[Read(OUTER), Read(2)]),
];

const READERS: &[Variable] = &[
    ("a", 1, &[Call("f", &[OUTER])]),
    ("b", 2, &[]),
    ("c", 3, &[Read(OUTER), Read(2), Read(1)]),
    ("d", 4, &[Call("g", &[]), Read(1)]),
];

const BOUND_AND_UNNUMBERED: &[Function] = &[("f", &[OUTER], &[Unnumbered])];

const UNNUMBERED_ALONE: &[Function] = &[("f", &[9], &[Unnumbered])];

const TWICE: &[Variable] = &[("a", 1, &[Unnumbered]), ("b", 1, &[Read(3)])];

const UNKNOWN_AND_EARLY: &[Variable] = &[("a", 1, &[Call("nope", &[])]), ("b", 2, &[Read(3)])];

const EARLY: &[Variable] = &[("a", 1, &[]), ("b", 2, &[Read(3)])];

// Numbers that occur twice or are bound outside.
const NUMBERS: &[Group] = &[
    (&[], PLAIN, &[(&["a", "b"], None, None, None)]),
    (
        &[],
        SAME_NUMBER,
        &[(&["a", "b"], None, Some(Duplicate("b")), None)],
    ),
    (
        OF_ASSIGNMENT,
        PLAIN,
        &[(&["a", "b"], None, Some(Duplicate("p")), None)],
    ),
    (
        OF_PARAMETER,
        PLAIN,
        &[(&["a", "b"], None, Some(Duplicate("p")), None)],
    ),
    (BOUND, PLAIN, &[(&["a", "b"], None, Some(Bound("p")), None)]),
    (
        BOUND,
        SAME_NUMBER,
        &[(&["a", "b"], None, Some(Duplicate("b")), None)],
    ),
];

// Variables without a number, and calls that their names do not take.
const CALLS: &[Group] = &[
    (ONE_PARAMETER, KNOWN, &[(&[], None, None, None)]),
    (
        ONE_PARAMETER,
        UNNUMBERED,
        &[(&[], None, Some(Undefined(1)), None)],
    ),
    (
        ONE_PARAMETER,
        UNKNOWN,
        &[(&[], None, Some(Uncallable("nope", 0)), None)],
    ),
    (
        ONE_PARAMETER,
        MISCOUNTED,
        &[(&[], None, Some(Miscounted("f", 0, 2)), None)],
    ),
    (
        ONE_PARAMETER,
        BUILT_IN,
        &[(&[], None, Some(Miscounted("len", 1, 0)), None)],
    ),
    (
        UNNUMBERED_BODY,
        KNOWN,
        &[(&[], None, Some(Undefined(1)), None)],
    ),
    (
        UNNUMBERED_BODY,
        BUILT_IN,
        &[(&[], None, Some(Miscounted("len", 1, 0)), None)],
    ),
];

// Names of an order that are no assignments', and variables that are read too early.
const ORDERS: &[Group] = &[(
    READS_SECOND,
    READERS,
    &[
        (&["b", "a", "c", "d"], None, None, None),
        (&["b", "e", "c"], None, Some(Unknown("e")), None),
        (&["b", "c", "e"], None, Some(Untaken("c", 2)), None),
        (&["c", "b"], None, Some(Untaken("c", 1)), None),
        // In the body of a reached function, unless the assignment itself reads something too early.
        (&["a", "b"], None, Some(Untaken("a", 1)), None),
        (&["d", "b"], None, Some(Untaken("d", 1)), None),
        // What is not referenced is not taken, and may read anything.
        (&["a", "b"], Some(&[2]), None, Some(true)),
        (&["b", "d"], Some(&[4]), Some(Untaken("d", 1)), Some(false)),
        (&["e"], Some(&[2]), Some(Unknown("e")), Some(false)),
    ],
)];

// Several faults: the first in the order in which they are searched for.
const SEVERAL: &[Group] = &[
    (
        BOUND_AND_UNNUMBERED,
        TWICE,
        &[(&["a", "b", "c"], None, Some(Duplicate("b")), None)],
    ),
    (
        BOUND_AND_UNNUMBERED,
        UNKNOWN_AND_EARLY,
        &[(&["a", "b", "c"], None, Some(Bound("p")), None)],
    ),
    (
        UNNUMBERED_ALONE,
        UNKNOWN_AND_EARLY,
        &[(&["a", "b", "c"], None, Some(Uncallable("nope", 0)), None)],
    ),
    (
        UNNUMBERED_ALONE,
        EARLY,
        &[(&["a", "b", "c"], None, Some(Undefined(0)), None)],
    ),
    (
        ONE_PARAMETER,
        EARLY,
        &[(&["a", "b", "c"], None, Some(Untaken("b", 0)), None)],
    ),
];

#[test]
fn first_faults(rt: HostRuntime) {
    for groups in [NUMBERS, CALLS, ORDERS, SEVERAL] {
        expect_all(&rt, rt.alloc(), groups);
    }
}
