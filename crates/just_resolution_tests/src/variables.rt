// Overrides and references, given by the names of variables.

use crate::compared::{equal, reports};
use crate::modules::{Variable, assignments};
use crate::parts::{numbered, owned, prints, push};
use just_syntax::assignment::Assignment;
use just_syntax::number::Number;
use just_syntax::out_of_memory::OutOfMemory;
use just_syntax::table::Table;
use just_syntax::variable_error::VariableError::{self, Unknown};
use just_syntax::variables::{number_of, overrides_of, references_of, set_of};
use std::alloc::Global;
use std::collections::{HashMap, HashSet};
use std::process::Abort;

// Variables and their numbers.
const VARIABLES: &[Variable] = &[("b", 2, &[]), ("c", 9, &[]), ("a", 4, &[])];

// Names, and the numbers of the variables that they denote.
const NUMBERS: &[(&str, Option<u64>)] = &[
    ("a", Some(4)),
    ("b", Some(2)),
    ("c", Some(9)),
    ("d", None),
    ("", None),
];

// The overrides from pairs: those of `a` and of `b`, and the number of variables overridden; or the first name that no
// assignment has.
type Overridden<'a> = Result<(Option<&'a str>, Option<&'a str>, usize), VariableError<'a>>;

// Pairs of a name and a text, and the overrides from them.
const OVERRIDES: &[(&[(&str, &str)], Overridden)] = &[
    (&[], Ok((None, None, 0))),
    (&[("a", "x")], Ok((Some("x"), None, 1))),
    (
        &[("a", "x"), ("b", ""), ("a", "z=1")],
        Ok((Some("z=1"), Some(""), 2)),
    ),
    (&[("d", "x")], Err(Unknown("d"))),
    (&[("a", "x"), ("e", "y"), ("d", "z")], Err(Unknown("e"))),
    (&[("", "x")], Err(Unknown(""))),
];

// The references from names: whether `a`, `b` and `c` are among them, and how many there are; or the first name that no
// assignment has.
type Referenced<'a> = Result<(bool, bool, bool, usize), VariableError<'a>>;

const REFERENCES: &[(&[&str], Referenced)] = &[
    (&[], Ok((false, false, false, 0))),
    (&["c", "b", "c"], Ok((false, true, true, 2))),
    (&["a", "x", "y"], Err(Unknown("x"))),
];

#[test]
fn variables_by_name(rt: HostRuntime) {
    let assignments = assignments(&rt, rt.alloc(), VARIABLES);
    are_named(&assignments, &rt, rt.alloc());
    drop(assignments);
}

fn are_named(assignments: &Table<Assignment>, rt: &impl Abort, alloc: Global) {
    for (name, number) in NUMBERS {
        equal(rt, name, number_of(assignments, name), numbered(*number));
    }
    for (names, wanted) in REFERENCES {
        refer(assignments, rt, alloc, names, *wanted);
    }
    for (pairs, wanted) in OVERRIDES {
        are_overridden(assignments, rt, alloc, pairs, *wanted);
    }
}

// The references from names are as expected.
fn refer(
    assignments: &Table<Assignment>,
    rt: &impl Abort,
    alloc: Global,
    names: &[&str],
    wanted: Referenced,
) {
    let references = references_of(alloc, assignments, names);
    let given = match &references {
        Ok(set) => Ok((has(set, 4), has(set, 2), has(set, 9), set.len())),
        Err(error) => Err(*error),
    };
    equal(rt, "references", given, wanted);
    drop(references);
}

// The overrides from pairs are as expected.
fn are_overridden(
    assignments: &Table<Assignment>,
    rt: &impl Abort,
    alloc: Global,
    all: &[(&str, &str)],
    wanted: Overridden,
) {
    let pairs = pairs(rt, alloc, all);
    let overrides = overrides_of(alloc, assignments, &pairs);
    let given = match &overrides {
        Ok(map) => Ok((text_of(map, 4), text_of(map, 2), map.len())),
        Err(error) => Err(*error),
    };
    equal(rt, "overrides", given, wanted);
    drop(overrides);
    drop(pairs);
}

// A copy of the pairs.
pub(crate) fn pairs(rt: &impl Abort, alloc: Global, all: &[(&str, &str)]) -> Vec<(String, String)> {
    let mut pairs = Vec::new(alloc);
    for (name, text) in all {
        push(
            rt,
            &mut pairs,
            (owned(rt, alloc, name), owned(rt, alloc, text)),
        );
    }
    pairs
}

// The override of a variable, if there is one.
pub(crate) fn text_of(overrides: &HashMap<Number, String>, number: u64) -> Option<&str> {
    match overrides.get(&Number::new(number)) {
        Some(text) => Some(text.as_str()),
        None => None,
    }
}

pub(crate) fn has(set: &HashSet<Number>, number: u64) -> bool {
    set.contains(&Number::new(number))
}

#[test]
fn sets_of_numbers(rt: HostRuntime) {
    let numbers = [Number::new(3), Number::new(1), Number::new(3)];
    let set = set_of(rt.alloc(), &numbers).expect(&rt, "no memory");
    let found = (has(&set, 1), has(&set, 2), has(&set, 3), set.len());
    equal(&rt, "numbers", found, (true, false, true, 2));
}

// Errors, and how each is written, by itself and with a width.
const ERRORS: &[(VariableError, &str)] = &[
    (
        Unknown("x"),
        "variable `x` is not assigned|variable `x` is not assigned",
    ),
    (VariableError::OutOfMemory, "out of memory|out of memory"),
];

#[test]
fn variable_errors_say(rt: HostRuntime) {
    let alloc = rt.alloc();
    for (error, text) in ERRORS {
        let reported = format!(in alloc; "{error}|{error:30}").expect(&rt, "no memory");
        reports(&rt, reported, text);
    }
    prints(&rt, alloc, &OutOfMemory, "out of memory");
    let error = VariableError::from(OutOfMemory);
    equal(&rt, "error", error, VariableError::OutOfMemory);
}
