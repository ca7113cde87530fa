// What is needed for some names, and what occurs in an expression.

use crate::texts::{number_of, numbered_module, push};
use just_host::justfile::Justfile;
use just_needs::needed::needed;
use just_needs::references::references;
use just_syntax::number::Number;
use just_value::scope::Scope;
use std::alloc::Global;
use std::collections::{HashMap, HashSet};
use std::process::Abort;

// A text; the numbers of its names; the numbers that are overridden; the names that are asked for; and the numbers that
// are needed, or the message. The scope outside binds 0.
type Row = (
    &'static str,
    &'static str,
    &'static str,
    &'static str,
    &'static str,
);

const NUMBERS: &str = "k 0 a 1 b 2 c 3 d 4 e 5 x 7 p 9";

const CHAIN: &str = "a := b\nb := c\nc := ''\nd := ''\n";

const SHORT_CHAIN: &str = "a := b\nb := c\nc := ''\n";

const BOTH_CALL: &str = "a := f()\nb := f()\nc := ''\nf() := c\n";

const BOUND: &str = "a := k\nk := b\nb := ''\n";

// `a` and `b` have one number.
const TWICE: &str = "a := d\nb := c\nc := ''\nd := ''\n";

const NUMBERS_OF_TWICE: &str = "a 1 b 1 c 2 d 3";

const ROWS: &[Row] = &[
    ("", NUMBERS, "", "", ""),
    ("a := b\nb := ''\n", NUMBERS, "", "", ""),
    // a chain, from its middle and from its beginning; `d` is not a part of it
    (CHAIN, NUMBERS, "", "b", "2 3"),
    (CHAIN, NUMBERS, "", "a", "1 2 3"),
    (CHAIN, NUMBERS, "", "d b", "2 3 4"),
    // a diamond below `e`
    (
        "a := ''\nb := a\nc := a\nd := [b, c]\ne := d\n",
        NUMBERS,
        "",
        "d",
        "1 2 3 4",
    ),
    // variables that read each other
    ("a := b\nb := a\nc := a\n", NUMBERS, "", "a", "1 2"),
    // a name twice
    ("a := b\nb := ''\nc := ''\n", NUMBERS, "", "a a", "1 2"),
    // a function that calls itself, one that calls another, and one that the file does not define
    (
        "a := f()\nb := ''\nc := ''\nf() := [b, f()]\n",
        NUMBERS,
        "",
        "a",
        "1 2",
    ),
    (
        "a := f()\nb := ''\nc := ''\nf() := g()\ng() := [f(), c]\n",
        NUMBERS,
        "",
        "a",
        "1 3",
    ),
    (
        "a := [uuid(), b]\nb := ''\nf() := c\n",
        NUMBERS,
        "",
        "a",
        "1 2",
    ),
    ("a := ''\nb := ''\nf() := b\n", NUMBERS, "", "a", "1"),
    // a parameter's number is not read beyond its function, also if it is a variable's
    (
        "a := f()\nb := ''\nf(p) := [p, b]\n",
        NUMBERS,
        "",
        "a",
        "1 2",
    ),
    (
        "a := f()\nb := ''\nc := ''\nf(c) := [c, b]\n",
        NUMBERS,
        "",
        "a",
        "1 2",
    ),
    (
        "a := f()\nb := ''\nc := ''\nf(c) := g()\ng() := c\n",
        NUMBERS,
        "",
        "a",
        "1 3",
    ),
    // a number that is bound outside: it is not followed, unless it is asked for
    (BOUND, NUMBERS, "", "a", "1"),
    (BOUND, NUMBERS, "", "k", "0 2"),
    // a number that no assignment has, and one that two have
    ("a := x\n", NUMBERS, "", "a", "1"),
    (TWICE, NUMBERS_OF_TWICE, "", "a", "1 2 3"),
    // unknown names
    (
        "a := ''\n",
        NUMBERS,
        "",
        "x a",
        "variable `x` is not assigned",
    ),
    (
        "a := ''\nf() := a\n",
        NUMBERS,
        "",
        "a f x",
        "variable `f` is not assigned",
    ),
    // an overridden variable reads nothing, also if it is asked for; what else reads it reads on
    (SHORT_CHAIN, NUMBERS, "2", "a", "1 2"),
    (SHORT_CHAIN, NUMBERS, "2", "b", "2"),
    ("a := [b, c]\nb := c\nc := ''\n", NUMBERS, "2", "a", "1 2 3"),
    (BOTH_CALL, NUMBERS, "1", "a", "1"),
    (BOTH_CALL, NUMBERS, "1", "a b", "1 2 3"),
    (TWICE, NUMBERS_OF_TWICE, "1", "a", "1"),
    ("a := ''\nb := a\n", NUMBERS, "9", "b", "1 2"),
];

#[test]
fn needed_for_names(rt: HostRuntime) {
    let alloc = rt.alloc();
    for (text, numbers, overridden, names, wanted) in ROWS {
        let given = given(&rt, alloc, text, numbers, overridden, names);
        assert_eq!(rt;
            given.as_str(),
            *wanted,
            "{names} of {text} without {overridden}"
        );
    }
}

// The numbers that are needed for some names, or the message.
fn given<'src>(
    rt: &impl Abort,
    alloc: Global,
    text: &'src str,
    numbers: &'src str,
    overridden: &str,
    names: &str,
) -> String {
    let outer = Scope::root(alloc, &[("HEX", "0123456789abcdef")]).expect(rt, "no memory");
    let module = numbered_module(rt, alloc, text, numbers);
    let overrides = overrides_of(rt, alloc, overridden);
    let given = needed_in(&module, &outer, rt, alloc, &overrides, names);
    drop(module);
    drop(outer);
    given
}

// Each of these numbers with a text.
fn overrides_of(rt: &impl Abort, alloc: Global, numbers: &str) -> HashMap<Number, String> {
    let mut overrides = HashMap::new(alloc);
    for number in numbers.split_whitespace() {
        let added: Result<_, _> = overrides.insert(number_of(rt, number), String::new(alloc));
        added.expect(rt, "no memory");
    }
    overrides
}

// The numbers that are needed for some names of a module, or the message.
fn needed_in<'src>(
    module: &Justfile<'src>,
    outer: &Scope<'src, '_>,
    rt: &impl Abort,
    alloc: Global,
    overrides: &HashMap<Number, String>,
    names: &str,
) -> String {
    let names = names.split_whitespace().collect::<Vec<&str>>(alloc);
    let names = names.expect(rt, "no memory");
    match needed(alloc, module, outer, overrides, &names) {
        Ok(set) => shown(rt, alloc, &set),
        Err(error) => error.to_string(alloc).expect(rt, "no memory"),
    }
}

// The numbers of a set, of which each is below 10, in ascending order.
fn shown(rt: &impl Abort, alloc: Global, set: &HashSet<Number>) -> String {
    let mut numbers = Vec::new(alloc);
    for number in 0..10u64 {
        if set.contains(&Number::new(number)) {
            let digit = format!(in alloc; "{number}").expect(rt, "no memory");
            push(rt, &mut numbers, digit);
        }
    }
    assert_eq!(rt; numbers.len(), set.len());
    numbers.join(alloc, " ").expect(rt, "no memory")
}

// `y` has no number.
#[test]
fn variables_of_an_expression(rt: HostRuntime) {
    let given = read_by(&rt, rt.alloc(), "all := f(c, a) && g(y) && c\n", "a 1 c 3");
    assert_eq!(rt; given.as_str(), "1 3");
}

// The numbers that the value of the variable `all` reads.
fn read_by<'src>(rt: &impl Abort, alloc: Global, text: &'src str, numbers: &'src str) -> String {
    let module = numbered_module(rt, alloc, text, numbers);
    let given = read(&module, rt, alloc);
    drop(module);
    given
}

fn read<'src>(module: &Justfile<'src>, rt: &impl Abort, alloc: Global) -> String {
    let all = module.assignments.get("all").expect(rt, "`all`");
    let set = references(alloc, &all.value).expect(rt, "no memory");
    shown(rt, alloc, &set)
}
