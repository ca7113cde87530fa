// All reasons why a module cannot be resolved by its names.

use super::SEVENS;
use crate::texts::numbered_module;
use just_host::justfile::Justfile;
use just_resolve::name_faults::name_faults;
use just_value::scope::Scope;
use std::alloc::Global;
use std::process::Abort;

// Texts, and the message of each fault on a line.
const ROWS: &[(&str, &str)] = &[
    ("", ""),
    ("b := a\na := f('')\nf(x) := x\n", ""),
    // each name that nothing has, and each call that does not fit, in the order of the assignments' names
    (
        "b := [y, a]\na := [x, z]\n",
        "attempted to evaluate unresolved variable `x`
attempted to evaluate unresolved variable `z`
attempted to evaluate unresolved variable `y`
",
    ),
    (
        "a := [f(), g('', '')]\ng(x) := [x, y]\n",
        "unknown function `f`
function `g` called with a wrong number of arguments
attempted to evaluate unresolved variable `y`
",
    ),
    // cycles: of two, of one, and through a function
    (
        "a := b\nb := a\n",
        "attempted to evaluate unevaluated variable `a`
",
    ),
    (
        "a := a\nb := x\n",
        "attempted to evaluate unresolved variable `x`
attempted to evaluate unevaluated variable `a`
",
    ),
    (
        "a := f()\nf() := a\n",
        "attempted to evaluate unevaluated variable `a`
",
    ),
];

#[test]
fn all_faults(rt: HostRuntime) {
    let alloc = rt.alloc();
    for (text, wanted) in ROWS {
        for numbers in ["", SEVENS] {
            let given = given(&rt, alloc, text, numbers);
            assert_eq!(rt; given.as_str(), *wanted, "{text} and before {numbers}");
        }
    }
}

// The messages of a text with these numbers.
fn given<'src>(rt: &impl Abort, alloc: Global, text: &'src str, numbers: &'src str) -> String {
    let outer = Scope::root(alloc, &[]).expect(rt, "no memory");
    let module = numbered_module(rt, alloc, text, numbers);
    let given = messages(&module, &outer, rt, alloc);
    drop(module);
    drop(outer);
    given
}

// The message of each fault, on a line.
fn messages<'src>(
    module: &Justfile<'src>,
    outer: &Scope<'src, '_>,
    rt: &impl Abort,
    alloc: Global,
) -> String {
    let mut text = String::new(alloc);
    for fault in &name_faults(alloc, module, outer).expect(rt, "no memory") {
        writeln!(text, "{fault}").expect(rt, "no memory");
    }
    text
}
