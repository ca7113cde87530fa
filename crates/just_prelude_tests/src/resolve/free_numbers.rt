// Numbers for names that a module does not have.

use super::bind;
use crate::texts::{numbered_module, push};
use just_host::justfile::Justfile;
use just_resolve::free_numbers::free_numbers;
use just_syntax::name::Name;
use just_syntax::number::Number;
use just_syntax::number_set::NumberSet;
use just_value::scope::Scope;
use std::alloc::Global;
use std::process::Abort;

const ABC: &str = "a := ''\nb := ''\nc := ''\n";

const AB: &str = "a := ''\nb := ''\n";

const FGH: &str = "a := ''\nf(x) := ''\ng() := ''\nh(y) := ''\n";

// Texts with the numbers of their names; what is bound outside, with its numbers; the names that are given numbers, and
// whether there are enough.
const ROWS: &[(&str, &str, &str, &str, bool)] = &[
    ("", "", "", "", true),
    ("", "", "", "p", true),
    ("", "", "", "p q r", true),
    // of two parameters with one name each gets a number
    ("", "", "", "p q p", true),
    (ABC, "a 0 b 1 c 2", "", "p q", true),
    (AB, "a 2 b 0", "", "p q r", true),
    (AB, "a 7 b 7", "", "", true),
    (
        "f(x, y) := ''\ng(z) := ''\n",
        "x 0 y 1 z 2",
        "",
        "p q",
        true,
    ),
    (FGH, "a 1 x 3 y 5", "", "p q r s", true),
    ("", "", "HEX 0 RED 2 DIR 3", "p q r", true),
    (
        "a := ''\nf(x) := ''\n",
        "a 4 x 5",
        "HEX 0 RED 6 DIR 8",
        "p q r",
        true,
    ),
    // the greatest number is bound outside: there are others
    ("a := ''\n", "a 4", "TOP 18446744073709551615", "p q", true),
    ("", "", "TOP 18446744073709551614", "p q", true),
    // the greatest numbers are taken
    ("a := ''\n", "a 18446744073709551613", "", "p", true),
    ("a := ''\n", "a 18446744073709551613", "", "p q", false),
    (
        "a := ''\n",
        "a 18446744073709551613",
        "TOP 18446744073709551614",
        "p",
        false,
    ),
    ("a := ''\n", "a 18446744073709551614", "", "p", false),
    (AB, "a 18446744073709551615 b 0", "", "p", false),
    (
        "a := ''\nf(x) := ''\n",
        "a 0 x 18446744073709551615",
        "",
        "p",
        false,
    ),
];

#[test]
fn numbers_of_names(rt: HostRuntime) {
    let alloc = rt.alloc();
    for (text, numbers, bound, names, enough) in ROWS {
        let given = given(&rt, alloc, text, numbers, bound, names);
        assert_eq!(rt;
            given,
            *enough,
            "{text} with {numbers} and {bound} for {names}"
        );
    }
}

// Whether names get numbers, in a text with these numbers.
fn given<'src>(
    rt: &impl Abort,
    alloc: Global,
    text: &'src str,
    numbers: &'src str,
    bound: &'src str,
    names: &'src str,
) -> bool {
    let mut outer = Scope::root(alloc, &[]).expect(rt, "no memory");
    bind(&mut outer, rt, alloc, bound);
    let module = numbered_module(rt, alloc, text, numbers);
    let given = gives_numbers(&module, &outer, rt, alloc, names);
    drop(module);
    drop(outer);
    given
}

// Whether these names get numbers. Then they are new ones.
fn gives_numbers<'src>(
    module: &Justfile<'src>,
    outer: &Scope<'src, '_>,
    rt: &impl Abort,
    alloc: Global,
    written: &'src str,
) -> bool {
    let mut names = Vec::new(alloc);
    for word in written.split_whitespace() {
        push(rt, &mut names, Name::new(word, None));
    }
    match free_numbers(alloc, module, outer, &names) {
        Ok(numbers) => {
            have_names(rt, &numbers, &names);
            are_new(module, outer, rt, alloc, &numbers);
            true
        }
        Err(_) => false,
    }
}

// The names are these, in this order.
fn have_names(rt: &impl Abort, numbers: &[(Name, Number)], names: &[Name]) {
    assert_eq!(rt; numbers.len(), names.len());
    for ((given, _), wanted) in numbers.iter().zip(names) {
        assert_eq!(rt; given.lexeme(), wanted.lexeme());
    }
}

// The numbers are distinct, those of no assignment and no parameter of a function, and not bound outside.
fn are_new(
    module: &Justfile,
    outer: &Scope,
    rt: &impl Abort,
    alloc: Global,
    numbers: &[(Name, Number)],
) {
    let mut used = used_by(module, rt, alloc);
    for (name, number) in numbers {
        let is_new = used.insert(*number).expect(rt, "no memory");
        assert!(rt; is_new, "the number of {name} is used");
        let is_bound = outer.value(*number).is_some();
        assert!(rt; !is_bound, "the number of {name} is bound");
    }
}

// The numbers of a module's assignments and of its functions' parameters.
fn used_by(module: &Justfile, rt: &impl Abort, alloc: Global) -> NumberSet {
    let mut used = NumberSet::new(alloc, 3000).expect(rt, "no memory");
    for assignment in &module.assignments {
        used.insert(assignment.number).expect(rt, "no memory");
    }
    for function in &module.functions {
        for (_, number) in &function.parameters {
            used.insert(*number).expect(rt, "no memory");
        }
    }
    used
}

// A thousand names in a module of a thousand assignments and functions. The next thousand numbers are bound outside.
#[test]
fn a_thousand_names(rt: HostRuntime) {
    let alloc = rt.alloc();
    let mut text = String::new(alloc);
    let mut numbers = String::new(alloc);
    let mut bound = String::new(alloc);
    let mut names = String::new(alloc);
    for i in 1000..2000u64 {
        let (of_parameter, of_outside) = (i + 1000, i + 2000);
        write!(text, "a{i} := ''\nf{i}(x{i}) := ''\n").expect(&rt, "no memory");
        write!(numbers, "a{i} {i} x{i} {of_parameter} ").expect(&rt, "no memory");
        write!(bound, "b{i} {of_outside} ").expect(&rt, "no memory");
        write!(names, "p{i} ").expect(&rt, "no memory");
    }
    let given = given(&rt, alloc, &text, &numbers, &bound, &names);
    assert!(rt; given, "a thousand names");
}
