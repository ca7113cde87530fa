// Modules that are resolved, and those that cannot be.

mod deep;
mod free_numbers;
mod name_faults;

use crate::texts::{analyzed, number_of, numbered_module, pairs, push};
use just_host::justfile::Justfile;
use just_resolve::names::Names;
use just_resolve::numbered::numbered;
use just_resolve::resolve::resolve;
use just_syntax::assignment::Assignment;
use just_syntax::expression::Expression;
use just_syntax::function_definition::FunctionDefinition;
use just_syntax::name::Name;
use just_syntax::number::Number;
use just_syntax::occurrence::Occurrence;
use just_syntax::occurrences::occurrences_in;
use just_value::binding::Binding;
use just_value::scope::Scope;
use just_value::value::Value;
use std::alloc::Global;
use std::process::Abort;

// Numbers that names may have before.
const SEVENS: &str = "a 7 b 7 c 7 d 7 f 7 p 7 v 7 x 7 y 7 all 7 DIR 7 HEX 7 LAST 7 OTHER 7 TOP 7";

// Texts, what is bound outside, and what the module is resolved to, or the message.
//
// What is bound outside is names with their numbers, the outer frame before a bar and the inner one after it. A
// resolved module is its assignments in their order and then its functions, each as its name, the numbers that it
// declares, and in brackets the numbers that it reads.
const ROWS: &[(&str, &str, &str)] = &[
    ("", "", ""),
    ("a := []\n", "", "a 0 []"),
    // a chain in the reverse order of the text, and one in that order
    (
        "d := c\nc := b\nb := a\na := ''\n",
        "",
        "a 0 [] b 1 [0] c 2 [1] d 3 [2]",
    ),
    ("a := ''\nb := a\nc := b\n", "", "a 0 [] b 1 [0] c 2 [1]"),
    // assignments that do not depend on each other keep the order of the text
    ("c := ''\na := ''\nb := ''\n", "", "c 2 [] a 0 [] b 1 []"),
    // a diamond: what is read first comes first
    (
        "a := [b, c]\nb := d\nc := d\nd := ''\n",
        "",
        "d 3 [] b 1 [3] c 2 [3] a 0 [1 2]",
    ),
    (
        "a := [c, b]\nb := d\nc := d\nd := ''\n",
        "",
        "d 3 [] c 2 [3] b 1 [3] a 0 [2 1]",
    ),
    // through functions
    ("a := f()\nb := ''\nf() := b\n", "", "b 1 [] a 0 [] f [1]"),
    (
        "a := f()\nb := ''\nf() := g()\ng() := b\n",
        "",
        "b 1 [] a 0 [] f [] g [1]",
    ),
    (
        "a := f('')\nb := ''\nf(x) := [x, b, x]\n",
        "",
        "b 1 [] a 0 [] f 2 [2 1 2]",
    ),
    // functions that call each other are no cycle of variables
    (
        "a := f()\nb := ''\nf() := g()\ng() := [f(), b]\n",
        "",
        "b 1 [] a 0 [] f [] g [1]",
    ),
    // parameters hide variables, and each function has its own
    (
        "a := f('')\nx := a\nf(x) := [x, a]\n",
        "",
        "variable `a` depends on itself",
    ),
    (
        "a := f('')\nx := a\nf(x) := x\n",
        "",
        "a 0 [] x 1 [0] f 2 [2]",
    ),
    (
        "x := ''\nf(x) := x\ng(x) := x\nh() := x\n",
        "",
        "x 0 [] f 1 [1] g 2 [2] h [0]",
    ),
    ("f(x, y) := [y, x]\n", "", "f 0 1 [1 0]"),
    // of two parameters with one name the first counts
    ("f(x, x) := x\n", "", "f 0 1 [0]"),
    // what is bound outside: its numbers are not given to others, an assignment hides it, and an inner frame hides an
    // outer one
    ("a := HEX\n", "HEX 0", "a 1 [0]"),
    (
        "a := b\nb := HEX\nf(x) := [HEX, x]\n",
        "HEX 1",
        "b 2 [1] a 0 [2] f 3 [1 3]",
    ),
    ("HEX := ''\na := HEX\n", "HEX 0", "HEX 1 [] a 2 [1]"),
    ("HEX := HEX\n", "HEX 0", "variable `HEX` depends on itself"),
    ("a := HEX\n", "HEX 0 | HEX 4", "a 1 [4]"),
    ("a := [HEX, DIR]\n", "HEX 0 | DIR 1", "a 2 [0 1]"),
    (
        "a := TOP\n",
        "TOP 18446744073709551615",
        "a 0 [18446744073709551615]",
    ),
    (
        "a := TOP\nb := ''\n",
        "TOP 18446744073709551615 OTHER 0 LAST 2",
        "a 1 [18446744073709551615] b 3 []",
    ),
    // cycles of one, two and three
    ("a := a\n", "", "variable `a` depends on itself"),
    (
        "a := b\nb := a\n",
        "",
        "variable `b` depends on itself: `b` -> `a` -> `b`",
    ),
    (
        "a := b\nb := c\nc := a\n",
        "",
        "variable `c` depends on itself: `c` -> `a` -> `b` -> `c`",
    ),
    // an assignment that reads a cycle is not a part of it
    (
        "a := b\nb := c\nc := b\n",
        "",
        "variable `c` depends on itself: `c` -> `b` -> `c`",
    ),
    // cycles through functions
    ("a := f()\nf() := a\n", "", "variable `a` depends on itself"),
    (
        "b := g()\nf() := [g(), b]\ng() := f()\n",
        "",
        "variable `b` depends on itself",
    ),
    (
        "a := f()\nb := g()\nf() := b\ng() := a\n",
        "",
        "variable `b` depends on itself: `b` -> `a` -> `b`",
    ),
    // other faults
    (
        "a := x\n",
        "",
        "attempted to evaluate unresolved variable `x`",
    ),
    (
        "a := ''\nf() := x\n",
        "",
        "attempted to evaluate unresolved variable `x`",
    ),
    ("a := f()\ng(x) := x\n", "", "unknown function `f`"),
    (
        "a := f('', '')\nf(x) := x\n",
        "",
        "function `f` called with a wrong number of arguments",
    ),
];

// The numbers that names have before do not matter.
#[test]
fn modules(rt: HostRuntime) {
    let alloc = rt.alloc();
    for (text, bound, wanted) in ROWS {
        for numbers in ["", SEVENS] {
            let given = given(&rt, alloc, text, numbers, bound);
            assert_eq!(rt;
                given.trim_end(),
                *wanted,
                "{text} with {bound} and before {numbers}"
            );
        }
    }
}

// What a text with these numbers is resolved to, or the message.
fn given<'src>(
    rt: &impl Abort,
    alloc: Global,
    text: &'src str,
    numbers: &'src str,
    bound: &'src str,
) -> String {
    let (outside, inside) = bound.split_once('|').unwrap_or((bound, ""));
    let mut outer = Scope::root(alloc, &[]).expect(rt, "no memory");
    bind(&mut outer, rt, alloc, outside);
    let mut inner = outer.child(alloc).expect(rt, "no memory");
    bind(&mut inner, rt, alloc, inside);
    let mut module = numbered_module(rt, alloc, text, numbers);
    let given = resolved(&mut module, &inner, rt, alloc);
    drop(module);
    given
}

// Binds names to their numbers.
fn bind<'src>(scope: &mut Scope<'src, '_>, rt: &impl Abort, alloc: Global, bound: &'src str) {
    let mut words = bound.split_whitespace();
    while let (Some(name), Some(number)) = (words.next(), words.next()) {
        let number = number_of(rt, number);
        let value = Value::from_text(alloc, "text").expect(rt, "no memory");
        let binding = Binding::new(alloc, Name::new(name, None), number, value);
        scope.bind(binding).expect(rt, "no memory");
    }
}

// What a module is resolved to, or the message; then the module is as before.
fn resolved<'src>(
    module: &mut Justfile<'src>,
    outer: &Scope<'src, '_>,
    rt: &impl Abort,
    alloc: Global,
) -> String {
    let before = format!(in alloc; "{module:?}").expect(rt, "no memory");
    match resolve(alloc, module, outer) {
        Ok(()) => shown(module, rt, alloc),
        Err(error) => {
            let after = format!(in alloc; "{module:?}").expect(rt, "no memory");
            assert_eq!(rt; after.as_str(), before.as_str());
            error.to_string(alloc).expect(rt, "no memory")
        }
    }
}

// The assignments of a module in their order, and its functions.
fn shown(module: &Justfile, rt: &impl Abort, alloc: Global) -> String {
    assert_eq!(rt; module.evaluation_order.len(), module.assignments.len());
    let mut all = String::new(alloc);
    for name in &module.evaluation_order {
        let assignment = module.assignments.get(name.lexeme());
        add_assignment(assignment.expect(rt, "an assignment"), rt, alloc, &mut all);
    }
    for function in &module.functions {
        add_function(function, rt, alloc, &mut all);
    }
    all
}

fn add_assignment(assignment: &Assignment, rt: &impl Abort, alloc: Global, all: &mut String) {
    let (name, number) = (assignment.name, assignment.number);
    write!(all, "{name} {number} ").expect(rt, "no memory");
    let read = read_numbers(&assignment.value, rt, alloc);
    add_list(rt, all, &read);
}

fn add_function(function: &FunctionDefinition, rt: &impl Abort, alloc: Global, all: &mut String) {
    let name = function.name;
    write!(all, "{name} ").expect(rt, "no memory");
    for (_, number) in &function.parameters {
        write!(all, "{number} ").expect(rt, "no memory");
    }
    let read = read_numbers(&function.body, rt, alloc);
    add_list(rt, all, &read);
}

fn add_list(rt: &impl Abort, all: &mut String, numbers: &str) {
    let numbers = numbers.trim_end();
    write!(all, "[{numbers}] ").expect(rt, "no memory");
}

// The numbers of the variables in an expression, in the order of its text.
fn read_numbers(expression: &Expression, rt: &impl Abort, alloc: Global) -> String {
    let mut numbers = String::new(alloc);
    for occurrence in &occurrences_in(alloc, expression).expect(rt, "no memory") {
        if let Occurrence::Variable { name: _, number } = occurrence {
            add_number(rt, &mut numbers, *number);
        }
    }
    numbers
}

fn add_number(rt: &impl Abort, all: &mut String, number: Option<Number>) {
    let added = match number {
        Some(number) => write!(all, "{number} "),
        None => write!(all, "none "),
    };
    added.expect(rt, "no memory");
}

// A chain of assignments, each of which reads the next one.
#[test]
fn long_chain(rt: HostRuntime) {
    let mut text = String::new(rt.alloc());
    for number in 0..19_999u64 {
        let next = number + 1;
        writeln!(text, "v{number} := v{next}").expect(&rt, "no memory");
    }
    text.push_str("v19999 := ''\n").expect(&rt, "no memory");
    let ends = ends_of(&rt, rt.alloc(), &text);
    assert_eq!(rt; ends.as_str(), "v19999 v0 of 20000");
}

// The first and the last name of the order that a text is resolved to, and the number of names.
fn ends_of<'src>(rt: &impl Abort, alloc: Global, text: &'src str) -> String {
    let outer = Scope::root(alloc, &[]).expect(rt, "no memory");
    let mut analysis = analyzed(rt, alloc, text);
    let resolved = resolve(alloc, &mut analysis.justfile, &outer);
    resolved.expect(rt, "it is resolved");
    let ends = ends(rt, alloc, &analysis.justfile.evaluation_order);
    drop(analysis);
    drop(outer);
    ends
}

fn ends(rt: &impl Abort, alloc: Global, names: &[Name]) -> String {
    let first = names.first().expect(rt, "a name");
    let last = names.last().expect(rt, "a name");
    let count = names.len();
    format!(in alloc; "{first} {last} of {count}").expect(rt, "no memory")
}

// Each form, and both versions of those that have an optional part.
const EVERY_FORM: &str = "all := [f(f'start{{\
    (if if assert(assert(!(/ p + v / HEX == x) || p && v, HEX)) { v } else { p } { HEX }) ++ `date`\
    }}a long text at its end', p), 'text', v]\nv := ''\n";

// The numbers of each form, for the names of a recipe with a parameter `p`, in a module that assigns `v`.
#[test]
fn every_form(rt: HostRuntime) {
    let numbers = numbers_of(&rt, rt.alloc(), EVERY_FORM);
    assert_eq!(rt; numbers.as_str(), "3 7 0 none 3 7 0 7 3 0 3 7 ");
}

// The numbers in a copy of the value of the variable `all` of a text.
fn numbers_of<'src>(rt: &impl Abort, alloc: Global, text: &'src str) -> String {
    let mut outer = Scope::root(alloc, &[]).expect(rt, "no memory");
    bind(&mut outer, rt, alloc, "HEX 0");
    let module = numbered_module(rt, alloc, text, SEVENS);
    let numbers = numbers_in(&module, &outer, rt, alloc);
    drop(module);
    drop(outer);
    numbers
}

fn numbers_in<'src>(
    module: &Justfile<'src>,
    outer: &Scope<'src, '_>,
    rt: &impl Abort,
    alloc: Global,
) -> String {
    let mut names = Names::of(alloc, module, outer).expect(rt, "no memory");
    let set = names.set_parameters(&pairs(rt, alloc, "p 3"));
    set.expect(rt, "no memory");
    let all = module.assignments.get("all").expect(rt, "`all`");
    let copy = numbered(&all.value, &names).expect(rt, "no memory");
    are_printed_alike(&all.value, &copy, rt, alloc);
    let numbers = read_numbers(&copy, rt, alloc);
    drop(copy);
    numbers
}

fn are_printed_alike<'src>(
    one: &Expression<'src>,
    other: &Expression<'src>,
    rt: &impl Abort,
    alloc: Global,
) {
    let one = one.to_string(alloc).expect(rt, "no memory");
    let other = other.to_string(alloc).expect(rt, "no memory");
    assert_eq!(rt; one, other);
}
