// Faults of small modules, below a scope that binds the number 0.

use crate::texts::{numbered_module, push, set_of};
use just_faults::faults::faults;
use just_host::justfile::Justfile;
use just_resolution::fault::Fault;
use just_syntax::name::Name;
use just_syntax::number::Number;
use just_syntax::token::Token;
use just_value::scope::Scope;
use std::alloc::Global;
use std::collections::HashSet;
use std::process::Abort;

const NUMBERS: &str = "outer 0 a 1 b 2 c 3 z 4 p 9";

const CALLED: &str = "f(p) := p\na := [f(''), outer]\nb := [a, uuid()]\n";

const EARLY: &str = "a := b\nb := ''\n";

const READS_Z: &str = "f() := [f(), z]\na := f()\nb := f()\nz := ''\n";

const MUTUAL: &str = "f() := g()\ng() := [f(), z]\na := f()\nb := f()\nz := ''\n";

const Z_FOR_A: &str = "a: attempted to evaluate unevaluated variable `z`\n";

const Z_FOR_BOTH: &str = "a: attempted to evaluate unevaluated variable `z`\n\
     b: attempted to evaluate unevaluated variable `z`\n";

// Texts; the numbers of their names, of which some have none; the evaluation order; and the faults, a line each.
const ROWS: &[(&str, &str, &str, &str)] = &[
    ("", "", "", ""),
    (CALLED, NUMBERS, "a b a", ""),
    (READS_Z, NUMBERS, "z a b", ""),
    // What the order does not name may read anything.
    (EARLY, NUMBERS, "b", ""),
    // One fault of each kind.
    (
        "a := ''\nb := ''\n",
        "a 1 b 1",
        "a b",
        "b: variable `b` has the number of another variable\n",
    ),
    (
        "f(p) := ''\n",
        "p 0",
        "",
        "p: parameter `p` has a number that is bound outside\n",
    ),
    (
        "a := x\n",
        NUMBERS,
        "a",
        "x: attempted to evaluate unresolved variable `x`\n",
    ),
    ("a := g()\n", NUMBERS, "a", "g: unknown function `g`\n"),
    (
        "f(p) := p\na := f('', '')\n",
        NUMBERS,
        "a",
        "f: function `f` called with a wrong number of arguments\n",
    ),
    ("", "", "e", "e: unknown assignment `e`\n"),
    (
        EARLY,
        NUMBERS,
        "a b",
        "a: attempted to evaluate unevaluated variable `b`\n",
    ),
    // Numbers, parameters, values, bodies, and then the order.
    (
        "f(p, q) := [y, f('')]\na := [g(), x, b]\nb := ''\n",
        "p 0 q 1 a 1 b 2",
        "e a",
        "q: variable `q` has the number of another variable\n\
         p: parameter `p` has a number that is bound outside\n\
         g: unknown function `g`\n\
         x: attempted to evaluate unresolved variable `x`\n\
         y: attempted to evaluate unresolved variable `y`\n\
         f: function `f` called with a wrong number of arguments\n\
         e: unknown assignment `e`\n\
         a: attempted to evaluate unevaluated variable `b`\n",
    ),
    // Three assignments with one number: that it is taken before `b` does not excuse what `b` reads.
    (
        "a := ''\nb := d\nc := ''\nd := ''\n",
        "a 1 b 1 c 1 d 4",
        "a b",
        "b: variable `b` has the number of another variable\n\
         c: variable `c` has the number of another variable\n\
         b: attempted to evaluate unevaluated variable `d`\n",
    ),
    // `c` reads `a`, which counts as taken.
    (
        "a := b\nb := ''\nc := a\n",
        NUMBERS,
        "a c",
        "a: attempted to evaluate unevaluated variable `b`\n",
    ),
    // An assignment that reads itself is taken after its first place.
    (
        "a := a\n",
        NUMBERS,
        "a a",
        "a: attempted to evaluate unevaluated variable `a`\n",
    ),
    // A name twice: what it reads is taken between its places, or never.
    (
        EARLY,
        NUMBERS,
        "a b a",
        "a: attempted to evaluate unevaluated variable `b`\n",
    ),
    (
        EARLY,
        NUMBERS,
        "a a",
        "a: attempted to evaluate unevaluated variable `b`\n\
         a: attempted to evaluate unevaluated variable `b`\n",
    ),
    // The same body, reached by two assignments.
    (READS_Z, NUMBERS, "a b z", Z_FOR_BOTH),
    (MUTUAL, NUMBERS, "a b z", Z_FOR_BOTH),
    (READS_Z, NUMBERS, "a z b", Z_FOR_A),
    (MUTUAL, NUMBERS, "a z b a", Z_FOR_A),
];

#[test]
fn faults_in_order(rt: HostRuntime) {
    let alloc = rt.alloc();
    for (text, numbers, order, wanted) in ROWS {
        let given = given(&rt, alloc, text, numbers, order, None);
        assert_eq!(rt;
            given.as_str(),
            *wanted,
            "{text} with {numbers} in the order {order}"
        );
    }
}

// What is not referenced is not taken, and may read anything.
#[test]
fn unreferenced_assignments_have_no_fault(rt: HostRuntime) {
    let references = set_of(&rt, rt.alloc(), "2");
    let given = given(&rt, rt.alloc(), EARLY, NUMBERS, "a b e", Some(&references));
    assert_eq!(rt; given.as_str(), "e: unknown assignment `e`\n");
}

// The faults of a text with these numbers and in this order, a line each.
fn given<'src>(
    rt: &impl Abort,
    alloc: Global,
    text: &'src str,
    numbers: &'src str,
    order: &'src str,
    references: Option<&HashSet<Number>>,
) -> String {
    let outer = Scope::root(alloc, &[("outer", "")]).expect(rt, "no memory");
    let mut module = numbered_module(rt, alloc, text, numbers);
    set_order(&mut module, rt, order);
    let given = found(&module, &outer, rt, alloc, references);
    drop(module);
    drop(outer);
    given
}

fn set_order<'src>(module: &mut Justfile<'src>, rt: &impl Abort, order: &'src str) {
    module.evaluation_order.clear();
    for word in order.split_whitespace() {
        push(rt, &mut module.evaluation_order, Name::new(word, None));
    }
}

// A line for each fault: the assignment that reads too early, or else the name where the fault occurs, and the message.
fn found<'src>(
    module: &Justfile<'src>,
    outer: &Scope<'src, '_>,
    rt: &impl Abort,
    alloc: Global,
    references: Option<&HashSet<Number>>,
) -> String {
    let found = faults(alloc, module, outer, references).expect(rt, "no memory");
    let mut text = String::new(alloc);
    for fault in &found {
        let of = about(fault).lexeme;
        writeln!(text, "{of}: {fault}").expect(rt, "no memory");
    }
    text
}

fn about<'src>(fault: &Fault<'src>) -> Token<'src> {
    match fault {
        Fault::UntakenVariable {
            assignment,
            variable: _,
        } => assignment.token,
        other => other.token(),
    }
}
