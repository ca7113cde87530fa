// Numbers that are bound in no order.

use crate::compared::reports;
use crate::scope::{bind, name_of, walk};
use just_value::scope::Scope;
use std::alloc::Global;
use std::process::Abort;

// The numbers 1 to 100, in steps of 37: 37, 74, 10, 47 and so on.
const STEP: u64 = 37;

const COUNT: u64 = 100;

#[test]
fn numbers_in_no_order(rt: HostRuntime) {
    let alloc = rt.alloc();
    let mut scope = Scope::root(alloc, &[]).expect(&rt, "no memory");
    for i in 1..COUNT + 1 {
        bind_text(&mut scope, &rt, alloc, "old", i * STEP % (COUNT + 1));
    }
    for i in 1..COUNT + 1 {
        if i % 3 == 0 {
            bind_text(&mut scope, &rt, alloc, "new", i);
        }
    }
    finds_each(&scope, &rt);
    let mut reported = String::new(alloc);
    walk(scope.bindings(), &rt, alloc, &mut reported);
    drop(scope);
    reports(&rt, reported, &in_order(&rt, alloc));
}

// Binds a number to its decimal.
fn bind_text<'src>(
    scope: &mut Scope<'src, '_>,
    rt: &impl Abort,
    alloc: Global,
    name: &'src str,
    number: u64,
) {
    let text = format!(in alloc; "{number}").expect(rt, "no memory");
    bind(scope, rt, alloc, name, number, &text);
}

// The name that a number is bound to in the end.
fn last_name(number: u64) -> &'static str {
    if number % 3 == 0 { "new" } else { "old" }
}

// Each number has its last name, and those around them have none.
fn finds_each(scope: &Scope, rt: &impl Abort) {
    assert_eq!(rt; name_of(scope, 0), "-");
    assert_eq!(rt; name_of(scope, COUNT + 1), "-");
    for number in 1..COUNT + 1 {
        assert_eq!(rt; name_of(scope, number), last_name(number));
    }
}

// The bindings in ascending order of number.
fn in_order(rt: &impl Abort, alloc: Global) -> String {
    let mut wanted = String::new(alloc);
    for number in 1..COUNT + 1 {
        let name = last_name(number);
        let bound = format!(in alloc; "{name}={number};").expect(rt, "no memory");
        wanted.push_str(&bound).expect(rt, "no memory");
    }
    wanted
}
