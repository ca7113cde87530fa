// A scope of a thousand bindings, and a thousand frames within it.

use crate::compared::{reports, same};
use crate::scope::{bind, holds, name_of, report_own};
use crate::sizes::{beside_themselves, thousand};
use just_value::scope::Scope;
use std::alloc::Global;
use std::process::Abort;

#[test]
fn a_thousand_bindings(rt: HostRuntime) {
    let names = thousand(&rt, rt.alloc());
    are_bound(&rt, rt.alloc(), &names);
    are_constants(&rt, rt.alloc(), &names);
}

// A scope binds each of a thousand names to itself, and frames are nested in it.
fn are_bound(rt: &impl Abort, alloc: Global, names: &[String]) {
    let mut scope = Scope::root(alloc, &[]).expect(rt, "no memory");
    bind_all(&mut scope, rt, alloc, names);
    holds_all(&scope, rt, alloc, names);
    same(rt, name_of(&scope, 1000), "-");
    binds_only(&scope, rt, alloc, names);
    bind(&mut scope, rt, alloc, "x", 0, "outermost");
    descend(&scope, rt, alloc, 1000);
    drop(scope);
}

// Binds each name to itself, with its index as number, the last first.
fn bind_all<'src>(
    scope: &mut Scope<'src, '_>,
    rt: &impl Abort,
    alloc: Global,
    names: &'src [String],
) {
    for (place, lexeme) in names.iter().enumerate().rev() {
        bind(scope, rt, alloc, lexeme, place as u64, lexeme);
    }
}

// Each name is bound to itself, with its index as number.
fn holds_all(scope: &Scope, rt: &impl Abort, alloc: Global, names: &[String]) {
    for (place, lexeme) in names.iter().enumerate() {
        holds(scope, rt, alloc, place as u64, lexeme);
    }
}

// The own bindings of a scope are exactly each name bound to itself.
fn binds_only(scope: &Scope, rt: &impl Abort, alloc: Global, names: &[String]) {
    let mut reported = String::new(alloc);
    report_own(scope, rt, alloc, &mut reported);
    reports(rt, reported, &themselves_twice(rt, alloc, names));
}

// Each name bound to itself, twice.
fn themselves_twice(rt: &impl Abort, alloc: Global, names: &[String]) -> String {
    let mut twice = String::new(alloc);
    for name in names.iter().chain(names) {
        write!(twice, "{name}={name};").expect(rt, "no memory");
    }
    twice
}

// This many frames within a scope, each of which binds a number of its own and can read what the outermost binds.
fn descend(scope: &Scope, rt: &impl Abort, alloc: Global, levels: u64) {
    holds(scope, rt, alloc, 0, "outermost");
    if levels == 0 {
        return;
    }
    let mut child = scope.child(alloc).expect(rt, "no memory");
    bind(&mut child, rt, alloc, "own", levels, "own");
    holds(&child, rt, alloc, levels, "own");
    descend(&child, rt, alloc, levels - 1);
    drop(child);
}

// A root binds each name to itself, with its index as number.
fn are_constants(rt: &impl Abort, alloc: Global, names: &[String]) {
    let constants = beside_themselves(rt, alloc, names);
    let root = Scope::root(alloc, &constants).expect(rt, "no memory");
    holds_all(&root, rt, alloc, names);
    drop(root);
}
