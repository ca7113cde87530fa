// How deep forms and calls may nest. These tests take the stack of 8 MiB that the program has. `rt try` compiles them
// with checks, whose frames are several times as large, and ends them by a signal: `rt test` runs them.

mod budgets;
mod pending;
mod silent;
mod towers;

use bumpalo::Bump;
use just_bench::module_run::ModuleRun;
use just_case_reader::case::{Case, build};
use just_case_reader::line::parse_lines;
use just_host::host::Host;
use just_value::error::Error;
use just_value::scope::Scope;
use std::alloc::Global;
use std::process::Abort;

// Whether a case ends out of memory with this host. This limit replaces the case's own.
fn is_stopped<H: Host>(
    rt: &impl Abort,
    alloc: Global,
    host: &mut H,
    case: &str,
    recursion_limit: usize,
) -> bool {
    let arena = Bump::new(alloc);
    let lines = parse_lines(alloc, &arena, case.as_bytes()).expect(rt, "no memory");
    let mut case = build(alloc, &lines).expect(rt, "no case");
    case.recursion_limit = recursion_limit;
    let parent = Scope::root(alloc, &[]).expect(rt, "no memory");
    let is_stopped = is_stopped_in(rt, alloc, host, case, &parent);
    drop(parent);
    is_stopped
}

// The same in a scope.
fn is_stopped_in<'src, H: Host>(
    rt: &impl Abort,
    alloc: Global,
    host: &mut H,
    case: Case<'src>,
    parent: &Scope<'src, '_>,
) -> bool {
    let run = ModuleRun::of_case(alloc, case).expect(rt, "no memory");
    let outcome = run.evaluate(alloc, host, parent);
    let is_stopped = matches!(outcome, Err(Error::OutOfMemory));
    drop(outcome);
    drop(run);
    is_stopped
}
