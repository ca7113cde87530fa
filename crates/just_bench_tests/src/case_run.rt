// Runs of a case's module, with any host and in any scope.

use just_bench::module_run::ModuleRun;
use just_bench::print::{print_bindings, print_refusal};
use just_case_reader::case::Case;
use just_host::host::Host;
use just_syntax::out_of_memory::OutOfMemory;
use just_value::error::Error;
use just_value::scope::Scope;
use std::alloc::Global;
use std::process::Abort;

/// Whether a case is unresolved, and its bindings or its refusal.
pub(crate) fn reported_by_run<'call, 'src, H: Host>(
    rt: &'call impl Abort,
    alloc: Global,
    host: &'call mut H,
    case: Case<'src>,
    parent: &Scope<'src, '_>,
) -> String {
    let run = ModuleRun::of_case(alloc, case).expect(rt, "no memory");
    let mut text = String::new(alloc);
    let printed = print(&run, alloc, &mut text, host, parent);
    printed.expect(rt, "no memory");
    drop(run);
    text
}

// Adds whether the module is unresolved, evaluates it, and adds the bindings or the refusal.
fn print<'src, H: Host>(
    run: &ModuleRun<'src>,
    alloc: Global,
    text: &mut String,
    host: &mut H,
    parent: &Scope<'src, '_>,
) -> Result<(), OutOfMemory> {
    if !run.is_resolved(alloc, parent)? {
        text.push_str("unresolved\n")?;
    }
    let outcome = run.evaluate(alloc, host, parent);
    let printed = print_outcome(alloc, text, &outcome);
    drop(outcome);
    printed
}

// Adds the bindings or the refusal.
fn print_outcome<'call>(
    alloc: Global,
    text: &'call mut String,
    outcome: &'call Result<Scope, Error>,
) -> Result<(), OutOfMemory> {
    match outcome {
        Ok(scope) => print_bindings(text, scope),
        Err(error) => print_refusal(alloc, text, error),
    }
}
