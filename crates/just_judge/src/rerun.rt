// Runs of a case, by its contents instead of by the program.

use bumpalo::Bump;
use just_bench::module_run::ModuleRun;
use just_bench::print::print_bindings;
use just_case_reader::case::{Case, CaseError, parse};
use just_host::justfile::Justfile;
use just_host::recorded::Recorded;
use just_host::recorder::Recorder;
use just_script::scripted_host::ScriptedHost;
use just_syntax::out_of_memory::OutOfMemory;
use just_value::error::Error;
use just_value::scope::Scope;
use std::alloc::Global;
use std::mem;

/// The case that a text describes, unless it has a bad line.
pub(crate) fn described<'case>(
    alloc: Global,
    arena: &'case Bump,
    text: &'case [u8],
) -> Result<Option<Case<'case>>, OutOfMemory> {
    match parse(alloc, arena, text) {
        Ok(case) => Ok(Some(case)),
        Err(CaseError::BadLine(_)) => Ok(None),
        Err(CaseError::OutOfMemory) => Err(OutOfMemory),
    }
}

/// The module of a case, which sets nothing.
pub(crate) fn module_of<'src>(
    alloc: Global,
    mut case: Case<'src>,
) -> Result<Justfile<'src>, OutOfMemory> {
    let mut module = Justfile::new(alloc, "/work/justfile", "/work")?;
    mem::swap(&mut module.assignments, &mut case.assignments);
    mem::swap(&mut module.functions, &mut case.functions);
    Ok(module)
}

/// Returns the questions that a case asks in a run, in order. A case with a bad line asks none.
///
/// # Errors
///
/// `OutOfMemory` if an allocation fails.
pub fn questions_of_run(alloc: Global, text: &[u8]) -> Result<Vec<Recorded>, OutOfMemory> {
    let arena = Bump::new(alloc);
    match described(alloc, &arena, text)? {
        Some(case) => asked_in_run(alloc, case),
        None => Ok(Vec::new(alloc)),
    }
}

// The questions that a case asks in a run.
fn asked_in_run(alloc: Global, mut case: Case) -> Result<Vec<Recorded>, OutOfMemory> {
    let mut host = Recorder::new(alloc, script(alloc, &mut case));
    let run = ModuleRun::of_case(alloc, case)?;
    let outer = Scope::root(alloc, &[])?;
    let _ = run.evaluate(alloc, &mut host, &outer);
    Ok(host.take_questions(alloc))
}

/// The bindings of a case's run, each on a line as the program prints it, unless the run is refused.
pub(crate) fn bound_by_run(alloc: Global, mut case: Case) -> Result<Option<String>, OutOfMemory> {
    let mut host = script(alloc, &mut case);
    let run = ModuleRun::of_case(alloc, case)?;
    let outer = Scope::root(alloc, &[])?;
    match run.evaluate(alloc, &mut host, &outer) {
        Ok(scope) => Ok(Some(printed(alloc, &scope)?)),
        Err(Error::OutOfMemory) => Err(OutOfMemory),
        Err(_) => Ok(None),
    }
}

// The lines of a scope's bindings.
fn printed(alloc: Global, scope: &Scope) -> Result<String, OutOfMemory> {
    let mut text = String::new(alloc);
    print_bindings(&mut text, scope)?;
    Ok(text)
}

// A host with the answers of a case, which are moved out of it.
fn script(alloc: Global, case: &mut Case) -> ScriptedHost {
    ScriptedHost::new(
        mem::replace(&mut case.always, Vec::new(alloc)),
        mem::replace(&mut case.replies, Vec::new(alloc)),
        Vec::new(alloc),
        Vec::new(alloc),
        Vec::new(alloc),
    )
}
