// The values of variables, with the questions that they ask.

ghost use Rattle.std.specs.Prelude.{IfOk, ◌≡◌};

use crate::given::Given;
use crate::request::Request;
use crate::session::Session;
use just_eval::steps::Steps;
use just_host::execution_context::RECURSION_LIMIT;
use just_host::justfile::Justfile;
use just_needs::needed::needed;
use just_run::run::Run;
use just_syntax::name::Name;
use just_syntax::number::Number;
use just_syntax::out_of_memory::OutOfMemory;
use just_syntax::variable_error::VariableError;
use just_syntax::variables::number_of;
use just_value::error::Error;
use just_value::scope::Scope;
use std::alloc::Global;
use std::collections::{HashMap, HashSet};

/// Prints the value of each variable in the order of evaluation, or of those that the words need, and below it the
/// questions that it asks. The first refusal ends it.
pub(crate) fn evaluate<'src>(
    alloc: Global,
    module: &Justfile<'src>,
    outer: &Scope<'src, '_>,
    overrides: HashMap<Number, String>,
    session: &mut Session,
    request: &Request,
) -> Result<(), OutOfMemory> {
    let names = texts(alloc, &request.words)?;
    let mut run = run_of(alloc, module, &request.given)?;
    match references(alloc, module, outer, &overrides, &names) {
        Ok(references) => {
            run.references = references;
            run.overrides = overrides;
            print_run(alloc, &run, outer, session)
        }
        Err(error) => session.fail(&error),
    }
}

/// A run of a module with the options that are given.
pub(crate) fn run_of<'src, 'run>(
    alloc: Global,
    module: &'run Justfile<'src>,
    given: &Given,
) -> Result<Run<'src, 'run>, OutOfMemory>
    ensures { IfOk result (λ run. run.recursion_limit ≡ RECURSION_LIMIT) }
{
    let mut run = Run::new(alloc, module)?;
    run.config.dry_run = given.dry_run;
    run.dotenv = given.dotenv.clone()?;
    Ok(run)
}

// The texts of words.
fn texts<'a>(alloc: Global, words: &'a [String]) -> Result<Vec<&'a str>, OutOfMemory> {
    let mut texts = Vec::new(alloc);
    for word in words {
        texts.push(word.as_str())?;
    }
    Ok(texts)
}

// What the named variables need, or all if none is named.
fn references<'src, 'name>(
    alloc: Global,
    module: &Justfile<'src>,
    outer: &Scope<'src, '_>,
    overrides: &HashMap<Number, String>,
    names: &[&'name str],
) -> Result<Option<HashSet<Number>>, VariableError<'name>> {
    if names.is_empty() {
        return Ok(None);
    }
    match needed(alloc, module, outer, overrides, names) {
        Ok(references) => Ok(Some(references)),
        Err(error) => Err(error),
    }
}

// Evaluates one variable after another.
fn print_run<'src>(
    alloc: Global,
    run: &Run<'src, '_>,
    outer: &Scope<'src, '_>,
    session: &mut Session,
) -> Result<(), OutOfMemory> {
    let mut steps = Steps::new(alloc, run.context(outer), run.references.as_ref())?;
    print_steps(alloc, run.module, &mut steps, session)
}

// The same, in steps.
fn print_steps<'src>(
    alloc: Global,
    module: &Justfile<'src>,
    steps: &mut Steps<'src, '_>,
    session: &mut Session,
) -> Result<(), OutOfMemory> {
    for name in &module.evaluation_order {
        print_step(alloc, module, steps, name, session)?;
        if session.has_refused() {
            return Ok(());
        }
    }
    Ok(())
}

// Evaluates a variable, and prints its value and its questions.
fn print_step<'src>(
    alloc: Global,
    module: &Justfile<'src>,
    steps: &mut Steps<'src, '_>,
    name: &Name<'src>,
    session: &mut Session,
) -> Result<(), OutOfMemory> {
    match steps.evaluate(alloc, &mut session.host, name) {
        Ok(()) => print_value(module, steps.scope(), name, session),
        Err(Error::OutOfMemory) => Err(OutOfMemory),
        Err(error) => print_refusal(name, &error, session),
    }
}

// Prints the value of a variable and the questions that it asked, if it was evaluated.
fn print_value<'src>(
    module: &Justfile<'src>,
    scope: &Scope<'src, '_>,
    name: &Name<'src>,
    session: &mut Session,
) -> Result<(), OutOfMemory> {
    let Some(number) = number_of(&module.assignments, name.lexeme()) else {
        return Ok(());
    };
    if let Some(value) = scope.value(number) {
        session.line(format_args!("{name} = {value}"))?;
    }
    session.print_questions()
}

// Prints that a variable is refused, and the questions that it asked.
fn print_refusal<'src>(
    name: &Name<'src>,
    error: &Error<'src>,
    session: &mut Session,
) -> Result<(), OutOfMemory> {
    session.line(format_args!("{name} is refused"))?;
    session.refuse_answered(error, error.token())
}
