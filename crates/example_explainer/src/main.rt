// A small explainer. For each variable of `example_justfile` it prints what evaluating it could reach, whatever the
// host answers; and then, for one host, its value and the questions that evaluating it asks.
#![tactic(auto)]

use anyhow::Result;
use example_justfile::module::module;
use just_eval::prelude::*;
use just_prelude::*;
use std::alloc::Global;

// Each command outputs its own text in parentheses, so that a value shows which outputs it contains.
#[derive(Drop)]
struct Shown;

impl Commands for Shown {
    ghost answers = { λ _ _ _ _. Unit {0} };

    fn answer(&mut self, alloc: Global, asked: &CommandQuestion) -> Result<String, CommandFault> {
        Ok(format!(in alloc; "({})", asked.command)?)
    }
}

fn print_reach<'src, 'a>(
    rt: &impl Print,
    alloc: Global,
    module: &'a Justfile<'src>,
    assignment: &'a Assignment<'src>,
) -> Result<()> {
    println!(rt; "{}", assignment.name)?;
    for member in reach(alloc, &module.functions, &assignment.value)? {
        println!(rt; "  reaches {member}")?;
    }
    Ok(())
}

fn explain<'src>(
    rt: &impl Print,
    alloc: Global,
    outer: &Scope<'src, '_>,
    module: &Justfile<'src>,
    assignment: &Assignment<'src>,
) -> Result<()> {
    let mut run = Run::new(alloc, module)?;
    let references = needed(
        alloc,
        module,
        outer,
        &run.overrides,
        &[assignment.name.lexeme()],
    )?;
    run.references = Some(references);
    let mut host = Recorder::new(alloc, CommandHost::new(Shown));
    match run.evaluate(alloc, &mut host, outer) {
        Ok(scope) => print_value(rt, scope.value(assignment.number))?,
        Err(error) => println!(rt; "  {error}")?,
    }
    print_questions(rt, host.questions())
}

fn print_value(rt: &impl Print, value: Option<&Value>) -> Result<()> {
    if let Some(value) = value {
        println!(rt; "  = {value}")?;
    }
    Ok(())
}

fn print_questions(rt: &impl Print, questions: &[Recorded]) -> Result<()> {
    for question in questions {
        println!(rt; "  asks {question}")?;
    }
    Ok(())
}

fn main(rt: HostRuntime) -> Result<()> {
    let outer = Scope::root(rt.alloc(), &[])?;
    let module = module(rt.alloc())?;
    for assignment in module.assignments.iter() {
        print_reach(&rt, rt.alloc(), &module, assignment)?;
        explain(&rt, rt.alloc(), &outer, &module, assignment)?;
    }
    Ok(())
}
