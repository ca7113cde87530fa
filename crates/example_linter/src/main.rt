// A linter of `example_justfile`. It prints each variable's constant value, or that it is open until a run; what is
// refused; the settings that are known; and the faults of the module after an edit that moves a variable.
#![tactic(auto)]

use anyhow::{Result, bail};
use example_justfile::SOURCE;
use example_justfile::module::{module, sets};
use just_eval::prelude::*;
use just_prelude::*;
use std::alloc::Global;

fn lint<'src>(
    rt: &impl Print,
    alloc: Global,
    outer: &Scope<'src, '_>,
    module: &Justfile<'src>,
) -> Result<()> {
    let run = Run::new(alloc, module)?;
    let survey = run.survey(alloc, outer)?;
    print_variables(rt, module, &survey.evaluator)?;
    print_refused(rt, alloc, &survey.refused)?;
    print_settings(rt, alloc, &survey.evaluator)
}

fn print_refused(rt: &impl Print, alloc: Global, refused: &[RefusedConstant]) -> Result<()> {
    for RefusedConstant { name: _, error } in refused {
        print!(rt; "{}", report(alloc, error, &error.token(), SOURCE)?)?;
    }
    Ok(())
}

fn print_variables(rt: &impl Print, module: &Justfile, stage: &Evaluator) -> Result<()> {
    for assignment in module.assignments.iter() {
        match stage.scope().value(assignment.number) {
            Some(value) => println!(rt; "{} = {value}", assignment.name)?,
            None => println!(rt; "{} is open", assignment.name)?,
        }
    }
    Ok(())
}

fn print_settings(rt: &impl Print, alloc: Global, stage: &Evaluator) -> Result<()> {
    let sets = sets(alloc)?;
    let mut settings = Settings::new(alloc);
    evaluate(rt, alloc, stage, &sets, &mut settings)?;
    Ok(print!(rt; "{settings}")?)
}

fn evaluate<'src>(
    rt: &impl Print,
    alloc: Global,
    stage: &Evaluator<'src, '_>,
    sets: &[Set<'src>],
    settings: &mut Settings,
) -> Result<()> {
    for set in sets {
        if let Err(error) = stage.evaluate_set(alloc, settings, set) {
            print_refusal(rt, alloc, &error)?;
        }
    }
    Ok(())
}

fn print_refusal(rt: &impl Print, alloc: Global, error: &CompileError) -> Result<()> {
    let Some(token) = error.token() else {
        bail!("{error}");
    };
    Ok(print!(rt; "{}", report(alloc, error, &token, SOURCE)?)?)
}

fn print_faults<'src>(
    rt: &impl Print,
    alloc: Global,
    outer: &Scope<'src, '_>,
    module: &Justfile<'src>,
) -> Result<()> {
    for fault in faults(alloc, module, outer, None)? {
        print!(rt; "{}", report(alloc, &fault, &fault.token(), SOURCE)?)?;
    }
    Ok(())
}

fn main(rt: HostRuntime) -> Result<()> {
    let outer = Scope::root(rt.alloc(), &[])?;
    let mut module = module(rt.alloc())?;
    lint(&rt, rt.alloc(), &outer, &module)?;
    module.evaluation_order.reverse();
    print_faults(&rt, rt.alloc(), &outer, &module)
}
