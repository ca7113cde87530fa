// A small command line front. Each line of standard input has the words of a call: `NAME=VALUE` sets a variable of
// `example_justfile`, and any other word names a variable to print. Only what these need is evaluated.
#![tactic(auto)]

use anyhow::Result;
use example_justfile::SOURCE;
use example_justfile::module::module;
use just_eval::prelude::*;
use just_prelude::*;
use std::alloc::Global;
use std::collections::HashMap;

fn call<'src>(
    rt: &impl Print,
    alloc: Global,
    outer: &Scope<'src, '_>,
    module: &Justfile<'src>,
    words: &str,
) -> Result<()> {
    let words = Positional::from_values(alloc, words.split_whitespace())?;
    let mut names = Vec::new(alloc);
    for name in &words.arguments {
        names.push(name.as_str())?;
    }
    let overrides = overrides_of(alloc, &module.assignments, &words.overrides)?;
    evaluate(rt, alloc, outer, module, overrides, &names)
}

fn evaluate<'src>(
    rt: &impl Print,
    alloc: Global,
    outer: &Scope<'src, '_>,
    module: &Justfile<'src>,
    overrides: HashMap<Number, String>,
    names: &[&str],
) -> Result<()> {
    let references = needed(alloc, module, outer, &overrides, names)?;
    let mut run = Run::new(alloc, module)?;
    run.overrides = overrides;
    run.references = Some(references);
    match run.evaluate(alloc, &mut NoHost, outer) {
        Ok(scope) => print_values(rt, &run, &scope, names),
        Err(error) => print_error(rt, alloc, &error),
    }
}

fn print_values<'src>(
    rt: &impl Print,
    run: &Run<'src, '_>,
    scope: &Scope<'src, '_>,
    names: &[&str],
) -> Result<()> {
    for name in names {
        if let Some(value) = run.value(scope, name) {
            println!(rt; "{name} = {value}")?;
        }
    }
    Ok(())
}

fn print_error(rt: &impl Print, alloc: Global, error: &Error) -> Result<()> {
    match error.token() {
        Some(token) => print!(rt; "{}", report(alloc, error, &token, SOURCE)?)?,
        None => println!(rt; "error: {error}")?,
    }
    Ok(())
}

fn main(rt: HostRuntime) -> Result<()> {
    let outer = Scope::root(rt.alloc(), &[])?;
    let module = module(rt.alloc())?;
    for words in rt.lines(rt.alloc()) {
        if let Err(error) = call(&rt, rt.alloc(), &outer, &module, words?.as_str()) {
            println!(rt; "error: {error}")?;
        }
    }
    Ok(())
}
