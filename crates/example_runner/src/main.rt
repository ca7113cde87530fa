// A recipe runner that only prints: each line of input has the words of a call of `build` in `example_justfile`.
#![tactic(auto)]

ghost use Rattle.std.specs.Prelude.{◌<◌};

use anyhow::Result;
use example_justfile::module::{module, recipe};
use just_eval::prelude::*;
use just_prelude::*;
use std::alloc::Global;

#[derive(Drop)]
struct Git;

impl Commands for Git {
    ghost answers = { λ _ _ _ _. Unit {0} };

    fn answer(&mut self, alloc: Global, asked: &CommandQuestion) -> Result<String, CommandFault> {
        if asked.command == "git rev-parse HEAD" {
            return Ok(String::from_str(alloc, "1f3a")?);
        }
        NoHost.command(alloc, asked)
    }
}

fn invoke<'src>(
    rt: &impl Print,
    alloc: Global,
    outer: &Scope<'src, '_>,
    module: &Justfile<'src>,
    words: &str,
) -> Result<()> {
    println!(rt; "build {words}")?;
    let run = Run::new(alloc, module)?;
    let mut host = CommandHost::new(Git);
    let scope = run.evaluate(alloc, &mut host, outer)?;
    call(rt, alloc, &mut host, &run.context(&scope), words)
}

fn call(
    rt: &impl Print,
    alloc: Global,
    host: &mut impl Host,
    context: &ExecutionContext,
    words: &str,
) -> Result<()>
    requires may_call { 0 < context.now.recursion_limit }
{
    let recipe = recipe(alloc)?;
    let words = words.split_whitespace().collect::<Vec<&str>>(alloc)?;
    let call = RecipeCall {
        recipe: &recipe.recipe,
        parameters: &recipe.parameters,
        arguments: group_arguments(alloc, &recipe.recipe, &recipe.parameters, &words)?,
        is_dependency: false,
    };
    start(rt, alloc, host, context, &call)
}

fn start<'src>(
    rt: &impl Print,
    alloc: Global,
    host: &mut impl Host,
    context: &ExecutionContext<'src, '_>,
    call: &RecipeCall<'_, 'src>,
) -> Result<()>
    requires may_call { 0 < context.now.recursion_limit }
{
    let (scope, _, env) = call.evaluate(alloc, host, &|_, _, _| Ok(()), context)?;
    for (key, value) in &env {
        println!(rt; "  {key}={value}")?;
    }
    let evaluator = Evaluator::new(alloc, context, env, false, Some(call.recipe.name), &scope)?;
    for command in evaluator.evaluate_lines(alloc, host, &recipe(alloc)?.body)? {
        println!(rt; "  > {command}")?;
    }
    Ok(())
}

fn main(rt: HostRuntime) -> Result<()> {
    let outer = Scope::root(rt.alloc(), &[])?;
    let module = module(rt.alloc())?;
    for words in rt.lines(rt.alloc()) {
        if let Err(error) = invoke(&rt, rt.alloc(), &outer, &module, &words?) {
            println!(rt; "  error: {error}")?;
        }
    }
    Ok(())
}
