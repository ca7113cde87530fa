// Two runs of mode := 'debug', greeting := 'Hello, ' + `whoami`,
// letter := if mode == 'debug' { greeting } else { `mail` }.
#![tactic(auto)]

use anyhow::Result;
use just_eval::prelude::*;
use just_run::run::Run;
use std::alloc::Global;
use std::collections::HashMap;

#[derive(Drop)]
struct Greeter;

impl Commands for Greeter {
    ghost answers = { λ _ _ _ _. Unit {0} };

    fn answer(&mut self, alloc: Global, asked: &CommandQuestion) -> Result<String, CommandFault> {
        if asked.command == "whoami" {
            return Ok(String::from_str(alloc, "Ada")?);
        }
        NoHost.command(alloc, asked)
    }
}

fn mode<'src>(alloc: Global) -> Result<Assignment<'src>, OutOfMemory> {
    let debug = Expression::literal(alloc, "debug", "'debug'")?;
    Ok(Assignment::new(Name::new("mode", None), Number::new(0), debug))
}

fn greeting<'src>(alloc: Global) -> Result<Assignment<'src>, OutOfMemory> {
    let hello = Expression::literal(alloc, "Hello, ", "'Hello, '")?;
    let whoami = Expression::backtick(alloc, "whoami", Token::new("`whoami`", None))?;
    let sum = Expression::concatenation(alloc, hello, Token::new("+", None), whoami)?;
    Ok(Assignment::new(Name::new("greeting", None), Number::new(1), sum))
}

fn is_debug<'src>(alloc: Global) -> Result<Expression<'src>, OutOfMemory> {
    let debug = Expression::literal(alloc, "debug", "'debug'")?;
    let mode = Expression::variable(Name::new("mode", None), Number::new(0));
    let equals = ConditionalOperator::Equality;
    Expression::comparison(alloc, mode, equals, debug, Token::new("==", None))
}

fn letter<'src>(alloc: Global) -> Result<Assignment<'src>, OutOfMemory> {
    let mut place = Place::start_of("justfile");
    (place.line, place.column, place.offset) = (2, 49, 98);
    let mail = Expression::backtick(alloc, "mail", Token::new("`mail`", Some(place)))?;
    let is_debug = is_debug(alloc)?;
    let greeting = Expression::variable(Name::new("greeting", None), Number::new(1));
    let value = Expression::conditional(alloc, is_debug, greeting, Some(mail))?;
    Ok(Assignment::new(Name::new("letter", None), Number::new(2), value))
}

fn add_assignments<'src>(alloc: Global, module: &mut Justfile<'src>) -> Result<(), OutOfMemory> {
    module.assign(mode(alloc)?)?;
    module.assign(greeting(alloc)?)?;
    module.assign(letter(alloc)?)
}

fn module<'src>(alloc: Global) -> Result<Justfile<'src>, OutOfMemory> {
    let mut module = Justfile::new(alloc, "/work/justfile", "/work")?;
    add_assignments(alloc, &mut module)?;
    Ok(module)
}

fn run(rt: &impl Print, alloc: Global, outer: &Scope, given: &[(String, String)]) -> Result<()> {
    let module = module(alloc)?;
    let overrides = overrides_of(alloc, &module.assignments, given)?;
    evaluate(rt, alloc, outer, &module, overrides)
}

fn evaluate<'src>(
    rt: &impl Print,
    alloc: Global,
    outer: &Scope<'src, '_>,
    module: &Justfile<'src>,
    overrides: HashMap<Number, String>,
) -> Result<()> {
    let mut run = Run::new(alloc, module)?;
    run.overrides = overrides;
    let mut host = CommandHost::new(Greeter);
    host.stack_budget = TRIED_STACK_BUDGET;
    match run.evaluate(alloc, &mut host, outer) {
        Ok(scope) => print_bindings(rt, &scope),
        Err(error) => print_error(rt, &error),
    }
}

fn print_bindings(rt: &impl Print, scope: &Scope) -> Result<()> {
    for binding in scope.bindings() {
        println!(rt; "{} = {}", binding.name, binding.value)?;
    }
    Ok(())
}

fn print_error(rt: &impl Print, error: &Error) -> Result<()> {
    match error.token() {
        Some(at) => {
            // A place counts lines and columns from 0, and people count from 1.
            let (line, column) = (at.line.saturating_add(1), at.column.saturating_add(1));
            println!(rt; "{}:{line}:{column}: {error}", at.path)?;
        }
        None => println!(rt; "{error}")?,
    }
    Ok(())
}

fn main(rt: HostRuntime) -> Result<()> {
    let outer = Scope::root(rt.alloc(), &[])?;
    let release = String::from_str(rt.alloc(), "release")?;
    let given = [(String::from_str(rt.alloc(), "mode")?, release)];
    run(&rt, rt.alloc(), &outer, &[])?;
    run(&rt, rt.alloc(), &outer, &given)
}
