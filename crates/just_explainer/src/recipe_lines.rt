// The environment, the dependencies and the commands of a recipe.

ghost use Rattle.std.specs.Prelude.{◌<◌};
ghost use Rattle.just_eval.specs.Prelude.{MayCall};

use crate::body::print_lines;
use crate::environment::print_environment;
use crate::session::Session;
use just_eval::evaluator::Evaluator;
use just_host::execution_context::ExecutionContext;
use just_parser::dependency::Dependency;
use just_recipe::numbered_recipe::NumberedRecipe;
use just_syntax::out_of_memory::OutOfMemory;
use just_value::element::Element;
use just_value::error::Error;
use just_value::scope::Scope;
use just_value::value::Value;
use std::alloc::Global;
use std::collections::BTreeMap;

/// Prints what a call of a recipe would start, and the questions that this asks. The first refusal ends it.
pub(crate) fn print_call<'src>(
    alloc: Global,
    context: &ExecutionContext<'src, '_>,
    recipe: &NumberedRecipe<'src>,
    arguments: &[Value],
    session: &mut Session,
) -> Result<(), OutOfMemory>
    requires may_call { 0 < context.now.recursion_limit }
{
    session.print_questions()?;
    match print_parts(alloc, context, recipe, arguments, session) {
        Ok(()) => Ok(()),
        Err(error) => session.refuse_answered(&error, error.token()),
    }
}

// Evaluates the environment and the parameters, and then the rest.
fn print_parts<'src>(
    alloc: Global,
    context: &ExecutionContext<'src, '_>,
    recipe: &NumberedRecipe<'src>,
    arguments: &[Value],
    session: &mut Session,
) -> Result<(), Error<'src>>
    requires may_call { 0 < context.now.recursion_limit }
{
    let evaluated = Evaluator::evaluate_parameters(
        alloc,
        &mut session.host,
        &|_, _, _| Ok(()),
        arguments,
        context,
        false,
        &recipe.parameters,
        &recipe.recipe,
        context.scope,
    );
    match evaluated {
        Ok((scope, words, env)) => {
            print_given(alloc, context, &scope, &words, &env, session)?;
            print_evaluated(alloc, context, recipe, &scope, env, session)
        }
        Err(error) => Err(error),
    }
}

// Prints the environment and the positional words.
fn print_given<'src>(
    alloc: Global,
    context: &ExecutionContext<'src, '_>,
    scope: &Scope<'src, '_>,
    words: &[String],
    env: &BTreeMap<String, String>,
    session: &mut Session,
) -> Result<(), OutOfMemory> {
    session.print_questions()?;
    print_environment(alloc, context, scope, env, session)?;
    print_words(alloc, words, session)
}

// Prints what the body makes in a scope and an environment.
fn print_evaluated<'src>(
    alloc: Global,
    context: &ExecutionContext<'src, '_>,
    recipe: &NumberedRecipe<'src>,
    scope: &Scope<'src, '_>,
    env: BTreeMap<String, String>,
    session: &mut Session,
) -> Result<(), Error<'src>>
    requires may_call { 0 < context.now.recursion_limit }
{
    let name = Some(recipe.recipe.name);
    let evaluator = Evaluator::new(alloc, context, env, false, name, scope)?;
    let ignores_comments = context.module.settings.ignore_comments;
    print_body(alloc, &evaluator, recipe, ignores_comments, session)
}

// Prints the positional words, if there are any.
fn print_words(alloc: Global, words: &[String], session: &mut Session) -> Result<(), OutOfMemory> {
    if words.is_empty() {
        return Ok(());
    }
    let mut line = String::from_str(alloc, "  words:")?;
    for word in words {
        let word = Element(word);
        write!(line, " {word}")?;
    }
    session.line(&line)
}

// Prints the dependencies, and the commands or the lines of a script.
fn print_body<'src>(
    alloc: Global,
    evaluator: &Evaluator<'src, '_>,
    recipe: &NumberedRecipe<'src>,
    ignores_comments: bool,
    session: &mut Session,
) -> Result<(), Error<'src>>
    requires may_call { MayCall evaluator.now }
{
    print_dependencies(alloc, evaluator, &recipe.dependencies, "before", session)?;
    print_lines(alloc, evaluator, &recipe.body, ignores_comments, session)?;
    print_dependencies(alloc, evaluator, &recipe.subsequents, "after", session)
}

// Prints dependencies with their arguments.
fn print_dependencies<'src>(
    alloc: Global,
    evaluator: &Evaluator<'src, '_>,
    dependencies: &[Dependency<'src>],
    when: &str,
    session: &mut Session,
) -> Result<(), Error<'src>>
    requires may_call { MayCall evaluator.now }
{
    for dependency in dependencies {
        let line = dependency_line(alloc, evaluator, dependency, when, session)?;
        session.print_questions()?;
        session.line(&line)?;
    }
    Ok(())
}

// A dependency with its arguments, as a line.
fn dependency_line<'src>(
    alloc: Global,
    evaluator: &Evaluator<'src, '_>,
    dependency: &Dependency<'src>,
    when: &str,
    session: &mut Session,
) -> Result<String, Error<'src>>
    requires may_call { MayCall evaluator.now }
{
    let name = dependency.recipe;
    let mut line = format!(in alloc; "  {when}: {name}")?;
    for argument in &dependency.arguments {
        let value = evaluator.evaluate_value(alloc, &mut session.host, argument)?;
        write!(line, " {value}")?;
    }
    Ok(line)
}
