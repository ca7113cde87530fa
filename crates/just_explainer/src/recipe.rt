// What a recipe would start.

ghost use Rattle.std.specs.Prelude.{◌<◌};

use crate::circles::report_circles_of;
use crate::evaluate::run_of;
use crate::recipe_lines::print_call;
use crate::recipe_reports::{report_alias, report_recipe};
use crate::request::Request;
use crate::session::Session;
use just_analyzer::analysis::Analysis;
use just_parser::recipe_definition::RecipeDefinition;
use just_recipe::numbered_recipe::{NumberedRecipe, numbered_recipe};
use just_run::arguments::group_arguments;
use just_run::run::Run;
use just_syntax::number::Number;
use just_syntax::out_of_memory::OutOfMemory;
use just_value::scope::Scope;
use just_value::value::Value;
use std::alloc::Global;
use std::collections::HashMap;

/// Prints what a recipe would start with its arguments: the first word is its name, and the others are its arguments.
pub(crate) fn explain_recipe<'src>(
    alloc: Global,
    analysis: &Analysis<'src>,
    outer: &Scope<'src, '_>,
    overrides: HashMap<Number, String>,
    session: &mut Session,
    request: &Request,
) -> Result<(), OutOfMemory> {
    let mut run = run_of(alloc, &analysis.justfile, &request.given)?;
    run.overrides = overrides;
    match request.words.split_first() {
        Some((name, words)) => explain_named(alloc, analysis, outer, name, words, &run, session),
        None => Ok(()),
    }
}

// Numbers the recipe with a name.
fn explain_named<'src>(
    alloc: Global,
    analysis: &Analysis<'src>,
    outer: &Scope<'src, '_>,
    name: &str,
    words: &[String],
    run: &Run<'src, '_>,
    session: &mut Session,
) -> Result<(), OutOfMemory>
    requires may_call { 0 < run.now.recursion_limit }
{
    let Some(definition) = recipe_named(analysis, name, session)? else {
        return Ok(());
    };
    let recipe = numbered_recipe(alloc, definition, &analysis.justfile, outer)?;
    let explained = explain_numbered(alloc, analysis, outer, &recipe, words, run, session);
    drop(recipe);
    explained
}

// Groups the arguments, if each name in the recipe means something and its dependencies lead to no circle.
fn explain_numbered<'src>(
    alloc: Global,
    analysis: &Analysis<'src>,
    outer: &Scope<'src, '_>,
    recipe: &NumberedRecipe<'src>,
    words: &[String],
    run: &Run<'src, '_>,
    session: &mut Session,
) -> Result<(), OutOfMemory>
    requires may_call { 0 < run.now.recursion_limit }
{
    report_recipe(alloc, analysis, recipe, session)?;
    report_circles_of(
        alloc,
        &analysis.recipes,
        recipe.recipe.name.lexeme(),
        session,
    )?;
    if session.has_refused() {
        return Ok(());
    }
    match group_arguments(alloc, &recipe.recipe, &recipe.parameters, words) {
        Ok(arguments) => explain_call(alloc, run, outer, recipe, &arguments, session),
        Err(error) => session.fail(&error),
    }
}

// Evaluates the module, and then the recipe.
fn explain_call<'src>(
    alloc: Global,
    run: &Run<'src, '_>,
    outer: &Scope<'src, '_>,
    recipe: &NumberedRecipe<'src>,
    arguments: &[Value],
    session: &mut Session,
) -> Result<(), OutOfMemory>
    requires may_call { 0 < run.now.recursion_limit }
{
    session.line(recipe.recipe.name)?;
    match run.evaluate(alloc, &mut session.host, outer) {
        Ok(scope) => print_call(alloc, &run.context(&scope), recipe, arguments, session),
        Err(error) => session.refuse_answered(&error, error.token()),
    }
}

/// The recipe with a name, or that of an alias; if there is none, this is reported.
pub(crate) fn recipe_named<'a, 'src>(
    analysis: &'a Analysis<'src>,
    name: &str,
    session: &mut Session,
) -> Result<Option<&'a RecipeDefinition<'src>>, OutOfMemory> {
    if let Some(recipe) = analysis.recipes.get(name) {
        return Ok(Some(recipe));
    }
    match analysis.aliases.get(name) {
        Some(alias) => {
            report_alias(alias, &analysis.recipes, session)?;
            Ok(analysis.recipes.get(alias.target.lexeme()))
        }
        None => {
            session.fail(&format_args!("justfile does not contain recipe `{name}`"))?;
            Ok(None)
        }
    }
}
