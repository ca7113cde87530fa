// Reports of what is wrong with recipes and aliases.

use crate::circles::report_circles;
use crate::session::Session;
use just_analyzer::alias::Alias;
use just_analyzer::analysis::Analysis;
use just_parser::dependency::Dependency;
use just_parser::recipe_definition::RecipeDefinition;
use just_recipe::faults::recipe_faults;
use just_recipe::numbered_recipe::NumberedRecipe;
use just_recipe::numbering::Numbering;
use just_run::arguments::group_arguments;
use just_syntax::name::Name;
use just_syntax::out_of_memory::OutOfMemory;
use just_syntax::table::Table;
use just_value::scope::Scope;
use std::alloc::Global;

/// Reports what is wrong with the recipes and the aliases of a resolved module.
pub(crate) fn report_recipes<'src>(
    alloc: Global,
    analysis: &Analysis<'src>,
    outer: &Scope<'src, '_>,
    session: &mut Session,
) -> Result<(), OutOfMemory> {
    let mut numbering = Numbering::of(alloc, &analysis.justfile, outer)?;
    for definition in &analysis.recipes {
        report_definition(alloc, analysis, outer, definition, &mut numbering, session)?;
    }
    report_circles(alloc, &analysis.recipes, session)?;
    for alias in &analysis.aliases {
        report_alias(alias, &analysis.recipes, session)?;
    }
    Ok(())
}

/// Reports the names in a numbered recipe that mean nothing, and the dependencies that do not fit. An alias is none.
pub(crate) fn report_recipe<'src>(
    alloc: Global,
    analysis: &Analysis<'src>,
    recipe: &NumberedRecipe<'src>,
    session: &mut Session,
) -> Result<(), OutOfMemory> {
    for fault in &recipe_faults(alloc, recipe, &analysis.justfile.functions)? {
        session.report(fault, &fault.token())?;
    }
    let name = recipe.recipe.name;
    report_dependencies(alloc, analysis, &recipe.dependencies, name, session)?;
    report_dependencies(alloc, analysis, &recipe.subsequents, name, session)
}

/// Reports an alias of no recipe.
pub(crate) fn report_alias<'src>(
    alias: &Alias<'src>,
    recipes: &Table<RecipeDefinition<'src>>,
    session: &mut Session,
) -> Result<(), OutOfMemory> {
    let (name, target) = (alias.name, alias.target);
    if recipes.get(target.lexeme()).is_some() {
        return Ok(());
    }
    let error = format_args!("alias `{name}` has an unknown target `{target}`");
    session.report(&error, &target.token)
}

// Reports what is wrong with a recipe.
fn report_definition<'src>(
    alloc: Global,
    analysis: &Analysis<'src>,
    outer: &Scope<'src, '_>,
    definition: &RecipeDefinition<'src>,
    numbering: &mut Numbering<'src>,
    session: &mut Session,
) -> Result<(), OutOfMemory> {
    let recipe = numbering.number(alloc, definition, outer)?;
    let reported = report_recipe(alloc, analysis, &recipe, session);
    drop(recipe);
    reported
}

// Reports what is wrong with dependencies.
fn report_dependencies<'src>(
    alloc: Global,
    analysis: &Analysis<'src>,
    dependencies: &[Dependency<'src>],
    name: Name<'src>,
    session: &mut Session,
) -> Result<(), OutOfMemory> {
    for dependency in dependencies {
        let target = dependency.recipe;
        match analysis.recipes.get(target.lexeme()) {
            Some(definition) => report_count(alloc, definition, dependency, session)?,
            None => {
                let error = format_args!("recipe `{name}` has an unknown dependency `{target}`");
                session.report(&error, &target.token)?;
            }
        }
    }
    Ok(())
}

// Reports a dependency with a number of arguments that its recipe does not take.
fn report_count<'src>(
    alloc: Global,
    definition: &RecipeDefinition<'src>,
    dependency: &Dependency<'src>,
    session: &mut Session,
) -> Result<(), OutOfMemory> {
    let name = dependency.recipe;
    // Only the number of words counts.
    let mut words = Vec::new(alloc);
    for _ in &dependency.arguments {
        words.push(name.lexeme())?;
    }
    match group_arguments(alloc, &definition.recipe, &definition.parameters, &words) {
        Ok(_) => Ok(()),
        Err(error) => session.report(&error, &name.token),
    }
}
