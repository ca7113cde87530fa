// What could be run, read or asked.

use crate::recipe_reports::report_alias;
use crate::request::Request;
use crate::session::Session;
use just_analyzer::analysis::Analysis;
use just_host::justfile::Justfile;
use just_needs::needed::needed;
use just_parser::recipe_definition::RecipeDefinition;
use just_reach::member::Member;
use just_reach::reach::{reach, reach_of_run};
use just_recipe::expressions::{Part, expressions_of};
use just_recipe::numbered_recipe::{NumberedRecipe, numbered_recipe};
use just_syntax::assignment::Assignment;
use just_syntax::out_of_memory::OutOfMemory;
use just_syntax::table::Table;
use just_syntax::variables::number_of;
use just_value::scope::Scope;
use std::alloc::Global;
use std::collections::{BTreeSet, HashMap};

/// Lists what could be run, read or asked by evaluating the variables and recipes that the words name, or all
/// variables, each once with its place.
pub(crate) fn reach_all<'src>(
    alloc: Global,
    analysis: &Analysis<'src>,
    outer: &Scope<'src, '_>,
    session: &mut Session,
    request: &Request,
) -> Result<(), OutOfMemory> {
    let mut listed = BTreeSet::new(alloc);
    if request.words.is_empty() {
        let members = reach_of_run(alloc, &analysis.justfile, None)?;
        return print_members(&members, &mut listed, session);
    }
    for name in &request.words {
        reach_named(alloc, analysis, outer, name, &mut listed, session)?;
    }
    Ok(())
}

// Lists what the variable and the recipe with a name reach.
fn reach_named<'src>(
    alloc: Global,
    analysis: &Analysis<'src>,
    outer: &Scope<'src, '_>,
    name: &str,
    listed: &mut BTreeSet<usize>,
    session: &mut Session,
) -> Result<(), OutOfMemory> {
    let is_variable = number_of(&analysis.justfile.assignments, name).is_some();
    if is_variable {
        reach_variables(alloc, &analysis.justfile, outer, &[name], listed, session)?;
    }
    match recipe_at(analysis, name) {
        Some(definition) => reach_recipe(alloc, analysis, outer, definition, listed, session),
        None if is_variable => Ok(()),
        None => report_unknown(analysis, name, session),
    }
}

// The recipe with a name, or that of an alias.
fn recipe_at<'a, 'src>(
    analysis: &'a Analysis<'src>,
    name: &str,
) -> Option<&'a RecipeDefinition<'src>> {
    match analysis.aliases.get(name) {
        Some(alias) => analysis.recipes.get(alias.target.lexeme()),
        None => analysis.recipes.get(name),
    }
}

// Reports a name of neither a variable nor a recipe.
fn report_unknown(
    analysis: &Analysis,
    name: &str,
    session: &mut Session,
) -> Result<(), OutOfMemory> {
    match analysis.aliases.get(name) {
        Some(alias) => report_alias(alias, &analysis.recipes, session),
        None => session.fail(&format_args!(
            "justfile does not contain variable or recipe `{name}`"
        )),
    }
}

// Lists what runs of variables reach.
fn reach_variables<'src>(
    alloc: Global,
    module: &Justfile<'src>,
    outer: &Scope<'src, '_>,
    names: &[&str],
    listed: &mut BTreeSet<usize>,
    session: &mut Session,
) -> Result<(), OutOfMemory> {
    match needed(alloc, module, outer, &HashMap::new(alloc), names) {
        Ok(references) => {
            let members = reach_of_run(alloc, module, Some(&references))?;
            print_members(&members, listed, session)
        }
        Err(error) => session.fail(&error),
    }
}

// Lists what the expressions of a recipe reach, and then the variables that they read.
fn reach_recipe<'src>(
    alloc: Global,
    analysis: &Analysis<'src>,
    outer: &Scope<'src, '_>,
    definition: &RecipeDefinition<'src>,
    listed: &mut BTreeSet<usize>,
    session: &mut Session,
) -> Result<(), OutOfMemory> {
    let recipe = numbered_recipe(alloc, definition, &analysis.justfile, outer)?;
    let reached = reach_numbered(alloc, &analysis.justfile, outer, &recipe, listed, session);
    drop(recipe);
    reached
}

// The same of a numbered recipe.
fn reach_numbered<'src>(
    alloc: Global,
    module: &Justfile<'src>,
    outer: &Scope<'src, '_>,
    recipe: &NumberedRecipe<'src>,
    listed: &mut BTreeSet<usize>,
    session: &mut Session,
) -> Result<(), OutOfMemory> {
    let mut variables = Vec::new(alloc);
    for part in &expressions_of(alloc, recipe)? {
        reach_part(alloc, module, part, &mut variables, listed, session)?;
    }
    reach_variables(alloc, module, outer, &variables, listed, session)
}

// Lists what an expression reaches, and adds the names of the module's variables there.
fn reach_part<'src, 'a>(
    alloc: Global,
    module: &'a Justfile<'src>,
    part: &Part<'src, 'a>,
    variables: &mut Vec<&'src str>,
    listed: &mut BTreeSet<usize>,
    session: &mut Session,
) -> Result<(), OutOfMemory> {
    let members = reach(alloc, &module.functions, part.expression)?;
    for member in &members {
        if let Some(name) = variable_of(&module.assignments, member) {
            variables.push(name)?;
        }
    }
    print_members(&members, listed, session)
}

// The name of the module's variable that a member is, if it is one.
fn variable_of<'src>(
    assignments: &Table<Assignment<'src>>,
    member: &Member<'src, '_>,
) -> Option<&'src str> {
    match member {
        Member::Variable { name, number } => {
            let found = number_of(assignments, name.lexeme());
            if found.is_some() && found == *number {
                Some(name.lexeme())
            } else {
                None
            }
        }
        _ => None,
    }
}

// Lists members that are not listed yet.
fn print_members(
    members: &[Member],
    listed: &mut BTreeSet<usize>,
    session: &mut Session,
) -> Result<(), OutOfMemory> {
    for member in members {
        print_member(member, listed, session)?;
    }
    Ok(())
}

// Lists a member with its place, unless it is listed.
fn print_member(
    member: &Member,
    listed: &mut BTreeSet<usize>,
    session: &mut Session,
) -> Result<(), OutOfMemory> {
    let token = member.token();
    if !listed.insert(token.offset)? {
        return Ok(());
    }
    let path = token.path;
    let line = token.line.saturating_add(1);
    let column = token.column.saturating_add(1);
    session.line(format_args!("{path}:{line}:{column}: {member}"))
}
