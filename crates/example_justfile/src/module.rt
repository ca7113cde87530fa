// The module, its settings and its recipe.

use crate::SOURCE;
use anyhow::{Result, bail};
use just_analyzer::analysis::Analysis;
use just_analyzer::analyze;
use just_host::justfile::Justfile;
use just_parser::parse;
use just_recipe::numbered_recipe::{NumberedRecipe, numbered_recipe};
use just_recipe::numbered_setting::numbered_setting;
use just_resolve::names::Names;
use just_resolve::resolve::resolve;
use just_syntax::results::followed;
use just_syntax::set::Set;
use just_value::scope::Scope;
use std::alloc::Global;

/// The module. Its variables have the numbers 0 to 3, and the parameter of its function has 4.
pub fn module<'src>(alloc: Global) -> Result<Justfile<'src>> {
    let parts = parts(alloc)?;
    Ok(parts.justfile)
}

/// The settings: `shell`, which is not settled before a run, and `tempdir`, which is.
pub fn sets<'src>(alloc: Global) -> Result<Vec<Set<'src>>> {
    let parts = parts(alloc)?;
    let mut sets = Vec::new(alloc);
    let added = add_sets(alloc, &parts, &mut sets);
    drop(parts);
    followed(sets, added)
}

/// The recipe. Its parameters have the numbers 5 to 7.
pub fn recipe<'src>(alloc: Global) -> Result<NumberedRecipe<'src>> {
    let parts = parts(alloc)?;
    let recipe = recipe_of(alloc, &parts);
    drop(parts);
    recipe
}

// The parts of the text. The module is numbered and in order; what the settings and the recipe read has no numbers.
fn parts<'src>(alloc: Global) -> Result<Analysis<'src>> {
    let items = parse(alloc, "justfile", SOURCE)?;
    let mut analysis = analyze(alloc, items, "/work/justfile", "/work")?;
    let resolved = resolve_module(alloc, &mut analysis.justfile);
    followed(analysis, resolved)
}

fn resolve_module<'src>(alloc: Global, module: &mut Justfile<'src>) -> Result<()> {
    let outer = Scope::root(alloc, &[])?;
    resolve(alloc, module, &outer)?;
    Ok(())
}

fn recipe_of<'src>(alloc: Global, parts: &Analysis<'src>) -> Result<NumberedRecipe<'src>> {
    let outer = Scope::root(alloc, &[])?;
    match parts.recipes.get("build") {
        Some(recipe) => Ok(numbered_recipe(alloc, recipe, &parts.justfile, &outer)?),
        None => bail!("there is no recipe"),
    }
}

fn add_sets<'src>(alloc: Global, parts: &Analysis<'src>, sets: &mut Vec<Set<'src>>) -> Result<()> {
    let outer = Scope::root(alloc, &[])?;
    let names = Names::of(alloc, &parts.justfile, &outer)?;
    for set in &parts.sets {
        add_set(alloc, set, &names, sets)?;
    }
    Ok(())
}

// Adds a set with the numbers of the names in its expressions, if it has any.
fn add_set<'src>(
    alloc: Global,
    set: &Set<'src>,
    names: &Names<'src>,
    sets: &mut Vec<Set<'src>>,
) -> Result<()> {
    match numbered_setting(alloc, &set.value, names)? {
        Some(value) => push(sets, Set::new(set.name, value)),
        None => Ok(()),
    }
}

// Adds a value. It is generic, so that a failure needs no code that drops syntax.
fn push<T: Drop>(values: &mut Vec<T>, value: T) -> Result<()> {
    values.push(value)?;
    Ok(())
}
