// All items of a file.

ghost use Rattle.std.specs.Prelude.{IfErr, IfOk, OnOk, map, ◌≡◌};
ghost use Rattle.std.specs.List.{list_any};
ghost use Rattle.just_parser.specs.View.{item_view};
ghost use Rattle.just_analyzer.specs.Analysis.{allowed_by, allows_recipes, allows_variables, analyzed, with_items};
ghost use Rattle.just_analyzer.specs.Analysis.{sets_this};
ghost use Rattle.just_analyzer.specs.Outcome.{Grown};
ghost use Rattle.just_analyzer.specs.View.{IsAnalysisFault, allowed_view, analysis_view};

use crate::added::Allowed;
use crate::analysis::Analysis;
use crate::analysis_error::AnalysisError;
use just_parser::item::Item;
use just_syntax::results::followed;
use just_syntax::setting::Setting;
use std::alloc::Global;

/// The parts that the items of a file at the path `source` make up, which works in a directory.
///
/// ```rust
/// let items = parse(alloc, "justfile", text)?;
/// let mut analysis = analyze(alloc, items, "/work/justfile", "/work")?;
/// resolve(alloc, &mut analysis.justfile, &outer)?;
/// ```
///
/// The target of an alias and the recipes that a recipe depends on are not looked up.
///
/// # Errors
///
/// `Fault` with the name of the first item that has the name of one before it. A variable or a recipe may, if
/// `allow-duplicate-variables` or `allow-duplicate-recipes` is set anywhere: then the last one counts. `OutOfMemory`,
/// if an allocation fails.
pub fn analyze<'src>(
    alloc: Global,
    items: Vec<Item<'src>>,
    source: &str,
    working_directory: &str,
) -> Result<Analysis<'src>, AnalysisError<'src>>
    ensures parts { IfOk result (λ a. analyzed source.now working_directory.now (map item_view items.entry.items)
        ≡ Grown (analysis_view a)) }
    ensures fault { IfErr result (IsAnalysisFault
        (analyzed source.now working_directory.now (map item_view items.entry.items))) }
{
    let mut items = items;
    match Analysis::new(alloc, source, working_directory) {
        Ok(mut analysis) => {
            let grown = grow(alloc, &mut analysis, &mut items);
            drop(items);
            followed(analysis, grown)
        }
        Err(_) => {
            drop(items);
            Err(AnalysisError::OutOfMemory)
        }
    }
}

// Adds items. Those that are left are not added.
fn grow<'src>(
    alloc: Global,
    analysis: &mut Analysis<'src>,
    items: &mut Vec<Item<'src>>,
) -> Result<(), AnalysisError<'src>>
    ensures ok { OnOk result (with_items (allowed_by (map item_view items.old.items)) (analysis_view analysis.old)
        (map item_view items.old.items) ≡ Grown (analysis_view analysis.new)) }
    ensures err { IfErr result (IsAnalysisFault (with_items (allowed_by (map item_view items.old.items))
        (analysis_view analysis.old) (map item_view items.old.items))) }
{
    let allowed = allowed(items);
    items.reverse();
    while let Some(item) = items.pop() {
        analysis.add(alloc, allowed, item)?;
    }
    Ok(())
}

// What the items allow.
fn allowed(items: &[Item]) -> Allowed
    ensures { allowed_view result ≡ allowed_by (map item_view items.now) }
{
    Allowed {
        recipes: are_recipes_allowed(items),
        variables: are_variables_allowed(items),
    }
}

// Whether recipes may have one name.
fn are_recipes_allowed(items: &[Item]) -> bool
    ensures { result ≡ list_any (λ item. sets_this allows_recipes (item_view item)) items.now }
{
    items.iter().any(|item| allows_recipes(item))
}

// Whether variables may have one name.
fn are_variables_allowed(items: &[Item]) -> bool
    ensures { result ≡ list_any (λ item. sets_this allows_variables (item_view item)) items.now }
{
    items.iter().any(|item| allows_variables(item))
}

// Whether an item sets that recipes may have one name.
fn allows_recipes(item: &Item) -> bool
    ensures { result ≡ sets_this allows_recipes (item_view item.now) }
{
    match item {
        Item::Set(set) => matches!(set.value, Setting::AllowDuplicateRecipes(true)),
        _ => false,
    }
}

// Whether an item sets that variables may have one name.
fn allows_variables(item: &Item) -> bool
    ensures { result ≡ sets_this allows_variables (item_view item.now) }
{
    match item {
        Item::Set(set) => matches!(set.value, Setting::AllowDuplicateVariables(true)),
        _ => false,
    }
}
