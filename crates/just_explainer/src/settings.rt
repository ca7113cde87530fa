// The settings of a justfile.

use crate::session::Session;
use just_analyzer::analysis::Analysis;
use just_eval::evaluator::Evaluator;
use just_host::settings::Settings;
use just_recipe::numbered_setting::numbered_setting;
use just_resolve::names::Names;
use just_syntax::out_of_memory::OutOfMemory;
use just_syntax::set::Set;
use just_syntax::setting::Setting;
use just_syntax::table::Table;
use just_value::scope::Scope;
use std::alloc::Global;

/// Whether lists are turned on.
pub(crate) fn sets_lists(sets: &Table<Set>) -> bool {
    match sets.get("lists") {
        Some(set) => matches!(set.value, Setting::Lists(true)),
        None => false,
    }
}

/// Evaluates the settings, and reports each that is refused. It looks for no names, if nothing is set.
pub(crate) fn evaluate_settings<'src>(
    alloc: Global,
    analysis: &mut Analysis<'src>,
    outer: &Scope<'src, '_>,
    stage: &Evaluator<'src, '_>,
    session: &mut Session,
) -> Result<(), OutOfMemory> {
    if analysis.sets.is_empty() {
        return Ok(());
    }
    let lists = analysis.justfile.settings.lists;
    let names = Names::of(alloc, &analysis.justfile, outer)?;
    for set in &analysis.sets {
        let settings = &mut analysis.justfile.settings;
        evaluate_setting(alloc, set, &names, stage, settings, session)?;
    }
    analysis.justfile.settings.lists |= lists;
    Ok(())
}

// Evaluates a setting, with the numbers of names in its expressions.
fn evaluate_setting<'src>(
    alloc: Global,
    set: &Set<'src>,
    names: &Names<'src>,
    stage: &Evaluator<'src, '_>,
    settings: &mut Settings,
    session: &mut Session,
) -> Result<(), OutOfMemory> {
    match numbered_setting(alloc, &set.value, names)? {
        Some(value) => {
            let set = Set::new(set.name, value);
            let evaluated = evaluate_numbered(alloc, &set, stage, settings, session);
            drop(set);
            evaluated
        }
        None => evaluate_numbered(alloc, set, stage, settings, session),
    }
}

// Evaluates a setting, or reports why it is refused.
fn evaluate_numbered<'src>(
    alloc: Global,
    set: &Set<'src>,
    stage: &Evaluator<'src, '_>,
    settings: &mut Settings,
    session: &mut Session,
) -> Result<(), OutOfMemory> {
    match stage.evaluate_set(alloc, settings, set) {
        Ok(()) => Ok(()),
        Err(error) => session.refuse(&error, error.token()),
    }
}
