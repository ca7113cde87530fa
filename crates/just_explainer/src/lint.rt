// What is wrong with a justfile, and what is known before a run.

use crate::recipe_reports::report_recipes;
use crate::session::Session;
use crate::settings::evaluate_settings;
use just_analyzer::analysis::Analysis;
use just_eval::const_survey::{ConstSurvey, RefusedConstant};
use just_syntax::assignment::Assignment;
use just_syntax::name::Name;
use just_syntax::out_of_memory::OutOfMemory;
use just_value::scope::Scope;
use std::alloc::Global;
use std::collections::BTreeMap;

/// Reports the faults of recipes and aliases, prints each variable's constant value, or that it is open, or reports why
/// it is refused, and then does so with the settings.
pub(crate) fn lint<'src>(
    alloc: Global,
    analysis: &mut Analysis<'src>,
    outer: &Scope<'src, '_>,
    survey: &ConstSurvey<'src, '_>,
    session: &mut Session,
) -> Result<(), OutOfMemory> {
    report_recipes(alloc, analysis, outer, session)?;
    let places = places_of(alloc, &survey.refused)?;
    for assignment in &analysis.justfile.assignments {
        print_variable(assignment, survey, &places, session)?;
    }
    evaluate_settings(alloc, analysis, outer, &survey.evaluator, session)?;
    print_settings(analysis, session)
}

// Prints the settings that are set, a line for each.
fn print_settings(analysis: &Analysis, session: &mut Session) -> Result<(), OutOfMemory> {
    session.text(&analysis.justfile.settings)
}

// Where each refused variable is in the list, by its name.
fn places_of<'src>(
    alloc: Global,
    refused: &[RefusedConstant<'src>],
) -> Result<BTreeMap<&'src str, usize>, OutOfMemory> {
    let mut places = BTreeMap::new(alloc);
    for (place, constant) in refused.iter().enumerate() {
        places.insert(constant.name.lexeme(), place)?;
    }
    Ok(places)
}

// Prints a variable's value, or that it is open, or reports why it is refused.
fn print_variable<'src>(
    assignment: &Assignment<'src>,
    survey: &ConstSurvey<'src, '_>,
    places: &BTreeMap<&'src str, usize>,
    session: &mut Session,
) -> Result<(), OutOfMemory> {
    let name = assignment.name;
    if let Some(value) = survey.evaluator.scope().value(assignment.number) {
        return session.line(format_args!("{name} = {value}"));
    }
    match refusal_of(&survey.refused, places, name) {
        Some(refused) => session.report(&refused.error, &refused.error.token()),
        None => session.line(format_args!("{name} is open")),
    }
}

// The refusal of a variable.
fn refusal_of<'a, 'src>(
    refused: &'a [RefusedConstant<'src>],
    places: &BTreeMap<&'src str, usize>,
    name: Name<'src>,
) -> Option<&'a RefusedConstant<'src>> {
    match places.get(name.lexeme()) {
        Some(place) => refused.get(*place),
        None => None,
    }
}
